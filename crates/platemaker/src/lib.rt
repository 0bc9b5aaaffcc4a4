// The C interface (include/platemaker.h): a function on numbers and slices for each call of document 01. Each calls the
// proved function and lays its answer out in numbers: the status, which is 0 or the refusal number, and behind the
// pointers the rest. A refusal changes nothing but, of a sheet, filed or not, and of a sample of a PFM, the byte offset.
#![tactic(auto)]

ghost use Rattle.std.specs.Prelude.{◌≡◌};
ghost use Rattle.model.specs.Basic.{AtMost};
ghost use Rattle.model.specs.Calls.{buffers, autocorrelation_call, filtered_error_call, squared_error_call};
ghost use Rattle.model.specs.SheetCalls.{sheet_buffers};
ghost use Rattle.model.specs.FiledCalls.{check_buffers};
ghost use Rattle.model.specs.Balance.{balance_call};
ghost use Rattle.model.specs.PfmCalls.{read_pfm_call};
ghost use Rattle.model.specs.PictureCalls.{read_pbm_call, read_pgm_call, write_pbm_call, write_pgm_call, count_rows_call};
ghost use Rattle.model.specs.Interface.{Makes, Fills, value_behind, stats_behind, tried_behind, scan_behind};
ghost use Rattle.model.specs.Interface.{converge_behind};
ghost use Rattle.model.specs.Interface.{start_over, toggle_over, swap_over, toggle_scan_over, swap_scan_over, converge_over};
ghost use Rattle.model.specs.Interface.{read_behind, read_over, write_behind, write_over, check_behind, check_over};
ghost use Rattle.model.specs.Interface.{picture_behind, pfm_behind, balance_behind, sized, version};

use model::{Cell, Reason, Setting, Size};
use platemaker_answers::{
    lay_balance, lay_filled, lay_reading, lay_refused, lay_value, lay_writing,
};
use platemaker_filed::lay_checked;
use platemaker_ledgers::{lay_attempt, lay_converged, lay_scan, lay_start};
use platemaker_numbers::{judge_numbers, measures_of, stats_of, version_number};
use platemaker_pictures::{lay_pfm, lay_picture};

// The version of the library.
#[unsafe(no_mangle)]
pub extern "C" fn pm_version() -> u32
    ensures { result ≡ version }
{
    version_number()
}

// The autocorrelation.
#[unsafe(no_mangle)]
pub extern "C" fn pm_autocorrelation(radius: usize, psf: &[u8], out: &mut [i32]) -> u32
    ensures { Fills (autocorrelation_call radius psf.now out.old) result out.new }
{
    lay_filled(filter::autocorrelation(radius, psf, out))
}

// The filtered error (document 01: the table).
#[unsafe(no_mangle)]
pub extern "C" fn pm_filtered_error(
    width: usize,
    height: usize,
    radius: usize,
    psf: &[u8],
    gray: &[u8],
    dots: &[u8],
    table: &mut [i32],
) -> u32
    ensures { Fills (filtered_error_call width height radius psf.now gray.now
        dots.now table.old) result table.new }
{
    lay_filled(filter::filtered_error(width, height, radius, psf, gray, dots, table))
}

// The squared error.
#[unsafe(no_mangle)]
pub extern "C" fn pm_squared_error(
    width: usize,
    height: usize,
    radius: usize,
    psf: &[u8],
    gray: &[u8],
    dots: &[u8],
    error: &mut i64,
) -> u32
    ensures { Makes (squared_error_call width height radius psf.now gray.now
        dots.now) value_behind error.old result tt error.new }
{
    lay_value(
        filter::squared_error(width, height, radius, psf, gray, dots),
        error,
    )
}

// The tone balance.
#[unsafe(no_mangle)]
pub extern "C" fn pm_tone_balance(
    width: usize,
    height: usize,
    gray: &[u8],
    dots: &[u8],
    quotient: &mut i64,
    remainder: &mut usize,
) -> u32
    ensures { Makes (balance_call (sized width height) gray.now dots.now) balance_behind
        (quotient.old, remainder.old) result tt (quotient.new, remainder.new) }
{
    let size = Size { width, height };
    lay_balance(balance::tone_balance(size, gray, dots), quotient, remainder)
}

// A start.
#[unsafe(no_mangle)]
pub extern "C" fn pm_start(
    measures: &[usize],
    psf: &[u8],
    gray: &[u8],
    dots: &mut [u8],
    table: &mut [i32],
    stats: &mut [i64],
) -> u32
    ensures makes { Makes (start_over measures.now psf.now gray.now dots.old
        table.old stats.old) stats_behind stats.old result
        (buffers dots.new table.new) stats.new }
    ensures at_most { AtMost 255 gray.now }
{
    if let Err(reason) = judge_numbers(measures, stats) {
        return reason.into();
    }
    let setting = Setting {
        measures: measures_of(measures),
        psf,
        gray,
    };
    lay_start(starts::start(setting, dots, table), stats)
}

// An attempt to toggle.
#[unsafe(no_mangle)]
pub extern "C" fn pm_try_toggle(
    measures: &[usize],
    psf: &[u8],
    gray: &[u8],
    dots: &mut [u8],
    table: &mut [i32],
    stats: &mut [i64],
    row: usize,
    col: usize,
    change: &mut i64,
) -> u32
    ensures { Makes (toggle_over measures.now psf.now gray.now
        dots.old table.old stats.old row col)
        tried_behind (stats.old, change.old) result
        (buffers dots.new table.new) (stats.new, change.new) }
{
    if let Err(reason) = judge_numbers(measures, stats) {
        return reason.into();
    }
    let setting = Setting {
        measures: measures_of(measures),
        psf,
        gray,
    };
    let at = Cell { row, col };
    let answer = search::try_toggle(setting, dots, table, stats_of(stats), at);
    lay_attempt(answer, stats, change)
}

// An attempt to swap.
#[unsafe(no_mangle)]
pub extern "C" fn pm_try_swap(
    measures: &[usize],
    psf: &[u8],
    gray: &[u8],
    dots: &mut [u8],
    table: &mut [i32],
    stats: &mut [i64],
    row: usize,
    col: usize,
    row2: usize,
    col2: usize,
    change: &mut i64,
) -> u32
    ensures { Makes (swap_over measures.now psf.now gray.now dots.old
        table.old stats.old row col row2 col2)
        tried_behind (stats.old, change.old) result
        (buffers dots.new table.new) (stats.new, change.new) }
{
    if let Err(reason) = judge_numbers(measures, stats) {
        return reason.into();
    }
    let setting = Setting {
        measures: measures_of(measures),
        psf,
        gray,
    };
    let at = Cell { row, col };
    let to = Cell {
        row: row2,
        col: col2,
    };
    let answer = search::try_swap(setting, dots, table, stats_of(stats), at, to);
    lay_attempt(answer, stats, change)
}

// A toggle scan.
#[unsafe(no_mangle)]
pub extern "C" fn pm_toggle_scan(
    measures: &[usize],
    psf: &[u8],
    gray: &[u8],
    dots: &mut [u8],
    table: &mut [i32],
    stats: &mut [i64],
    changes: &mut u64,
    trials: &mut u64,
) -> u32
    ensures { Makes (toggle_scan_over measures.now psf.now gray.now
        dots.old table.old stats.old) scan_behind
        (stats.old, changes.old, trials.old) result (buffers dots.new
        table.new) (stats.new, changes.new, trials.new) }
{
    if let Err(reason) = judge_numbers(measures, stats) {
        return reason.into();
    }
    let setting = Setting {
        measures: measures_of(measures),
        psf,
        gray,
    };
    let answer = search::toggle_scan(setting, dots, table, stats_of(stats));
    lay_scan(answer, stats, changes, trials)
}

// A swap scan. Its twin, the toggle scan, stays beside it: the C interface names both.
#[unsafe(no_mangle)]
pub extern "C" fn pm_swap_scan(
    measures: &[usize],
    psf: &[u8],
    gray: &[u8],
    dots: &mut [u8],
    table: &mut [i32],
    stats: &mut [i64],
    changes: &mut u64,
    trials: &mut u64,
) -> u32
    ensures { Makes (swap_scan_over measures.now psf.now gray.now
        dots.old table.old stats.old) scan_behind
        (stats.old, changes.old, trials.old) result (buffers dots.new
        table.new) (stats.new, changes.new, trials.new) }
{
    if let Err(reason) = judge_numbers(measures, stats) {
        return reason.into();
    }
    let setting = Setting {
        measures: measures_of(measures),
        psf,
        gray,
    };
    let answer = search::swap_scan(setting, dots, table, stats_of(stats));
    lay_scan(answer, stats, changes, trials)
}

// A settling.
#[unsafe(no_mangle)]
pub extern "C" fn pm_converge(
    measures: &[usize],
    psf: &[u8],
    gray: &[u8],
    dots: &mut [u8],
    table: &mut [i32],
    stats: &mut [i64],
    scans: &mut u64,
) -> u32
    ensures { Makes (converge_over measures.now psf.now gray.now
        dots.old table.old stats.old)
        converge_behind (stats.old, scans.old) result
        (buffers dots.new table.new) (stats.new, scans.new) }
{
    if let Err(reason) = judge_numbers(measures, stats) {
        return reason.into();
    }
    let setting = Setting {
        measures: measures_of(measures),
        psf,
        gray,
    };
    let answer = search::converge(setting, dots, table, stats_of(stats));
    lay_converged(answer, stats, scans)
}

// Reads a sheet.
#[unsafe(no_mangle)]
pub extern "C" fn pm_read_sheet(
    bytes: &[u8],
    psf: &mut [u8],
    gray: &mut [u8],
    dots: &mut [u8],
    measures: &mut [usize],
    offset: &mut usize,
) -> u32
    ensures { Makes (read_over bytes.now psf.old gray.old dots.old
        measures.old) read_behind (measures.old, offset.old) result
        (sheet_buffers psf.new gray.new dots.new)
        (measures.new, offset.new) }
{
    if measures.len() != 5 {
        return lay_refused(Reason::Length.into(), offset);
    }
    lay_reading(sheet::read_sheet(bytes, psf, gray, dots), measures, offset)
}

// Writes a sheet.
#[unsafe(no_mangle)]
pub extern "C" fn pm_write_sheet(
    measures: &[usize],
    psf: &[u8],
    gray: &[u8],
    dots: &[u8],
    out: &mut [u8],
    length: &mut usize,
    offset: &mut usize,
) -> u32
    ensures { Makes (write_over measures.now psf.now gray.now dots.now
        out.old) write_behind (length.old, offset.old) result
        out.new (length.new, offset.new) }
{
    if measures.len() != 5 {
        return lay_refused(Reason::Length.into(), offset);
    }
    let setting = Setting {
        measures: measures_of(measures),
        psf,
        gray,
    };
    lay_writing(sheet::write_sheet(setting, dots, out), length, offset)
}

// Checks a filed sheet.
#[unsafe(no_mangle)]
pub extern "C" fn pm_check_filed(
    bytes: &[u8],
    psf: &mut [u8],
    gray: &mut [u8],
    dots: &mut [u8],
    table: &mut [i32],
    verdict: &mut [i64],
    offset: &mut usize,
) -> u32
    ensures { Makes (check_over bytes.now psf.old gray.old dots.old
        table.old verdict.old) check_behind (verdict.old, offset.old) result
        (check_buffers psf.new gray.new dots.new table.new)
        (verdict.new, offset.new) }
{
    if verdict.len() != 6 {
        return lay_refused(Reason::Length.into(), offset);
    }
    lay_checked(
        filed::check_filed(bytes, psf, gray, dots, table),
        verdict,
        offset,
    )
}

// Reads a PBM.
#[unsafe(no_mangle)]
pub extern "C" fn pm_read_pbm(
    file: &[u8],
    dots: &mut [u8],
    width: &mut usize,
    height: &mut usize,
) -> u32
    ensures { Makes (read_pbm_call file.now dots.old) picture_behind
        (width.old, height.old) result dots.new (width.new, height.new) }
{
    lay_picture(picture::read_pbm(file, dots), width, height)
}

// Reads a PGM. Its twin for a PBM stays beside it: the C interface names both.
#[unsafe(no_mangle)]
pub extern "C" fn pm_read_pgm(
    file: &[u8],
    gray: &mut [u8],
    width: &mut usize,
    height: &mut usize,
) -> u32
    ensures { Makes (read_pgm_call file.now gray.old) picture_behind
        (width.old, height.old) result gray.new (width.new, height.new) }
{
    lay_picture(picture::read_pgm(file, gray), width, height)
}

// Reads a gray PFM.
#[unsafe(no_mangle)]
pub extern "C" fn pm_read_pfm(
    file: &[u8],
    gray: &mut [u8],
    width: &mut usize,
    height: &mut usize,
    scale: &mut f32,
    offset: &mut usize,
) -> u32
    ensures { Makes (read_pfm_call file.now gray.old) pfm_behind
        (width.old, height.old, scale.old, offset.old) result gray.new
        (width.new, height.new, scale.new, offset.new) }
{
    lay_pfm(pfm::read_pfm(file, gray), width, height, scale, offset)
}

// Writes a PBM.
#[unsafe(no_mangle)]
pub extern "C" fn pm_write_pbm(
    width: usize,
    height: usize,
    dots: &[u8],
    out: &mut [u8],
    length: &mut usize,
) -> u32
    ensures { Makes (write_pbm_call (sized width height) dots.now out.old) value_behind
        length.old result out.new length.new }
{
    let size = Size { width, height };
    lay_value(picture::write_pbm(size, dots, out), length)
}

// Writes a PGM. Its twin for a PBM stays beside it: the C interface names both.
#[unsafe(no_mangle)]
pub extern "C" fn pm_write_pgm(
    width: usize,
    height: usize,
    gray: &[u8],
    out: &mut [u8],
    length: &mut usize,
) -> u32
    ensures { Makes (write_pgm_call (sized width height) gray.now out.old) value_behind
        length.old result out.new length.new }
{
    let size = Size { width, height };
    lay_value(picture::write_pgm(size, gray, out), length)
}

// Counts the dots of each row of a packed raster.
#[unsafe(no_mangle)]
pub extern "C" fn pm_count_rows(
    width: usize,
    height: usize,
    packed: &[u8],
    counts: &mut [u32],
) -> u32
    ensures { Fills (count_rows_call (sized width height) packed.now counts.old) result
        counts.new }
{
    let size = Size { width, height };
    lay_filled(picture::count_rows(size, packed, counts))
}
