// The public calls that change a plate: attempts, scans and settling. Each judges all that it is handed, once; then the
// table decides, and a change is made only where it lowers the squared error. A refusal changes nothing.
#![tactic(auto)]

ghost use Rattle.std.specs.Prelude.{◌≡◌, MatchResult};
ghost use Rattle.model.specs.Reason.{number_of};
ghost use Rattle.model.specs.Scan.{result_of};
ghost use Rattle.model.specs.State.{later_refusal};
ghost use Rattle.model.specs.Calls.{Ends, buffers, reply_of, attempted};
ghost use Rattle.model.specs.Calls.{toggle_call, swap_call, toggle_scan_call, swap_scan_call, converge_call};
ghost use Rattle.invariants.specs.Plate.{ReadyIn};

use filter_correlate::kernel;
use judge_parts::known_bytes;
use model::{Attempt, Cell, ConvergeResult, Progress, Reason, ScanResult, Setting, Stats};
use search_converge::come_to_rest;
use search_judge::{judge_scan, judge_swap, judge_toggle};
use search_swaps::swap_counted;
use search_tally::unlocked;
use search_toggles::toggle_all;
use search_trial::{swap, toggle};

// What a call that names no cell begins with: the refusal that is drawn, or the kernel.
fn enter(setting: Setting, dots: &[u8], table: &[i32], stats: Stats) -> Result<[i32; 169], Reason>
    ensures { let number = later_refusal setting.entry.measures setting.entry.psf.now setting.entry.gray.now dots.now
        table.now stats in
        MatchResult result (λ c. (number ≡ 0) × ReadyIn setting.entry c dots.now table.now stats)
        (λ r. number_of r ≡ number) }
{
    judge_scan(setting, dots, table, stats)?;
    known_bytes(setting.gray);
    Ok(kernel(setting.measures.radius, setting.psf))
}

// An attempt to toggle the dot of a cell.
#[tactic(auto, unfolding(model::specs::Calls::toggle_call, model::specs::Calls::later_call))]
pub fn try_toggle(
    setting: Setting,
    dots: &mut [u8],
    table: &mut [i32],
    stats: Stats,
    at: Cell,
) -> Attempt
    ensures { Ends (toggle_call setting.entry.measures setting.entry.psf.now setting.entry.gray.now dots.old
        table.old stats at.row at.col) (attempted result) (buffers dots.new table.new) }
{
    if let Err(reason) = judge_toggle(setting, dots, table, stats, at) {
        return Attempt::Refused(reason);
    }
    known_bytes(setting.gray);
    let c = kernel(setting.measures.radius, setting.psf);
    toggle(setting, &c, dots, table, stats, at)
}

// An attempt to swap the dots of two cells.
#[tactic(auto, unfolding(model::specs::Calls::swap_call, model::specs::Calls::later_call))]
pub fn try_swap(
    setting: Setting,
    dots: &mut [u8],
    table: &mut [i32],
    stats: Stats,
    at: Cell,
    to: Cell,
) -> Attempt
    ensures { Ends (swap_call setting.entry.measures setting.entry.psf.now setting.entry.gray.now dots.old
        table.old stats at.row at.col to.row to.col)
        (attempted result) (buffers dots.new table.new) }
{
    if let Err(reason) = judge_swap(setting, dots, table, stats, at, to) {
        return Attempt::Refused(reason);
    }
    known_bytes(setting.gray);
    let c = kernel(setting.measures.radius, setting.psf);
    swap(setting, &c, dots, table, stats, at, to)
}

// What a scan answers, having come to that in so many trials.
fn result_of(progress: Progress, trials: u64) -> ScanResult
    ensures { result ≡ result_of progress trials }
{
    ScanResult {
        stats: progress.stats,
        changes: progress.changes,
        trials,
    }
}

// A toggle scan: a toggle attempted at each unlocked cell, in raster order, each of them a trial.
#[tactic(auto, unfolding(model::specs::Calls::toggle_scan_call, model::specs::Calls::later_call))]
pub fn toggle_scan(
    setting: Setting,
    dots: &mut [u8],
    table: &mut [i32],
    stats: Stats,
) -> Result<ScanResult, Reason>
    ensures { Ends (toggle_scan_call setting.entry.measures setting.entry.psf.now setting.entry.gray.now dots.old
        table.old stats) (reply_of result) (buffers dots.new table.new) }
{
    let c = enter(setting, dots, table, stats)?;
    let progress = toggle_all(setting, &c, dots, table, stats);
    Ok(result_of(progress, unlocked(setting.gray)))
}

// A swap scan: at each cell, in raster order, the partners within reach, farthest first, up to the first that lowers
// the squared error.
#[tactic(auto, unfolding(model::specs::Calls::swap_scan_call, model::specs::Calls::later_call))]
pub fn swap_scan(
    setting: Setting,
    dots: &mut [u8],
    table: &mut [i32],
    stats: Stats,
) -> Result<ScanResult, Reason>
    ensures { Ends (swap_scan_call setting.entry.measures setting.entry.psf.now setting.entry.gray.now dots.old
        table.old stats) (reply_of result) (buffers dots.new table.new) }
{
    let c = enter(setting, dots, table, stats)?;
    let done = swap_counted(true, setting, &c, dots, table, stats);
    Ok(result_of(done.progress, done.trials))
}

// A settling: toggle scans until one accepts nothing, then one swap scan; if that accepted something, again from the
// toggle scans.
#[tactic(auto, unfolding(model::specs::Calls::converge_call, model::specs::Calls::later_call))]
pub fn converge(
    setting: Setting,
    dots: &mut [u8],
    table: &mut [i32],
    stats: Stats,
) -> Result<ConvergeResult, Reason>
    ensures { Ends (converge_call setting.entry.measures setting.entry.psf.now setting.entry.gray.now dots.old
        table.old stats) (reply_of result) (buffers dots.new table.new) }
{
    let c = enter(setting, dots, table, stats)?;
    Ok(come_to_rest(setting, &c, dots, table, stats))
}
