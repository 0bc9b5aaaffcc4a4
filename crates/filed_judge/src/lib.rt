// The verdicts of a filed sheet that was read: the figure against the squared error, the ledger against the dots, rest.
#![tactic(auto)]

ghost use Rattle.std.specs.Prelude.{◌≡◌, ◌≤◌, pos, ◌+ℤ◌, ◌-ℤ◌, length};
ghost use Rattle.model.specs.Basic.{AtMost};
ghost use Rattle.model.specs.Error.{filtered_errors, most_cells};
ghost use Rattle.model.specs.Ledger.{count_of, dot_total};
ghost use Rattle.model.specs.Refusal.{start_refusal, PlateFits};
ghost use Rattle.model.specs.Setting.{target_in};
ghost use Rattle.model.specs.Sheet.{sheet_with, cells_of};
ghost use Rattle.model.specs.Filed.{most_figure, figures_in};
ghost use Rattle.model.specs.FiledCalls.{filed_stats, ledger_fits, rests, resting_of, resting_in, verdict_of, verdict_in};
ghost use Rattle.filed_rest.specs.Measured.{Measured};

use filed_rest::at_rest;
use filter_sums::filter_and_square;
use judge_input::judge_start;
use judge_ledger::judge_ledger;
use judge_parts::known_bytes;
use model::{Figures, FiledFigures, Reason, Setting, Stats, Verdict};
use slices::sum;

// the dots at the start: the dots on the plate - on + off; where that is below 0, the greatest number, which 21 refuses
fn start_dots(count: usize, on: u64, off: u64) -> u64
    requires { (count ≤ most_cells) × (on ≤ most_figure) × (off ≤ most_figure) }
    ensures { result ≡ count_of (pos count -ℤ pos on +ℤ pos off) }
{
    let most = count as u64 + off;
    if most < on {
        return u64::MAX;
    }
    most - on
}

// the ledger as filed
fn filed_stats(dots: &[u8], count: usize, f: FiledFigures) -> Stats
    requires { (count ≡ dot_total dots.now) × (count ≤ most_cells) × AtMost most_figure (figures_in f) }
    ensures { result ≡ filed_stats dots.now f }
{
    Stats {
        error: f.after as i64,
        figures: Figures {
            start_error: f.before as i64,
            start_dots: start_dots(count, f.on, f.off),
            on: f.on,
            off: f.off,
            swaps: f.swaps,
        },
    }
}

// whether 21 is not drawn of the ledger as filed, the squared error of the dots being known
fn ledger_fits(setting: Setting, dots: &[u8], table: &[i32], squared: i64, f: FiledFigures) -> bool
    requires { Measured setting.measures setting.psf.now setting.gray.now dots.now table.now squared
        × AtMost most_figure (figures_in f) }
    ensures { result ≡ ledger_fits (target_in setting.entry) dots.now (filed_stats dots.now f) }
{
    known_bytes(setting.gray);
    let count = sum(dots);
    let stats = filed_stats(dots, count, f);
    judge_ledger(table.len(), squared, count, stats).is_ok()
}

// at rest or not, unless a start would refuse the sheet, whose dots are given
fn resting(setting: Setting, dots: &[u8], table: &[i32], squared: i64) -> Result<bool, Reason>
    requires { Measured setting.measures setting.psf.now setting.gray.now dots.now table.now squared
        × (setting.measures.start ≡ 2) }
    ensures { resting_in result ≡ resting_of (start_refusal setting.entry.measures setting.entry.psf.now
        setting.entry.gray.now dots.now (cells_of setting.entry.measures))
        (rests (target_in setting.entry) setting.entry.measures.reach dots.now) }
{
    judge_start(setting, dots, table.len())?;
    Ok(at_rest(setting, dots, table, squared))
}

// All the verdicts; the table is filled.
pub fn judge_plate(setting: Setting, dots: &[u8], table: &mut [i32], f: FiledFigures) -> Verdict
    requires plate_fits { PlateFits setting.measures setting.psf.now setting.gray.now dots.now (length table.old) }
    requires at_most { AtMost most_figure (figures_in f) × (setting.measures.start ≡ 2) }
    ensures value { verdict_in result ≡ verdict_of (sheet_with setting.entry.measures setting.entry.psf.now
        setting.entry.gray.now dots.now) f }
    ensures table_after { table.new ≡ filtered_errors (target_in setting.entry) dots.now }
{
    let m = setting.measures;
    let squared = filter_and_square(
        m.width,
        m.height,
        m.radius,
        setting.psf,
        setting.gray,
        dots,
        table,
    );
    let filed = f.after as i64;
    Verdict {
        measures: m,
        filed,
        squared,
        figure: filed == squared,
        ledger: ledger_fits(setting, dots, table, squared, f),
        rest: resting(setting, dots, table, squared),
    }
}
