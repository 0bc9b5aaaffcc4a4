// A toggle scan of a judged plate whose kernel is c. Locked cells, and runs of cells where no toggle is accepted, are
// passed over.
#![tactic(auto)]

ghost use Rattle.std.specs.Prelude.{false, ◌≡◌, ℕ, ◌+◌, ◌^◌, ◌≤◌, ◌<◌};
ghost use Rattle.model.specs.Change as Change;
ghost use Rattle.model.specs.Change.{lowers};
ghost use Rattle.model.specs.Reference.{reference};
ghost use Rattle.model.specs.Scan.{toggles, sweep};
ghost use Rattle.model.specs.Setting.{target_in};
ghost use Rattle.invariants.specs.Plate.{JudgedIn, ReadyIn, OnPlate, cell_of, Leaves};
ghost use Rattle.invariants.specs.Trials.{visit, performed};

use model::{Cell, Progress, Setting, Stats};
use search_change::peak;
use search_partners::{ahead, next};
use search_runs::{any_toggles, quiet_toggles, run_length};
use search_trial::{advance, toggle};
use slices::{index, is_locked};

// a toggle scan at one cell, which is passed over where it is locked
fn toggle_cell(
    setting: Setting,
    c: &[i32],
    dots: &mut [u8],
    table: &mut [i32],
    progress: Progress,
    at: Cell,
) -> Progress
    requires ready { ReadyIn setting c.now dots.old table.old progress.stats }
    requires on_plate { OnPlate setting.measures at × (progress.changes < 2 ^ 63) }
    ensures { let t = target_in setting.entry in
        Leaves t (performed t (visit t (toggles t) dots.old progress (cell_of setting.entry.measures.width at)))
        result dots.new table.new }
{
    if is_locked(setting.gray[index(setting.measures.width, at)]) {
        return progress;
    }
    let answer = toggle(setting, c, dots, table, progress.stats, at);
    advance(progress, answer)
}

// How many cells from here on can be passed over, a toggle lowering the squared error at none: a run of up to 16 in this
// row, or those of it before the first where one does. Cells before `tested` are in a run where one was found.
fn clear_run(
    setting: Setting,
    c: &[i32],
    dots: &[u8],
    table: &[i32],
    at: Cell,
    tested: usize,
) -> usize
    requires { JudgedIn setting c.now dots.now table.now × OnPlate setting.measures at }
    ensures { (at.col + result ≤ setting.entry.measures.width) × ((k : ℕ) → k < result
        → lowers (target_in setting.entry) dots.now
        (Change.toggle dots.now (cell_of setting.entry.measures.width at + k)) ≡ false) }
{
    let m = index(setting.measures.width, at);
    let n = run_length(setting.measures.width, at);
    let peak = peak(setting.measures.radius, c);
    if tested <= m && !any_toggles(peak, dots, table, m, n) {
        return n;
    }
    quiet_toggles(peak, dots, table, m, n)
}

// the end of the run that was tested
pub fn run_end(width: usize, at: Cell, tested: usize) -> usize
    requires { (at.row < 256) × (at.col < width) × (width ≤ 256) }
{
    let m = index(width, at);
    if m < tested {
        tested
    } else {
        m + run_length(width, at)
    }
}

// A toggle scan: what it has come to at its end.
pub fn toggle_all(
    setting: Setting,
    c: &[i32],
    dots: &mut [u8],
    table: &mut [i32],
    stats: Stats,
) -> Progress
    requires { ReadyIn setting c.now dots.old table.old stats }
    ensures { let t = target_in setting.entry in
        Leaves t (performed t (sweep t (toggles t) (reference dots.old stats)))
        result dots.new table.new }
{
    let mut progress = Progress { stats, changes: 0 };
    let mut cell = Cell { row: 0, col: 0 };
    let mut tested: usize = 0;
    // a `while`, since how far a step goes is known only at the step
    while cell.row < setting.measures.height {
        let n = clear_run(setting, c, dots, table, cell, tested);
        if 0 < n {
            cell = ahead(setting.measures.width, cell, n);
        } else {
            tested = run_end(setting.measures.width, cell, tested);
            progress = toggle_cell(setting, c, dots, table, progress, cell);
            cell = next(setting.measures.width, cell);
        }
    }
    progress
}
