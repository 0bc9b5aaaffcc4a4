// A swap scan of a judged plate whose kernel is c. A trial is decided by the table in a few operations; locked cells, and
// cells where no partner can lower the squared error, are passed over. Its trials are counted where that is asked for.
#![tactic(auto)]

ghost use Rattle.std.specs.Prelude.{true, ◌≡◌, ℕ, ◌+◌, ◌^◌, ◌≤◌, ◌<◌, length, get_or};
ghost use Rattle.model.specs.Basic.{pick};
ghost use Rattle.model.specs.Error.{cells};
ghost use Rattle.model.specs.Reference.{reference};
ghost use Rattle.model.specs.Scan.{swaps, sweep, trials_to};
ghost use Rattle.model.specs.Setting.{target_in};
ghost use Rattle.invariants.specs.Partners.{offset_of, row_of, column_of, worth_at, HoldsOffsets};
ghost use Rattle.invariants.specs.Plate.{JudgedIn, ReadyIn, OnPlate, OnWay, cell_of, Leaves};
ghost use Rattle.invariants.specs.Trials.{visit, performed, swaps_after, lowers_at, Failed, Quiet, Takes};
ghost use Rattle.search_swaps.specs.Offers.{HoldsOffers};

use model::{Cell, Counted, Progress, Setting, Stats};
use search_change::takes_swap;
use search_offsets::{digits, within_reach};
use search_partners::{ahead, next, partner_cell, weigh_offsets};
use search_prune::{grid_size, lay_worths, may_lower};
use search_runs::{locked_run, run_length, swaps_clear};
use search_tally::tally;
use search_toggles::run_end;
use search_trial::{advance, swap};
use slices::{index, is_locked};

// The offsets within reach: their codes, what each is worth, which is 255 × (P - c), and the same in rows.
#[derive(Clone, Copy)]
struct Offers<'a> {
    codes: &'a [u8],
    worths: &'a [i32],
    grid: &'a [i32],
}

// One trial of a swap scan: whether the partner at the offset of that code suits and the swap with it lowers the squared
// error; `worth` is 255 × (P - c) of the offset.
fn lowering(
    setting: Setting,
    c: &[i32],
    dots: &[u8],
    table: &[i32],
    at: Cell,
    code: u8,
    worth: i32,
) -> bool
    requires judged { JudgedIn setting c.now dots.now table.now × OnPlate setting.measures at }
    requires worth_value { worth ≡ worth_at setting.measures.radius c.now (row_of code) (column_of code) }
    ensures { result ≡ lowers_at (target_in setting.entry) dots.now
        (cell_of setting.entry.measures.width at) (offset_of code) }
{
    let m = index(setting.measures.width, at);
    let Some(n) = partner_cell(setting.measures.width, setting.measures.height, at, code) else {
        return false;
    };
    takes_swap(setting.gray, dots, table, m, n, worth)
}

// How many cells from here on can be passed over, no swap being accepted at any: those that are locked, or a run of up to
// 16 in this row, or 0 where one might be. Cells before `tested` are in a run where one was found. With many partners the
// test of a run takes longer than that of its cells, so it is made up to reach 2.
fn clear_swaps(
    setting: Setting,
    c: &[i32],
    offers: Offers,
    dots: &[u8],
    table: &[i32],
    at: Cell,
    tested: usize,
) -> usize
    requires judged { JudgedIn setting c.now dots.now table.now × OnPlate setting.measures at }
    requires holds_offers { HoldsOffers setting.measures c.now offers }
    ensures { (at.col + result ≤ setting.entry.measures.width) × ((k : ℕ) → k < result
        → Failed (target_in setting.entry) setting.entry.measures.reach dots.now
        (cell_of setting.entry.measures.width at + k) (length offers.entry.codes.now)) }
{
    let m = index(setting.measures.width, at);
    if is_locked(setting.gray[m]) {
        return locked_run(setting.gray, m, run_length(setting.measures.width, at));
    }
    if m < tested || 2 < setting.measures.reach {
        return 0;
    }
    let n = run_length(setting.measures.width, at);
    if swaps_clear(
        setting.measures.width,
        offers.codes,
        offers.worths,
        dots,
        table,
        at,
        n,
    ) {
        n
    } else {
        0
    }
}

// Where the trials of a cell begin: at the first offset, or past the last where no partner can lower the squared error.
fn first_trial(
    setting: Setting,
    c: &[i32],
    offers: Offers,
    dots: &[u8],
    table: &[i32],
    at: Cell,
) -> usize
    requires judged { JudgedIn setting c.now dots.now table.now × OnPlate setting.measures at }
    requires holds_offers { HoldsOffers setting.measures c.now offers }
    ensures { (result ≤ length offers.entry.codes.now)
        × Failed (target_in setting.entry) setting.entry.measures.reach dots.now
        (cell_of setting.entry.measures.width at) result }
{
    let m = setting.measures;
    if may_lower(m.width, m.height, m.reach, offers.grid, dots, table, at) {
        0
    } else {
        offers.codes.len()
    }
}

// The swap of a cell with the partner found.
fn swap_cell(
    setting: Setting,
    c: &[i32],
    codes: &[u8],
    dots: &mut [u8],
    table: &mut [i32],
    progress: Progress,
    at: Cell,
    found: usize,
) -> Progress
    requires ready { ReadyIn setting c.now dots.old table.old progress.stats }
    requires on_plate { OnPlate setting.measures at × (progress.changes < 2 ^ 63)
        × HoldsOffsets setting.measures.reach codes.now }
    requires found_in_bounds { (found < length codes.now) × (lowers_at (target_in setting) dots.old
        (cell_of setting.measures.width at) (offset_of (get_or codes.now found 0)) ≡ true) }
    ensures { let t = target_in setting.entry in
        Leaves t (performed t (visit t (swaps_after t setting.entry.measures.reach found) dots.old progress
        (cell_of setting.entry.measures.width at))) result dots.new table.new }
{
    let offset = digits(codes[found]);
    let to = Cell {
        row: at.row + offset.row - 6,
        col: at.col + offset.col - 6,
    };
    let answer = swap(setting, c, dots, table, progress.stats, at, to);
    advance(progress, answer)
}

// Where a scan stands: at a cell, and up to where a run of cells was tested.
#[derive(Clone, Copy)]
struct Stand {
    at: Cell,
    tested: usize,
}

// What a scan finds from there on: the first cell that takes a partner, the place of the partner's offset, and up to where
// a run of cells was tested. Where no cell takes one, it is the first below the plate.
#[derive(Clone, Copy)]
struct Taker {
    at: Cell,
    found: usize,
    tested: usize,
}

// The first cell from there on that takes a partner: at each cell the partners are tried in order, up to the first that
// lowers the squared error. Cells where none can are found by a quick test and passed over.
fn next_taker(
    setting: Setting,
    c: &[i32],
    offers: Offers,
    dots: &[u8],
    table: &[i32],
    from: Stand,
) -> Taker
    requires judged { JudgedIn setting c.now dots.now table.now × OnWay setting.measures from.at }
    requires holds_offers { HoldsOffers setting.measures c.now offers }
    ensures on_way { let m = setting.entry.measures in
        OnWay m result.at × Quiet (target_in setting.entry)
        m.reach dots.now (cell_of m.width from.at) (cell_of m.width result.at) }
    ensures takes { let m = setting.entry.measures in
        result.at.row < m.height → Takes (target_in setting.entry)
        m.reach dots.now (cell_of m.width result.at) result.found }
{
    let mut at = from.at;
    let mut tested = from.tested;
    // a `while`, since how far a step goes is known only at the step; 01 binds the loop left by `break 'partners`
    while at.row < setting.measures.height {
        let n = clear_swaps(setting, c, offers, dots, table, at, tested);
        if 0 < n {
            at = ahead(setting.measures.width, at, n);
        } else {
            tested = run_end(setting.measures.width, at, tested);
            let mut k = first_trial(setting, c, offers, dots, table, at);
            let found = 'partners: loop {
                if offers.codes.len() <= k {
                    break 'partners k;
                }
                if lowering(
                    setting,
                    c,
                    dots,
                    table,
                    at,
                    offers.codes[k],
                    offers.worths[k],
                ) {
                    break 'partners k;
                }
                k += 1;
            };
            if found < offers.codes.len() {
                return Taker { at, found, tested };
            }
            at = next(setting.measures.width, at);
        }
    }
    Taker {
        at,
        found: 0,
        tested,
    }
}

// What a scan begins with: its ledger, and whether its trials are counted.
#[derive(Clone, Copy)]
struct Task {
    stats: Stats,
    counted: bool,
}

// A swap scan with the offsets within reach and what they are worth: from cell to cell that takes a partner. Its trials are
// counted where that is asked for, and else 0.
fn swap_by(
    setting: Setting,
    c: &[i32],
    offers: Offers,
    dots: &mut [u8],
    table: &mut [i32],
    task: Task,
) -> Counted
    requires ready { ReadyIn setting c.now dots.old table.old task.stats }
    requires holds_offers { HoldsOffers setting.measures c.now offers }
    ensures fact { let t = target_in setting.entry in
        Leaves t (performed t (sweep t (swaps t setting.entry.measures.reach) (reference dots.old task.stats)))
        result.progress dots.new table.new }
    ensures trials_value { let t = target_in setting.entry in
        result.trials ≡ pick task.counted (trials_to t (swaps t setting.entry.measures.reach)
        (reference dots.old task.stats) (cells t)) 0 }
{
    let mut progress = Progress {
        stats: task.stats,
        changes: 0,
    };
    let mut trials: u64 = 0;
    let mut from = Stand {
        at: Cell { row: 0, col: 0 },
        tested: 0,
    };
    // a `loop`, since where the next swap is, if there is one, is a fact of the plate
    loop {
        let taker = next_taker(setting, c, offers, dots, table, from);
        trials = tally(
            task.counted,
            setting,
            offers.codes,
            dots,
            trials,
            from.at,
            taker.at,
            taker.found,
        );
        if setting.measures.height <= taker.at.row {
            return Counted { progress, trials };
        }
        progress = swap_cell(
            setting,
            c,
            offers.codes,
            dots,
            table,
            progress,
            taker.at,
            taker.found,
        );
        from = Stand {
            at: next(setting.measures.width, taker.at),
            tested: taker.tested,
        };
    }
}

// A swap scan: what it has come to at its end, and its trials where they are counted, else 0.
pub fn swap_counted(
    counted: bool,
    setting: Setting,
    c: &[i32],
    dots: &mut [u8],
    table: &mut [i32],
    stats: Stats,
) -> Counted
    requires { ReadyIn setting c.now dots.old table.old stats }
    ensures fact { let t = target_in setting.entry in
        Leaves t (performed t (sweep t (swaps t setting.entry.measures.reach) (reference dots.old stats)))
        result.progress dots.new table.new }
    ensures trials_value { let t = target_in setting.entry in
        result.trials ≡ pick counted (trials_to t (swaps t setting.entry.measures.reach) (reference dots.old stats)
        (cells t)) 0 }
{
    let mut codes = [0u8; 168];
    let mut worths = [0i32; 168];
    let mut grid = [0i32; 208];
    let m = setting.measures;
    let count = within_reach(m.reach, &mut codes);
    weigh_offsets(m.radius, c, &codes[..count], &mut worths[..count]);
    let n = grid_size(m.reach);
    lay_worths(m.radius, c, m.reach, &mut grid[..n]);
    let offers = Offers {
        codes: &codes[..count],
        worths: &worths[..count],
        grid: &grid[..n],
    };
    swap_by(setting, c, offers, dots, table, Task { stats, counted })
}

// A swap scan: what it has come to at its end.
pub fn swap_all(
    setting: Setting,
    c: &[i32],
    dots: &mut [u8],
    table: &mut [i32],
    stats: Stats,
) -> Progress
    requires { ReadyIn setting c.now dots.old table.old stats }
    ensures { let t = target_in setting.entry in
        Leaves t (performed t (sweep t (swaps t setting.entry.measures.reach) (reference dots.old stats)))
        result dots.new table.new }
{
    swap_counted(false, setting, c, dots, table, stats).progress
}
