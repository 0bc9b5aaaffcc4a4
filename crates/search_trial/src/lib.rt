// A change of a judged plate whose kernel is c: weighed by the table, and made where it lowers the squared error.
#![tactic(auto)]

ghost use Rattle.std.specs.Prelude.{◌≡◌, ◌^◌, ◌<◌};
ghost use Rattle.model.specs.Reference.{reference, attempt};
ghost use Rattle.model.specs.Calls.{attempted};
ghost use Rattle.model.specs.Setting.{target_in};
ghost use Rattle.invariants.specs.Plate.{JudgedIn, ReadyIn, OnPlate, cell_toggle, cell_swap, Unlike};
ghost use Rattle.invariants.specs.Plate.{Weighs, Leaves, accepting, as_reply};
ghost use Rattle.invariants.specs.Trials.{advanced};

use model::{Attempt, Cell, Progress, Setting, Stats};
use search_change::{between, lowers, peak, swap_change, toggle_change};
use search_make::{count_swap, count_toggle, store};
use slices::index;

// what a toggle of a cell would add to the squared error
fn weigh_toggle(setting: Setting, c: &[i32], dots: &[u8], table: &[i32], at: Cell) -> i64
    requires { JudgedIn setting c.now dots.now table.now × OnPlate setting.measures at }
    ensures { Weighs (target_in setting.entry) dots.now
        (cell_toggle setting.entry.measures dots.now at) result }
{
    toggle_change(
        peak(setting.measures.radius, c),
        dots,
        table,
        index(setting.measures.width, at),
    )
}

// what a swap of two cells, their dots unlike, would add to it
fn weigh_swap(setting: Setting, c: &[i32], dots: &[u8], table: &[i32], at: Cell, to: Cell) -> i64
    requires judged { JudgedIn setting c.now dots.now table.now }
    requires on_plate { OnPlate setting.measures at × OnPlate setting.measures to × Unlike setting.measures dots.now at to }
    ensures { Weighs (target_in setting.entry) dots.now
        (cell_swap setting.entry.measures dots.now at to) result }
{
    let m = index(setting.measures.width, at);
    let n = index(setting.measures.width, to);
    let apart = between(setting.measures.radius, c, at, to);
    swap_change(peak(setting.measures.radius, c), apart, dots, table, m, n)
}

// A toggle is made: dots, table and ledger follow.
fn make_toggle(
    setting: Setting,
    c: &[i32],
    dots: &mut [u8],
    table: &mut [i32],
    stats: Stats,
    at: Cell,
    delta: i64,
) -> Stats
    requires ready { ReadyIn setting c.now dots.old table.old stats × OnPlate setting.measures at }
    requires weighs { Weighs (target_in setting) dots.old (cell_toggle setting.measures dots.old at) delta }
    ensures { let t = target_in setting.entry in
        Leaves t (accepting t (reference dots.old stats) (cell_toggle setting.entry.measures dots.old at))
        result dots.new table.new }
{
    let dot = dots[index(setting.measures.width, at)];
    store(setting, c, dots, table, at, 1 - dot);
    count_toggle(stats, delta, dot)
}

// A swap is made: each cell gets the other's byte.
fn make_swap(
    setting: Setting,
    c: &[i32],
    dots: &mut [u8],
    table: &mut [i32],
    stats: Stats,
    at: Cell,
    to: Cell,
    delta: i64,
) -> Stats
    requires ready { ReadyIn setting c.now dots.old table.old stats }
    requires on_plate { OnPlate setting.measures at × OnPlate setting.measures to }
    requires weighs { Weighs (target_in setting) dots.old (cell_swap setting.measures dots.old at to) delta }
    ensures { let t = target_in setting.entry in
        Leaves t (accepting t (reference dots.old stats) (cell_swap setting.entry.measures dots.old at to))
        result dots.new table.new }
{
    let here = dots[index(setting.measures.width, at)];
    let there = dots[index(setting.measures.width, to)];
    store(setting, c, dots, table, at, there);
    store(setting, c, dots, table, to, here);
    count_swap(stats, delta)
}

// An attempt to toggle a cell.
pub fn toggle(
    setting: Setting,
    c: &[i32],
    dots: &mut [u8],
    table: &mut [i32],
    stats: Stats,
    at: Cell,
) -> Attempt
    requires { ReadyIn setting c.now dots.old table.old stats × OnPlate setting.measures at }
    ensures { let t = target_in setting.entry in
        Leaves t (as_reply (attempt t (reference dots.old stats) (cell_toggle setting.entry.measures dots.old at)))
        (attempted result) dots.new table.new }
{
    let delta = weigh_toggle(setting, c, dots, table, at);
    if lowers(delta) {
        let toggled = make_toggle(setting, c, dots, table, stats, at, delta);
        return Attempt::Accepted(toggled, delta);
    }
    Attempt::Declined(delta)
}

// An attempt to swap two cells, their dots unlike.
pub fn swap(
    setting: Setting,
    c: &[i32],
    dots: &mut [u8],
    table: &mut [i32],
    stats: Stats,
    at: Cell,
    to: Cell,
) -> Attempt
    requires ready { ReadyIn setting c.now dots.old table.old stats }
    requires on_plate { OnPlate setting.measures at × OnPlate setting.measures to × Unlike setting.measures dots.old at to }
    ensures { let t = target_in setting.entry in
        Leaves t (as_reply (attempt t (reference dots.old stats) (cell_swap setting.entry.measures dots.old at to)))
        (attempted result) dots.new table.new }
{
    let delta = weigh_swap(setting, c, dots, table, at, to);
    if lowers(delta) {
        let swapped = make_swap(setting, c, dots, table, stats, at, to, delta);
        return Attempt::Accepted(swapped, delta);
    }
    Attempt::Declined(delta)
}

// what a scan has come to once an attempt has answered
pub fn advance(progress: Progress, answer: Attempt) -> Progress
    requires { progress.changes < 2 ^ 63 }
    ensures { result ≡ advanced progress (attempted answer) }
{
    match answer {
        Attempt::Accepted(stats, _) => Progress {
            stats,
            changes: progress.changes + 1,
        },
        Attempt::Declined(_) | Attempt::Refused(_) => progress,
    }
}
