// Making a change of a judged plate whose kernel is c: a byte is stored and the table follows, and the ledger counts it.
#![tactic(auto)]

ghost use Rattle.std.specs.Prelude.{◌≡◌, ◌≤◌, eqb, ◌+ℤ◌, set};
ghost use Rattle.model.specs.Basic.{pick};
ghost use Rattle.model.specs.Error.{filtered_errors};
ghost use Rattle.model.specs.Ledger.{on_count, off_count, swap_count, counted};
ghost use Rattle.model.specs.Setting.{target_in};
ghost use Rattle.invariants.specs.Plate.{JudgedIn, OnPlate, cell_of, Countable};

use filter_window::add_window;
use model::{Cell, Setting, Stats};
use slices::index;

// A byte is stored at a cell, and the table follows: each T(q) gains 255 × what the byte adds × c(q - m). A toggle
// stores the other byte, a swap each cell's byte at the other.
pub fn store(setting: Setting, c: &[i32], dots: &mut [u8], table: &mut [i32], at: Cell, byte: u8)
    requires judged { JudgedIn setting c.now dots.old table.old }
    requires on_plate { OnPlate setting.measures at × (byte ≤ 1) }
    ensures dots_after { dots.new ≡ set dots.old (cell_of setting.entry.measures.width at) byte }
    ensures table_after { table.new ≡ filtered_errors (target_in setting.entry) dots.new }
{
    let measures = setting.measures;
    let m = index(measures.width, at);
    let amount = 255 * (i32::from(byte) - i32::from(dots[m]));
    dots[m] = byte;
    let reach = 2 * measures.radius;
    add_window(table, measures.width, measures.height, at, reach, c, amount);
}

// the ledger with a change: E now gains it
fn move_error(stats: Stats, change: i64) -> Stats
    requires { Countable stats change }
    ensures { (result.error ≡ stats.error +ℤ change) × (result.figures ≡ stats.figures) }
{
    Stats {
        error: stats.error + change,
        ..stats
    }
}

// the ledger after an accepted toggle of a cell whose dot byte was `dot`: a count rises
#[tactic(auto, unfolding(model::specs::Ledger::counted, model::specs::Ledger::raised))]
pub fn count_toggle(stats: Stats, change: i64, dot: u8) -> Stats
    requires { Countable stats change }
    ensures { result ≡ counted stats change (pick (eqb dot 0) on_count off_count) }
{
    let mut counted = move_error(stats, change);
    if dot == 0 {
        counted.figures.on += 1;
    } else {
        counted.figures.off += 1;
    }
    counted
}

// the ledger after an accepted swap
#[tactic(auto, unfolding(model::specs::Ledger::counted, model::specs::Ledger::raised))]
pub fn count_swap(stats: Stats, change: i64) -> Stats
    requires { Countable stats change }
    ensures { result ≡ counted stats change swap_count }
{
    let mut counted = move_error(stats, change);
    counted.figures.swaps += 1;
    counted
}
