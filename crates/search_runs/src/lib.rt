// Quick tests of a run of cells by the table, mostly without a branch in their inner loops: whether a toggle or a swap
// lowers the squared error in it, whatever is locked. Where none does, the trials in order can be left out. And how many
// of its cells are locked.
#![tactic(auto)]

ghost use Rattle.std.specs.Prelude.{true, false, ◌≡◌, ◌+◌, ◌*◌, ◌<◌, ◌≤◌, nat_abs, length};
ghost use Rattle.model.specs.Error.{most_filtered, most_cells};
ghost use Rattle.invariants.specs.Plate.{cell_of};
ghost use Rattle.invariants.specs.Window.{Small, most_kernel, most_worth};
ghost use Rattle.search_runs.specs.Run.{Tabled, TogglesClear, SwapsClear, CellsClear, RunLocked};

use model::Cell;
use search_change::{difference, lower_toggle};
use search_offsets::digits;
use slices::{index, is_locked};

// how long a run of cells is from this one on: up to 16 in its row
pub fn run_length(width: usize, at: Cell) -> usize
    requires { at.col < width }
    ensures { (result ≤ 16) × (at.col + result ≤ width) }
{
    (width - at.col).min(16)
}

// whether a toggle lowers the squared error at one of the n cells from `from` on
pub fn any_toggles(peak: i32, dots: &[u8], table: &[i32], from: usize, n: usize) -> bool
    requires n_in_bounds { (from + n ≤ length dots.now) × (from + n ≤ length table.now) }
    requires peak_bound { (nat_abs peak ≤ most_kernel) × Small most_filtered table.now }
    ensures { result ≡ false → TogglesClear peak dots.now table.now from n }
{
    let mut any = false;
    for k in 0..n {
        if lower_toggle(peak, dots, table, from + k) {
            any = true;
        }
    }
    any
}

// how many of the n cells from `from` on come before the first where a toggle lowers the squared error
pub fn quiet_toggles(peak: i32, dots: &[u8], table: &[i32], from: usize, n: usize) -> usize
    requires n_in_bounds { (from + n ≤ length dots.now) × (from + n ≤ length table.now) }
    requires peak_bound { (nat_abs peak ≤ most_kernel) × Small most_filtered table.now }
    ensures { (result ≤ n) × TogglesClear peak dots.now table.now from result }
{
    for k in 0..n {
        if lower_toggle(peak, dots, table, from + k) {
            return k;
        }
    }
    n
}

// whether a swap of one of the n cells from `from` on with the cell as far from `to` lowers the squared error
fn any_swaps(dots: &[u8], table: &[i32], worth: i32, from: usize, to: usize, n: usize) -> bool
    requires tabled { Tabled dots.now table.now × (nat_abs worth ≤ most_worth) × (n ≤ most_cells) }
    requires n_in_bounds { (from + n ≤ length dots.now) × (to + n ≤ length dots.now) }
    ensures { result ≡ false → SwapsClear dots.now table.now worth from to n }
{
    let mut hits: u32 = 0;
    for k in 0..n {
        let here = dots[from + k];
        let there = dots[to + k];
        let sum = difference(dots, table, from + k, to + k) + worth;
        if sum < 0 && here != there {
            hits += 1;
        }
    }
    hits != 0
}

// Whether no swap of one of the n cells of a row from `at` on, with a partner at one of the offsets, lowers the squared
// error. Where a run of partners is not whole on the plate it answers false.
pub fn swaps_clear(
    width: usize,
    codes: &[u8],
    worths: &[i32],
    dots: &[u8],
    table: &[i32],
    at: Cell,
    n: usize,
) -> bool
    requires row_bound { (at.row < 256) × (at.col < width) × (width ≤ 256) × (n ≤ 16) }
    requires tabled { Tabled dots.now table.now × (cell_of width at + n ≤ length dots.now) }
    requires worths_len { (length worths.now ≡ length codes.now) × Small most_worth worths.now }
    ensures { result ≡ true → CellsClear width dots.now table.now
        codes.now worths.now at.row at.col n }
{
    let m = index(width, at);
    let back = 6 * width + 6;
    for j in (0..codes.len()).rev() {
        let offset = digits(codes[j]);
        let place = m + offset.row * width + offset.col;
        let Some(to) = place.checked_sub(back) else {
            return false;
        };
        if dots.len() < to + n || any_swaps(dots, table, worths[j], m, to, n) {
            return false;
        }
    }
    true
}

// how many of the n cells from `from` on are locked, up to the first that is not
pub fn locked_run(gray: &[u8], from: usize, n: usize) -> usize
    requires { from + n ≤ length gray.now }
    ensures { (result ≤ n) × RunLocked gray.now from result }
{
    for k in 0..n {
        if !is_locked(gray[from + k]) {
            return k;
        }
    }
    n
}
