// The quick test of all partners of a cell by the table: row by row of those within reach, whether a swap with one might
// lower the squared error. Where none does, the trials in order can be left out.
#![tactic(auto)]

ghost use Rattle.std.specs.Prelude.{true, false, ◌≡◌, ◌+◌, ◌*◌, ◌<◌, ◌≤◌, pos, nat_abs, length, get_or};
ghost use Rattle.model.specs.Basic.{square_at};
ghost use Rattle.model.specs.Error.{most_filtered};
ghost use Rattle.invariants.specs.Window.{Small, HoldsSquare, most_worth};
ghost use Rattle.search_runs.specs.Run.{Tabled};
ghost use Rattle.search_prune.specs.Grid.{row_length, grid_size, worth_in, GridFits};
ghost use Rattle.search_prune.specs.Grid.{RunTest, RunClear, SumsClear, RowsClear};

use model::Cell;
use search_change::{between, lower_swap, peak, signed};
use slices::index;

// the largest size of what an offset is worth: no difference of two table entries outweighs it
const MOST_WORTH: i32 = 534773760;

// how long the rows are: 8 or 16 entries, which hold the 2 × reach + 1 that are wanted
pub fn row_length(reach: usize) -> usize
    ensures { result ≡ row_length reach }
{
    if reach < 4 { 8 } else { 16 }
}

// how long all of them are
pub fn grid_size(reach: usize) -> usize
    requires { reach ≤ 6 }
    ensures { (result ≡ grid_size reach) × (result ≤ 208) }
{
    (2 * reach + 1) * row_length(reach)
}

// what the offset of entry q is worth, or past the reach a number that no difference outweighs
fn worth_at(radius: usize, c: &[i32], reach: usize, top: i32, q: usize) -> i32
    requires holds_square { HoldsSquare radius c.now × (top ≡ square_at (pos 0) (2 * radius) c.now (pos 0) (pos 0)) }
    requires reach_bound { (reach ≤ 6) × (q < grid_size reach) }
    ensures { result ≡ worth_in radius c.now reach q }
{
    let side = row_length(reach);
    let i = q % side;
    if 2 * reach < i {
        return MOST_WORTH;
    }
    let middle = Cell {
        row: reach,
        col: reach,
    };
    let row = q / side;
    255 * (top - between(radius, c, middle, Cell { row, col: i }))
}

// what the offsets within reach are worth, in rows
pub fn lay_worths(radius: usize, c: &[i32], reach: usize, grid: &mut [i32])
    requires { HoldsSquare radius c.now × (reach ≤ 6) × (length grid.old ≡ grid_size reach) }
    ensures { GridFits radius c.now reach grid.new }
{
    let top = peak(radius, c);
    for q in 0..grid.len() {
        grid[q] = worth_at(radius, c, reach, top, q);
    }
}

// whether the sum of a trial is below 0 with one of the cells whose entries of the table are `others`, of a cell with that
// dot byte and that entry
fn any_below(dot: u8, value: i32, others: &[i32], worths: &[i32]) -> bool
    requires worths_len { length worths.now ≡ length others.now }
    requires value_bound { (nat_abs value ≤ most_filtered) × Small most_filtered others.now × Small most_worth worths.now }
    ensures { result ≡ false → SumsClear dot value others.now worths.now }
{
    let mut any = false;
    for k in 0..others.len() {
        if signed(dot, value - others[k]) + worths[k] < 0 {
            any = true;
        }
    }
    any
}

// whether a swap of m with one of the cells from `from` on, a worth for each, lowers the squared error
fn any_lower(dots: &[u8], table: &[i32], m: usize, from: usize, worths: &[i32]) -> bool
    requires { RunTest dots.now table.now worths.now m from }
    ensures { result ≡ false → RunClear dots.now table.now worths.now m from }
{
    for k in 0..worths.len() {
        if lower_swap(dots, table, m, from + k, worths[k]) {
            return true;
        }
    }
    false
}

// the same of a cell with that dot byte and that entry of the table, by the sums first: there is seldom one below 0
fn row_lowers(
    dot: u8,
    value: i32,
    dots: &[u8],
    table: &[i32],
    m: usize,
    from: usize,
    worths: &[i32],
) -> bool
    requires dot_value { (dot ≡ get_or dots.now m 0) × (value ≡ get_or table.now m (pos 0)) }
    requires run_test { RunTest dots.now table.now worths.now m from }
    ensures { result ≡ false → RunClear dots.now table.now worths.now m from }
{
    any_below(dot, value, &table[from..from + worths.len()], worths)
        && any_lower(dots, table, m, from, worths)
}

// Whether a partner within reach might lower the squared error. A row that is not whole in the table is not tested, and
// neighbours of the next row may be tested in its place: then it answers true.
pub fn may_lower(
    width: usize,
    height: usize,
    reach: usize,
    grid: &[i32],
    dots: &[u8],
    table: &[i32],
    at: Cell,
) -> bool
    requires row_lt_height { (at.row < height) × (at.col < width) × (width ≤ 256) × (height ≤ 256) × (reach ≤ 6) }
    requires tabled { Tabled dots.now table.now × (length dots.now ≡ height * width) }
    requires grid_len { (length grid.now ≡ grid_size reach) × Small most_worth grid.now }
    ensures { result ≡ false → RowsClear width height reach
        dots.now table.now grid.now at.row at.col }
{
    let side = row_length(reach);
    let m = index(width, at);
    let dot = dots[m];
    let value = table[m];
    for y in at.row.saturating_sub(reach)..height.min(at.row + reach + 1) {
        let place = y * width + at.col;
        // an `if`, since `checked_sub` costs more in this loop
        if place < reach || table.len() < place - reach + side {
            return true;
        }
        let from = place - reach;
        let first = (y + reach - at.row) * side;
        let worths = &grid[first..first + side];
        if row_lowers(dot, value, dots, table, m, from, worths) {
            return true;
        }
    }
    false
}
