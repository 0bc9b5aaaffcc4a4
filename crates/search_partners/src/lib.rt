// The cells of a scan, one after the other in raster order, and the partners of a cell: what those within reach are worth,
// and the cells where they lead.
#![tactic(auto)]

ghost use Rattle.std.specs.Prelude.{true, false, ◌≡◌, suc, ◌+◌, ◌<◌, ◌≤◌, ◌⊎◌, length, MatchOption};
ghost use Rattle.model.specs.Partners.{lands, partner};
ghost use Rattle.invariants.specs.Partners.{HoldsWorths, offset_of};
ghost use Rattle.invariants.specs.Plate.{cell_of};
ghost use Rattle.invariants.specs.Window.{HoldsSquare};

use model::Cell;
use search_change::{between, peak};
use search_offsets::digits;
use slices::index;

// the cell n further on in raster order, where the row has so many left
pub fn ahead(width: usize, at: Cell, n: usize) -> Cell
    requires { (at.row < 256) × (at.col < width) × (width ≤ 256) × (at.col + n ≤ width) }
    ensures { (cell_of width result ≡ cell_of width at + n) × (result.col < width) }
{
    if at.col + n == width {
        return Cell {
            row: at.row + 1,
            col: 0,
        };
    }
    Cell {
        row: at.row,
        col: at.col + n,
    }
}

// the next cell in raster order
pub fn next(width: usize, at: Cell) -> Cell
    requires { (at.row < 256) × (at.col < width) × (width ≤ 256) }
    ensures { (cell_of width result ≡ suc (cell_of width at)) × (result.col < width) }
{
    ahead(width, at, 1)
}

// what 255 × (P - c(d)) is for each offset d, given by its code
pub fn weigh_offsets(radius: usize, c: &[i32], codes: &[u8], worths: &mut [i32])
    requires { HoldsSquare radius c.now × (length worths.old ≡ length codes.now) }
    ensures { HoldsWorths radius c.now codes.now worths.new }
{
    let top = peak(radius, c);
    let middle = Cell { row: 6, col: 6 };
    for (k, code) in codes.iter().enumerate() {
        worths[k] = 255 * (top - between(radius, c, middle, digits(*code)));
    }
}

// a row or a column moved by an offset, which has 6 added, where that is on the plate; below 0 it wraps and is past the end
fn moved(from: usize, by: usize, limit: usize) -> Option<usize>
    requires { (from < limit) × (limit ≤ 256) × (by < 16) }
    ensures { MatchOption result ((from + by < 6) ⊎ (limit + 6 ≤ from + by))
        (λ to. (to < limit) × (to + 6 ≡ from + by)) }
{
    let to = (from + by).wrapping_sub(6);
    if to < limit { Some(to) } else { None }
}

// the cell at the offset of that code, where it is on the plate
pub fn partner_cell(width: usize, height: usize, at: Cell, code: u8) -> Option<usize>
    requires { (at.row < height) × (at.col < width) × (width ≤ 256) × (height ≤ 256) }
    ensures { let m = cell_of width at in
        let o = offset_of code in
        MatchOption result (lands width height m o ≡ false)
        (λ n. (lands width height m o ≡ true) × (n ≡ partner width m o)) }
{
    let offset = digits(code);
    let row = moved(at.row, offset.row, height)?;
    let col = moved(at.col, offset.col, width)?;
    Some(index(width, Cell { row, col }))
}
