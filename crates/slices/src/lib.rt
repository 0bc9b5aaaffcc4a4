// Leaves that many crates use: where a cell stands in a slice of cells and whether it is locked, and bytes summed and
// put into a slice.
#![tactic(auto)]

ghost use Rattle.std.specs.Prelude.{◌≡◌, ◌≤◌, ◌<◌, ◌+◌, length};
ghost use Rattle.model.specs.Error.{cell_at, most_cells};
ghost use Rattle.model.specs.Lock.{locked_gray};
ghost use Rattle.model.specs.Psf.{total};
ghost use Rattle.model.specs.Text.{Puts};

use model::Cell;

// the place of a cell in raster order
pub fn index(width: usize, at: Cell) -> usize
    requires { (at.row < 256) × (at.col < width) × (width ≤ 256) }
    ensures { result ≡ cell_at width at.row at.col }
{
    at.row * width + at.col
}

// whether a cell of that gray is locked: bare paper, or lettering
pub fn is_locked(gray: u8) -> bool
    ensures { result ≡ locked_gray gray }
{
    matches!(gray, 0 | 255)
}

// the sum of bytes, at most as many as the cells of the largest plate
pub fn sum(bytes: &[u8]) -> usize
    requires { length bytes.now ≤ most_cells }
    ensures { result ≡ total bytes.now }
{
    bytes.iter().map(|b| usize::from(*b)).sum()
}

// Puts bytes at a place, and answers the place after them.
pub fn put_bytes(out: &mut [u8], at: usize, bytes: &[u8]) -> usize
    requires { at + length bytes.now ≤ length out.old }
    ensures { Puts bytes.now out.old out.new at result }
{
    let end = at + bytes.len();
    out[at..end].copy_from_slice(bytes);
    end
}
