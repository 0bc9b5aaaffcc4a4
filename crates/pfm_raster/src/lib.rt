// The raster of a PFM: its samples looked through in file order, and its gray stored row by row.
#![tactic(auto)]

ghost use Rattle.std.specs.Prelude.{◌≡◌, ◌+◌, ◌*◌, ◌-◌, ◌≤◌, ◌<◌, length, MatchOption};
ghost use Rattle.std.proofs.lemmas.List.Edits.{sets};
ghost use Rattle.model.specs.Basic.{tabulate};
ghost use Rattle.model.specs.Error.{most_cells};
ghost use Rattle.model.specs.Netpbm.{InSize, cells_in};
ghost use Rattle.model.specs.Pfm.{sample_at, gray_of, first_no_shade, raster_gray};

use model::Size;
use pfm_samples::{gray_of, is_no_shade, word_at};

// The first of so many samples in file order that is no shade.
pub fn first_no_shade(little: bool, raster: &[u8], cells: usize) -> Option<usize>
    requires { (cells ≤ most_cells) × (4 * cells ≤ length raster.now) }
    ensures { MatchOption result
        (first_no_shade little raster.now 0 cells ≡ cells)
        (λ i. (i < cells) × (i ≡ first_no_shade little raster.now 0 cells)) }
{
    (0..cells).find(|&i| is_no_shade(word_at(little, raster, 4 * i)))
}

// the gray of a row of samples, into gray from a place on
fn store_row(little: bool, raster: &[u8], first: usize, width: usize, gray: &mut [u8], to: usize)
    requires { (4 * (first + width) ≤ length raster.now) × (to + width ≤ length gray.old) }
    ensures { gray.new
        ≡ sets gray.old to (tabulate width (λ x. gray_of (sample_at little raster.now (first + x)))) }
{
    for x in 0..width {
        gray[to + x] = gray_of(word_at(little, raster, 4 * (first + x)));
    }
}

// which row of the file a row is, counted from the top: the lowest comes first
fn file_row(size: Size, row: usize) -> usize
    requires { row < size.height }
    ensures { result ≡ size.height - 1 - row }
{
    size.height - 1 - row
}

// Stores the gray of a raster to the front of gray.
pub fn store_rows(size: Size, little: bool, raster: &[u8], gray: &mut [u8])
    requires { InSize size × (4 * cells_in size ≤ length raster.now) × (cells_in size ≤ length gray.old) }
    ensures { gray.new ≡ sets gray.old 0 (raster_gray size little raster.now) }
{
    let width = size.width;
    for row in 0..size.height {
        store_row(
            little,
            raster,
            file_row(size, row) * width,
            width,
            gray,
            row * width,
        );
    }
}
