// The dots of each row of a packed raster, eight cells together.
#![tactic(auto)]

ghost use Rattle.std.specs.Prelude.{◌≡◌, ◌+◌, ◌*◌, ◌-◌, ◌≤◌, min, length};
ghost use Rattle.model.specs.Basic.{tabulate, bit};
ghost use Rattle.model.specs.Psf.{total};
ghost use Rattle.model.specs.Netpbm.{InSize, row_bytes, packed_size, bit_at, row_counts};

use model::Size;
use picture_raster::row_bytes;

// the dots of a byte of a row with so many cells left: all eight together, and the spare bits shifted out
fn count_byte(byte: u8, left: usize) -> u32
    requires { 1 ≤ left }
    ensures { (result ≡ total (tabulate (min left 8) (λ i. bit (7 - i) byte))) × (result ≤ 8) }
{
    if 8 <= left {
        byte.count_ones()
    } else {
        (byte >> (8 - left)).count_ones()
    }
}

// the dots of a row
fn count_row(raster: &[u8], row: usize, width: usize) -> u32
    requires width_bound { width ≤ 256 }
    requires width_in_bounds { row * row_bytes width + row_bytes width ≤ length raster.now }
    ensures { result ≡ total (tabulate width (bit_at width raster.now row)) }
{
    let bytes = row_bytes(width);
    let mut count = 0;
    for j in 0..bytes {
        count += count_byte(raster[row * bytes + j], width - 8 * j);
    }
    count
}

// Counts the dots of each row of a raster.
pub fn count_packed(size: Size, raster: &[u8], counts: &mut [u32])
    requires in_size { InSize size }
    requires raster_len { (length raster.now ≡ packed_size size) × (length counts.old ≡ size.height) }
    ensures { counts.new ≡ row_counts size raster.now }
{
    for (row, count) in counts.iter_mut().enumerate() {
        *count = count_row(raster, row, size.width);
    }
}
