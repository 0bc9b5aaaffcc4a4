// The raster of a PBM or PGM file: dots packed eight to a byte and unpacked, gray negated.
#![tactic(auto)]

ghost use Rattle.std.specs.Prelude.{◌≡◌, ◌+◌, ◌*◌, ◌-◌, ◌≤◌, min, ltb, length, drop, get_or};
ghost use Rattle.std.proofs.lemmas.List.Edits.{sets};
ghost use Rattle.model.specs.Basic.{pick, tabulate, bit, AtMost};
ghost use Rattle.model.specs.Netpbm.{InSize, cells_in, row_bytes, packed_size, word_from, packed_byte, packed};
ghost use Rattle.model.specs.Netpbm.{bit_at, unpacked, negated};

use model::Size;

// how many bytes hold a row
pub fn row_bytes(width: usize) -> usize
    ensures { result ≡ row_bytes width }
{
    width.div_ceil(8)
}

// a cell of the row that goes on here, and 0 past its end
fn cell_or_spare(dots: &[u8], first: usize, left: usize, i: usize) -> u8
    requires { (first + left ≤ length dots.now) × AtMost 1 dots.now }
    ensures { (result ≡ pick (ltb i left) (get_or dots.now (first + i) 0) 0) × (result ≤ 1) }
{
    if i < left { dots[first + i] } else { 0 }
}

// the next byte of a row that goes on here: the first cell in the highest bit, 0 for each spare bit
fn pack_byte(dots: &[u8], first: usize, left: usize) -> u8
    requires { (first + left ≤ length dots.now) × AtMost 1 dots.now }
    ensures { result ≡ word_from 0 (tabulate 8 (λ i.
        pick (ltb i left) (get_or dots.now (first + i) 0) 0)) }
{
    let mut byte = 0;
    for i in 0..8 {
        byte = byte * 2 + cell_or_spare(dots, first, left, i);
    }
    byte
}

// a row, into an output from a place on
fn pack_row(dots: &[u8], row: usize, width: usize, out: &mut [u8], at: usize)
    requires width_bound { width ≤ 256 }
    requires width_in_bounds { (row * width + width ≤ length dots.now) × AtMost 1 dots.now }
    requires width_in_bounds_2 { at + row_bytes width ≤ length out.old }
    ensures { out.new
        ≡ sets out.old at (tabulate (row_bytes width) (packed_byte width dots.now row)) }
{
    let first = row * width;
    for j in 0..row_bytes(width) {
        out[at + j] = pack_byte(dots, first + 8 * j, width - 8 * j);
    }
}

// Packs dots into the front of an output.
pub fn pack_rows(size: Size, dots: &[u8], out: &mut [u8])
    requires in_size { InSize size }
    requires dots_len { (length dots.now ≡ cells_in size) × AtMost 1 dots.now }
    requires size_in_bounds { packed_size size ≤ length out.old }
    ensures { out.new ≡ sets out.old 0 (packed size dots.now) }
{
    let bytes = row_bytes(size.width);
    for row in 0..size.height {
        pack_row(dots, row, size.width, out, row * bytes);
    }
}

// the first cells of a byte, the highest bit first, into the dots from a place on
fn unpack_cells(byte: u8, cells: usize, dots: &mut [u8], at: usize)
    requires { (cells ≤ 8) × (at + cells ≤ length dots.old) }
    ensures { dots.new ≡ sets dots.old at (tabulate cells (λ i. bit (7 - i) byte)) }
{
    for i in 0..cells {
        dots[at + i] = (byte >> (7 - i)) % 2;
    }
}

// the cells of a byte of a row with so many cells left; a whole byte by a loop of fixed length, which is faster
fn unpack_byte(byte: u8, left: usize, dots: &mut [u8], at: usize)
    requires { at + min left 8 ≤ length dots.old }
    ensures { dots.new
        ≡ sets dots.old at (tabulate (min left 8) (λ i. bit (7 - i) byte)) }
{
    if left < 8 {
        unpack_cells(byte, left, dots, at);
    } else {
        unpack_cells(byte, 8, dots, at);
    }
}

// a row of a raster
fn unpack_row(raster: &[u8], row: usize, width: usize, dots: &mut [u8])
    requires width_bound { width ≤ 256 }
    requires width_in_bounds { row * row_bytes width + row_bytes width ≤ length raster.now }
    requires width_in_bounds_2 { row * width + width ≤ length dots.old }
    ensures { dots.new
        ≡ sets dots.old (row * width) (tabulate width (bit_at width raster.now row)) }
{
    let bytes = row_bytes(width);
    for j in 0..bytes {
        unpack_byte(
            raster[row * bytes + j],
            width - 8 * j,
            dots,
            row * width + 8 * j,
        );
    }
}

// Unpacks a raster to the front of the dots; not laid into its caller, so that its loops have the registers.
#[inline(never)]
pub fn unpack_rows(size: Size, raster: &[u8], dots: &mut [u8])
    requires in_size { InSize size }
    requires raster_len { length raster.now ≡ packed_size size }
    requires size_in_bounds { cells_in size ≤ length dots.old }
    ensures { dots.new ≡ sets dots.old 0 (unpacked size raster.now) }
{
    for row in 0..size.height {
        unpack_row(raster, row, size.width, dots);
    }
}

// Puts 255 less each byte into the front of an output.
pub fn negate(bytes: &[u8], out: &mut [u8])
    requires { length bytes.now ≤ length out.old }
    ensures { out.new ≡ sets out.old 0 (negated bytes.now) }
{
    for (i, byte) in bytes.iter().enumerate() {
        out[i] = 255 - *byte;
    }
}
