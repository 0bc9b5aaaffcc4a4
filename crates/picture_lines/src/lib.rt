// The lines above the raster of a PBM or PGM file that is written, and how long the whole file is.
#![tactic(auto)]

ghost use Rattle.std.specs.Prelude.{◌≡◌, ◌+◌, ◌++◌, ◌*◌, ◌≤◌, length};
ghost use Rattle.model.specs.Text.{Puts};
ghost use Rattle.model.specs.Netpbm.{InSize, size_line, pbm_head, pgm_head, packed_size, cells_in};

use model::Size;
use sheet_write::put_row;
use slices::put_bytes;
use text_decimal::digit_count;

// the lines of the magic number and of width and height; laid into its callers, which so need less stack
#[inline(always)]
fn put_lines(out: &mut [u8], magic: &[u8], size: Size) -> usize
    requires { length (magic.now ++ size_line size) ≤ length out.old }
    ensures { Puts (magic.now ++ size_line size) out.old out.new 0 result }
{
    let line = put_bytes(out, 0, magic);
    put_row(out, line, &[size.width, size.height])
}

// Puts the lines of a PBM at the front of an output that is long enough, and answers the place after them.
pub fn put_pbm_head(out: &mut [u8], size: Size) -> usize
    requires { length (pbm_head size) ≤ length out.old }
    ensures { Puts (pbm_head size) out.old out.new 0 result }
{
    put_lines(out, b"P4\n", size)
}

// Puts the lines of a PGM at the front of an output that is long enough, and answers the place after them.
pub fn put_pgm_head(out: &mut [u8], size: Size) -> usize
    requires { length (pgm_head size) ≤ length out.old }
    ensures { Puts (pgm_head size) out.old out.new 0 result }
{
    let next = put_lines(out, b"P5\n", size);
    put_bytes(out, next, b"255\n")
}

// how long the line of the size is
fn size_length(size: Size) -> usize
    requires { InSize size }
    ensures { (result ≡ length (size_line size)) × (result ≤ 8) }
{
    digit_count(size.width) + digit_count(size.height) + 2
}

// How long a PBM is.
pub fn pbm_length(size: Size) -> usize
    requires { InSize size }
    ensures { result ≡ length (pbm_head size) + packed_size size }
{
    3 + size_length(size) + size.height * size.width.div_ceil(8)
}

// How long a PGM is.
pub fn pgm_length(size: Size) -> usize
    requires { InSize size }
    ensures { result ≡ length (pgm_head size) + cells_in size }
{
    7 + size_length(size) + size.height * size.width
}
