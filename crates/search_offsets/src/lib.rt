// The offsets of the partners in a swap scan: a table of the 168 within the greatest reach, farthest first, and those of
// them that are within a given reach.
#![tactic(auto)]

ghost use Rattle.std.specs.Prelude.{◌≡◌, ◌≤◌, ◌<◌, length, take};
ghost use Rattle.invariants.specs.Partners.{HoldsOffsets, row_of, column_of};
ghost use Rattle.search_offsets.specs.Codes.{near, within, kept};

use model::Cell;

// the 168 offsets in document 01's order, a line for each sum of squares: the two digits of a byte are the row and the
// column, each with 6 added
const OFFSETS: [u8; 168] = *b"\
    \x00\x0c\xc0\xcc\
    \x01\x0b\x10\x1c\xb0\xbc\xc1\xcb\
    \x02\x0a\x20\x2c\xa0\xac\xc2\xca\
    \x11\x1b\xb1\xbb\
    \x03\x09\x30\x3c\x90\x9c\xc3\xc9\
    \x12\x1a\x21\x2b\xa1\xab\xb2\xba\
    \x04\x08\x40\x4c\x80\x8c\xc4\xc8\
    \x05\x07\x50\x5c\x70\x7c\xc5\xc7\
    \x06\x60\x6c\xc6\
    \x13\x19\x31\x3b\x91\x9b\xb3\xb9\
    \x22\x2a\xa2\xaa\
    \x14\x18\x41\x4b\x81\x8b\xb4\xb8\
    \x15\x17\x51\x5b\x71\x7b\xb5\xb7\
    \x16\x23\x29\x32\x3a\x61\x6b\x92\x9a\xa3\xa9\xb6\
    \x24\x28\x42\x4a\x82\x8a\xa4\xa8\
    \x33\x39\x93\x99\
    \x25\x27\x52\x5a\x72\x7a\xa5\xa7\
    \x26\x62\x6a\xa6\
    \x34\x38\x43\x49\x83\x89\x94\x98\
    \x35\x37\x53\x59\x73\x79\x95\x97\
    \x36\x63\x69\x96\
    \x44\x48\x84\x88\
    \x45\x47\x54\x58\x74\x78\x85\x87\
    \x46\x64\x68\x86\
    \x55\x57\x75\x77\
    \x56\x65\x67\x76\
    ";

// the two digits of a code: the row and the column of its offset, each with 6 added
pub fn digits(code: u8) -> Cell
    ensures digits_are { (result.row ≡ row_of code) × (result.col ≡ column_of code) }
    ensures digits_small { (result.row < 16) × (result.col < 16) }
{
    Cell {
        row: usize::from(code / 16),
        col: usize::from(code % 16),
    }
}

// whether a coordinate, 6 added, is within reach
fn is_near(reach: usize, coordinate: usize) -> bool
    ensures { result ≡ near reach coordinate }
{
    coordinate.abs_diff(6) <= reach
}

// whether both coordinates are
fn is_within(reach: usize, code: u8) -> bool
    ensures { result ≡ within reach code }
{
    let offset = digits(code);
    is_near(reach, offset.row) && is_near(reach, offset.col)
}

// the codes within reach, in their order, at the front of `out`; and how many they are
fn keep(codes: &[u8], reach: usize, out: &mut [u8]) -> usize
    requires { length codes.now ≤ length out.old }
    ensures { (result ≤ length out.new) × (take result out.new ≡ kept reach codes.now) }
{
    let mut count = 0;
    for code in codes {
        if is_within(reach, *code) {
            out[count] = *code;
            count += 1;
        }
    }
    count
}

// the offsets within reach, farthest first, at the front of `out`; and how many they are
pub fn within_reach(reach: usize, out: &mut [u8]) -> usize
    requires { (reach ≤ 6) × (168 ≤ length out.old) }
    ensures holds_offsets { HoldsOffsets reach (take result out.new) }
    ensures upper_bound { (result ≤ length out.new) × (result ≡ length (take result out.new)) }
{
    keep(&OFFSETS, reach, out)
}
