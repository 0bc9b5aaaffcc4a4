// What a start begins with: dots of one of the three kinds, by document 01's 16 by 16 Bayer array of thresholds where they
// are ordered, and a fresh ledger.
#![tactic(auto)]

ghost use Rattle.std.specs.Prelude.{◌≡◌, ◌*◌, ◌<◌, ◌≤◌, length};
ghost use Rattle.model.specs.Basic.{pick, tabulate};
ghost use Rattle.model.specs.Error.{Target, squared_error, most_cells};
ghost use Rattle.model.specs.Ledger.{fresh_stats};
ghost use Rattle.model.specs.Lock.{locked_gray, locked_byte};
ghost use Rattle.model.specs.Screen.{thresholds, threshold_at, blank, screened, ordered, start_dots};

use model::{Figures, Setting, Stats};
use slices::sum;

// the thresholds, row by row
const THRESHOLDS: [u8; 256] = *b"\
    \x00\x80\x20\xa0\x08\x88\x28\xa8\x02\x82\x22\xa2\x0a\x8a\x2a\xaa\
    \xc0\x40\xe0\x60\xc8\x48\xe8\x68\xc2\x42\xe2\x62\xca\x4a\xea\x6a\
    \x30\xb0\x10\x90\x38\xb8\x18\x98\x32\xb2\x12\x92\x3a\xba\x1a\x9a\
    \xf0\x70\xd0\x50\xf8\x78\xd8\x58\xf2\x72\xd2\x52\xfa\x7a\xda\x5a\
    \x0c\x8c\x2c\xac\x04\x84\x24\xa4\x0e\x8e\x2e\xae\x06\x86\x26\xa6\
    \xcc\x4c\xec\x6c\xc4\x44\xe4\x64\xce\x4e\xee\x6e\xc6\x46\xe6\x66\
    \x3c\xbc\x1c\x9c\x34\xb4\x14\x94\x3e\xbe\x1e\x9e\x36\xb6\x16\x96\
    \xfc\x7c\xdc\x5c\xf4\x74\xd4\x54\xfe\x7e\xde\x5e\xf6\x76\xd6\x56\
    \x03\x83\x23\xa3\x0b\x8b\x2b\xab\x01\x81\x21\xa1\x09\x89\x29\xa9\
    \xc3\x43\xe3\x63\xcb\x4b\xeb\x6b\xc1\x41\xe1\x61\xc9\x49\xe9\x69\
    \x33\xb3\x13\x93\x3b\xbb\x1b\x9b\x31\xb1\x11\x91\x39\xb9\x19\x99\
    \xf3\x73\xd3\x53\xfb\x7b\xdb\x5b\xf1\x71\xd1\x51\xf9\x79\xd9\x59\
    \x0f\x8f\x2f\xaf\x07\x87\x27\xa7\x0d\x8d\x2d\xad\x05\x85\x25\xa5\
    \xcf\x4f\xef\x6f\xc7\x47\xe7\x67\xcd\x4d\xed\x6d\xc5\x45\xe5\x65\
    \x3f\xbf\x1f\x9f\x37\xb7\x17\x97\x3d\xbd\x1d\x9d\x35\xb5\x15\x95\
    \xff\x7f\xdf\x5f\xf7\x77\xd7\x57\xfd\x7d\xdd\x5d\xf5\x75\xd5\x55\
    ";

// the threshold at a row and a column, both taken modulo 16
fn threshold(array: &[u8], row: usize, col: usize) -> u8
    requires { array.now ≡ thresholds }
    ensures { result ≡ threshold_at row col }
{
    array[row % 16 * 16 + col % 16]
}

// a dot exactly where 256 × gray > 255 × threshold
fn screen(gray: u8, threshold: u8) -> u8
    ensures { result ≡ screened gray threshold }
{
    u8::from(256 * u32::from(gray) > 255 * u32::from(threshold))
}

// by the thresholds: cell n stands at (row, col)
fn order(array: &[u8], width: usize, gray: &[u8], dots: &mut [u8])
    requires array_value { array.now ≡ thresholds }
    requires width_nonzero { (0 < width) × (length dots.old ≡ length gray.now) }
    ensures { dots.new ≡ tabulate (length gray.now) (ordered width gray.now) }
{
    let mut row = 0;
    let mut col = 0;
    for n in 0..gray.len() {
        dots[n] = screen(gray[n], threshold(array, row, col));
        col += 1;
        if col == width {
            col = 0;
            row += 1;
        }
    }
}

// the dot of a cell of that gray where all is blank that is not locked
fn blank_dot(gray: u8) -> u8
    ensures { result ≡ pick (locked_gray gray) (locked_byte 1 gray) 0 }
{
    u8::from(gray == 255)
}

// all blank that is not locked
fn blank_dots(gray: &[u8], dots: &mut [u8])
    requires { length dots.old ≡ length gray.now }
    ensures { dots.new ≡ tabulate (length gray.now) (blank gray.now) }
{
    for n in 0..gray.len() {
        dots[n] = blank_dot(gray[n]);
    }
}

// The dots of a start of judged measures. The kind is a number, since calls are handed any and refuse it with 4.
pub fn start_dots(setting: Setting, dots: &mut [u8])
    requires width_nonzero { 0 < setting.measures.width }
    requires gray_len { (length setting.gray.now ≡ setting.measures.height * setting.measures.width)
        × (length dots.old ≡ setting.measures.height * setting.measures.width) }
    ensures { dots.new ≡ start_dots setting.entry.measures setting.entry.gray.now dots.old }
{
    match setting.measures.start {
        0 => blank_dots(setting.gray, dots),
        1 => order(&THRESHOLDS, setting.measures.width, setting.gray, dots),
        _ => {}
    }
}

// The fresh ledger of dots with that squared error
pub fn fresh(dots: &[u8], squared: i64) -> Stats
    requires { length dots.now ≤ most_cells }
    ensures { (t : Target) → squared ≡ squared_error t dots.now → result ≡ fresh_stats t dots.now }
{
    let count = sum(dots);
    Stats {
        error: squared,
        figures: Figures {
            start_error: squared,
            start_dots: count as u64,
            on: 0,
            off: 0,
            swaps: 0,
        },
    }
}
