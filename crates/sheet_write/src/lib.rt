// Writing the lines of a sheet into an output that is long enough, and how long they are.
#![tactic(auto)]

ghost use Rattle.std.specs.Prelude.{[], ◌∷◌, ◌++◌, ◌≡◌, ◌+◌, ◌≤◌, length};
ghost use Rattle.model.specs.Error.{most_cells};
ghost use Rattle.model.specs.Text.{digits, Puts};
ghost use Rattle.model.specs.Sheet.{row, head_text, sheet_text, InRange, Shaped, grid_text, grid_length};
ghost use Rattle.model.specs.SheetCalls.{with_given, written_sheet};

use model::{Measures, Setting};
use sheet_fields::end_of;
use slices::put_bytes;
use text_decimal::{digit_count, put_number};

// a number and the byte that ends it
pub fn put_field(out: &mut [u8], at: usize, n: usize, end: u8) -> usize
    requires { at + (length (digits n) + 1) ≤ length out.old }
    ensures { Puts (digits n ++ (end ∷ [])) out.old out.new at result }
{
    let next = put_number(out, at, n);
    out[next] = end;
    next + 1
}

// Puts values in a row.
pub fn put_row(out: &mut [u8], at: usize, values: &[usize]) -> usize
    requires { (1 ≤ length values.now) × (at + length (row values.now) ≤ length out.old) }
    ensures { Puts (row values.now) out.old out.new at result }
{
    let last = values.len() - 1;
    let mut next = at;
    for value in &values[..last] {
        next = put_field(out, next, *value, b' ');
    }
    put_field(out, next, values[last], b'\n')
}

// values in rows of w
fn put_grid(out: &mut [u8], at: usize, values: &[u8], w: usize) -> usize
    requires le_w { (1 ≤ w) × (length values.now ≤ most_cells) }
    requires values_in_bounds { at + length (grid_text w 0 values.now) ≤ length out.old }
    ensures { Puts (grid_text w 0 values.now) out.old out.new at result }
{
    let mut next = at;
    for (i, value) in values.iter().enumerate() {
        next = put_field(out, next, usize::from(*value), end_of(w, i));
    }
    next
}

// a name and its rows
fn put_block(out: &mut [u8], at: usize, name: &[u8], values: &[u8], w: usize) -> usize
    requires le_w { (1 ≤ w) × (length values.now ≤ most_cells) }
    requires values_in_bounds { at + length (name.now ++ grid_text w 0 values.now) ≤ length out.old }
    ensures { Puts (name.now ++ grid_text w 0 values.now)
        out.old out.new at result }
{
    let next = put_bytes(out, at, name);
    put_grid(out, next, values, w)
}

// how long rows of values are
fn grid_length(values: &[u8]) -> usize
    requires { length values.now ≤ most_cells }
    ensures { (result ≡ grid_length values.now) × (result ≤ 262144) }
{
    values
        .iter()
        .map(|value| digit_count(usize::from(*value)) + 1)
        .sum()
}

// lines 1 and 2, with start 2
fn put_head(out: &mut [u8], m: Measures) -> usize
    requires { length (head_text (with_given m)) ≤ length out.old }
    ensures { Puts (head_text (with_given m)) out.old out.new 0 result }
{
    let line = put_bytes(out, 0, b"width height radius reach start\n");
    let values = [m.width, m.height, m.radius, m.reach, 2];
    put_row(out, line, &values)
}

// how long lines 1 and 2 are
fn head_length(m: Measures) -> usize
    requires { InRange m }
    ensures { (result ≡ length (head_text (with_given m))) × (result ≤ 52) }
{
    let width = digit_count(m.width) + 1;
    let height = digit_count(m.height) + 1;
    let radius = digit_count(m.radius) + 1;
    let reach = digit_count(m.reach) + 1;
    32 + width + height + radius + reach + 2
}

// How long a sheet is.
pub fn sheet_length(setting: Setting, dots: &[u8]) -> usize
    requires { InRange setting.measures × Shaped (written_sheet setting.measures setting.psf.now setting.gray.now dots.now) }
    ensures { let s = setting.entry in
        result ≡ length (sheet_text (written_sheet s.measures s.psf.now s.gray.now dots.now)) }
{
    let head = head_length(setting.measures);
    let psf = 4 + grid_length(setting.psf);
    let gray = 5 + grid_length(setting.gray);
    head + psf + gray + 5 + grid_length(dots)
}

// Puts a sheet at the front of an output that is long enough, and answers its length.
pub fn put_sheet(out: &mut [u8], setting: Setting, dots: &[u8]) -> usize
    requires in_range { InRange setting.measures × Shaped (written_sheet setting.measures setting.psf.now setting.gray.now dots.now) }
    requires dots_in_bounds { length (sheet_text (written_sheet setting.measures setting.psf.now setting.gray.now dots.now)) ≤ length out.old }
    ensures { let s = setting.entry in
        Puts (sheet_text (written_sheet s.measures s.psf.now s.gray.now dots.now)) out.old out.new 0 result }
{
    let Setting {
        measures,
        psf,
        gray,
    } = setting;
    let head = put_head(out, measures);
    let under_psf = put_block(out, head, b"psf\n", psf, 2 * measures.radius + 1);
    let under_gray = put_block(out, under_psf, b"gray\n", gray, measures.width);
    put_block(out, under_gray, b"dots\n", dots, measures.width)
}
