// The two passes that build a table over whole rows: the errors spread by the psf over the plate widened by r on each
// side, and that gathered by the psf at each cell.
#![tactic(auto)]

ghost use Rattle.std.specs.Prelude.{◌≡◌, ℕ, ◌+◌, ◌*◌, ◌<◌, ◌≤◌, length};
ghost use Rattle.model.specs.Error.{most_filtered};
ghost use Rattle.model.specs.Refusal.{PsfFits};
ghost use Rattle.invariants.specs.Window.{Small, Scaled};
ghost use Rattle.filter_passes.specs.Passes.{Added, Lies, most_spread, cells_around, corner_of};
ghost use Rattle.filter_passes.specs.Passes.{passed, spread, gathered};

use filter_window::add_run;

// How a plate lies in a slice: its rows are `span` apart; with `moves` 1 an entry of the psf moves it by that entry's row
// and column, with 0 it stays.
#[derive(Clone, Copy)]
struct Frame {
    span: usize,
    moves: usize,
}

// Rows of n entries of c, times the amount, are added to the table: row y from `from + y × span` on in c, and from
// `at + y × stride` on in the table.
fn add_rows(
    table: &mut [i32],
    at: usize,
    stride: usize,
    c: &[i32],
    from: usize,
    span: usize,
    n: usize,
    rows: usize,
    amount: i32,
)
    requires n_le_stride { n ≤ stride }
    requires by_index { (y : ℕ) → y < rows → at + y * stride + n ≤ length table.old }
    requires by_index_2 { (y : ℕ) → y < rows → from + y * span + n ≤ length c.now }
    requires small { Small most_filtered table.old × Scaled most_filtered amount c.now }
    ensures { Added at stride c.now from span n rows amount
        table.old table.new }
{
    for y in 0..rows {
        add_run(table, at + y * stride, c, from + y * span, n, amount);
    }
}

// where the block of entry k of the psf begins
fn corner(radius: usize, f: Frame, k: usize) -> usize
    requires { (radius ≤ 3) × (f.span ≤ 262) × (f.moves ≤ 1) × (k < (2 * radius + 1) * (2 * radius + 1)) }
    ensures { result ≡ corner_of radius f k }
{
    let side = 2 * radius + 1;
    k / side * f.moves * f.span + k % side * f.moves
}

// One pass: for each entry of the psf a block of the plate's size is taken from c and, times that entry, added to the
// output, where both lie in their frames.
fn pass(
    width: usize,
    height: usize,
    radius: usize,
    psf: &[u8],
    from: Frame,
    to: Frame,
    c: &[i32],
    out: &mut [i32],
)
    requires width_nonzero { (0 < width) × PsfFits radius psf.now × Small most_spread c.now }
    requires lies { Lies width height radius from (length c.now) × Lies width height radius to (length out.old) }
    ensures { out.new ≡ passed width height radius psf.now from to
        c.now (length out.old) }
{
    out.fill(0);
    for (k, p) in psf.iter().enumerate() {
        let at = corner(radius, to, k);
        let there = corner(radius, from, k);
        let amount = i32::from(*p);
        add_rows(out, at, to.span, c, there, from.span, width, height, amount);
    }
}

// The first pass: the errors, moved by each entry of the psf and times that entry, over the widened plate.
pub fn spread(width: usize, height: usize, radius: usize, psf: &[u8], e: &[i32], out: &mut [i32])
    requires width_nonzero { (0 < width) × (width ≤ 256) × PsfFits radius psf.now × Small 255 e.now }
    requires e_len { (length e.now ≡ height * width) × (length out.old ≡ cells_around width height radius) }
    ensures { out.new ≡ spread width height radius psf.now e.now }
{
    let plate = Frame {
        span: width,
        moves: 0,
    };
    let around = Frame {
        span: width + 2 * radius,
        moves: 1,
    };
    pass(width, height, radius, psf, plate, around, e, out);
}

// The second pass: at each cell, what stands around it in the widened plate, times the entries of the psf.
pub fn gather(width: usize, height: usize, radius: usize, psf: &[u8], g: &[i32], out: &mut [i32])
    requires width_nonzero { (0 < width) × (width ≤ 256) × PsfFits radius psf.now × Small most_spread g.now }
    requires g_len { (length g.now ≡ cells_around width height radius) × (length out.old ≡ height * width) }
    ensures { out.new ≡ gathered width height radius psf.now g.now }
{
    let plate = Frame {
        span: width,
        moves: 0,
    };
    let around = Frame {
        span: width + 2 * radius,
        moves: 1,
    };
    pass(width, height, radius, psf, around, plate, g, out);
}
