// The table of a judged plate, by two passes over whole rows, and the squared error by one pass over the table.
#![tactic(auto)]

ghost use Rattle.std.specs.Prelude.{◌≡◌, ◌<◌, ◌≤◌, nat_abs, length, get_or};
ghost use Rattle.model.specs.Error.{error_of, target_of, most_cells, most_filtered, filtered_errors, squared_error};
ghost use Rattle.model.specs.Refusal.{HalftoneFits};
ghost use Rattle.invariants.specs.Window.{Small};
ghost use Rattle.filter_sums.specs.Sums.{SameCells, errors_of, weighed};

use filter_passes::{gather, spread};

// the most cells of a plate widened by r on each side: 262²
const MOST_WIDENED: usize = 68644;

// the error of a cell: 255 for a dot, less the gray
fn error_at(gray: &[u8], dots: &[u8], n: usize) -> i32
    requires { (n < length gray.now) × (n < length dots.now) × (get_or dots.now n 0 ≤ 1) }
    ensures { (result ≡ error_of 255 gray.now dots.now n) × (nat_abs result ≤ 255) }
{
    255 * i32::from(dots[n]) - i32::from(gray[n])
}

// the error of each cell
fn errors(gray: &[u8], dots: &[u8], out: &mut [i32])
    requires { SameCells gray.now dots.now (length out.old) }
    ensures { out.new ≡ errors_of gray.now dots.now }
{
    for n in 0..out.len() {
        out[n] = error_at(gray, dots, n);
    }
}

// Σ e(m) × T(m) over the cells, the T(m) being in the table
fn weigh(gray: &[u8], dots: &[u8], table: &[i32]) -> i64
    requires { SameCells gray.now dots.now (length table.now) × Small most_filtered table.now }
    ensures { result ≡ weighed gray.now dots.now table.now }
{
    let mut sum: i64 = 0;
    for m in 0..table.len() {
        sum += i64::from(error_at(gray, dots, m)) * i64::from(table[m]);
    }
    sum
}

// the table of a judged plate
pub fn filter(
    width: usize,
    height: usize,
    radius: usize,
    psf: &[u8],
    gray: &[u8],
    dots: &[u8],
    table: &mut [i32],
)
    requires { HalftoneFits (target_of width height radius psf.now gray.now) dots.now (length table.old) }
    ensures { let t = target_of width height radius psf.now gray.now in
        table.new ≡ filtered_errors t dots.now }
{
    let mut room = [0i32; MOST_WIDENED];
    let around = &mut room[..(height + 2 * radius) * (width + 2 * radius)];
    errors(gray, dots, table);
    spread(width, height, radius, psf, table, around);
    gather(width, height, radius, psf, around, table);
}

// the table of a judged plate, and its squared error by one pass over the table
pub fn filter_and_square(
    width: usize,
    height: usize,
    radius: usize,
    psf: &[u8],
    gray: &[u8],
    dots: &[u8],
    table: &mut [i32],
) -> i64
    requires { HalftoneFits (target_of width height radius psf.now gray.now) dots.now (length table.old) }
    ensures { let t = target_of width height radius psf.now gray.now in
        (table.new ≡ filtered_errors t dots.now) × (result ≡ squared_error t dots.now) }
{
    filter(width, height, radius, psf, gray, dots, table);
    weigh(gray, dots, table)
}

// the squared error of a judged plate, whose table is worked out in `scratch`
pub fn square(
    width: usize,
    height: usize,
    radius: usize,
    psf: &[u8],
    gray: &[u8],
    dots: &[u8],
    scratch: &mut [i32],
) -> i64
    requires { HalftoneFits (target_of width height radius psf.now gray.now) dots.now (length gray.now)
        × (most_cells ≤ length scratch.old) }
    ensures { result ≡ squared_error
        (target_of width height radius psf.now gray.now) dots.now }
{
    let table = &mut scratch[..gray.len()];
    filter_and_square(width, height, radius, psf, gray, dots, table)
}
