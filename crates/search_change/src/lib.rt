// One change of a halftone: what a toggle and a swap would add to the squared error, decided by the table in a few
// operations.
#![tactic(auto)]

ghost use Rattle.std.specs.Prelude.{◌≡◌, ◌+◌, ◌*◌, ◌<◌, ◌≤◌, pos, nat_abs, ◌+ℤ◌, ◌-ℤ◌, ◌*ℤ◌, length, get_or};
ghost use Rattle.std.specs.Int.Signed.{lt_z};
ghost use Rattle.model.specs.Basic.{square_at};
ghost use Rattle.model.specs.Change.{sign_of, sign, toggle_sum, swap_sum};
ghost use Rattle.invariants.specs.Plate.{most_change};
ghost use Rattle.invariants.specs.Trials.{lowers_by, takes_by};
ghost use Rattle.invariants.specs.Window.{Small, HoldsSquare, most_kernel, most_worth};
ghost use Rattle.model.specs.Error.{most_filtered};

use model::Cell;
use slices::is_locked;

// a value times s of a cell whose dot byte is `dot`
pub fn signed(dot: u8, value: i32) -> i32
    requires { nat_abs value ≤ 2 * most_filtered }
    ensures value { result ≡ sign_of dot *ℤ value }
    ensures result_value { nat_abs result ≡ nat_abs value }
{
    if dot == 0 { value } else { -value }
}

// 2 × s(m) × T(m) + 255 × P
fn toggle_sum(peak: i32, dots: &[u8], table: &[i32], m: usize) -> i32
    requires m_in_bounds { (m < length dots.now) × (m < length table.now) }
    requires peak_bound { (nat_abs peak ≤ most_kernel) × Small most_filtered table.now }
    ensures value { result ≡ pos 2 *ℤ sign dots.now m *ℤ get_or table.now m (pos 0) +ℤ pos 255 *ℤ peak }
    ensures result_bound { nat_abs result ≤ 3 * most_filtered }
{
    2 * signed(dots[m], table[m]) + 255 * peak
}

// what a toggle of the cell m adds: 255 times that
pub fn toggle_change(peak: i32, dots: &[u8], table: &[i32], m: usize) -> i64
    requires m_in_bounds { (m < length dots.now) × (m < length table.now) }
    requires peak_bound { (nat_abs peak ≤ most_kernel) × Small most_filtered table.now }
    ensures value { result ≡ toggle_sum 255 peak (sign dots.now m) (get_or table.now m (pos 0)) }
    ensures result_bound { nat_abs result ≤ most_change }
{
    255 * i64::from(toggle_sum(peak, dots, table, m))
}

// whether it lowers the squared error
pub fn lower_toggle(peak: i32, dots: &[u8], table: &[i32], m: usize) -> bool
    requires m_in_bounds { (m < length dots.now) × (m < length table.now) }
    requires peak_bound { (nat_abs peak ≤ most_kernel) × Small most_filtered table.now }
    ensures { result ≡ lt_z (toggle_sum 255 peak (sign dots.now m) (get_or table.now m (pos 0)))
        (pos 0) }
{
    toggle_sum(peak, dots, table, m) < 0
}

// c at the offset from one cell back to another, 0 past 2r
pub fn between(radius: usize, c: &[i32], at: Cell, to: Cell) -> i32
    requires holds_square { HoldsSquare radius c.now }
    requires row_bound { (at.row < 256) × (at.col < 256) × (to.row < 256) × (to.col < 256) }
    ensures { result ≡ square_at (pos 0) (2 * radius) c.now
        (pos at.row -ℤ pos to.row) (pos at.col -ℤ pos to.col) }
{
    let side = 4 * radius + 1;
    let bottom = at.row + 2 * radius;
    let right = at.col + 2 * radius;
    if bottom < to.row || right < to.col {
        return 0;
    }
    let y = bottom - to.row;
    let x = right - to.col;
    if side <= y || side <= x {
        return 0;
    }
    c[y * side + x]
}

// P: c at the offset (0, 0)
pub fn peak(radius: usize, c: &[i32]) -> i32
    requires { HoldsSquare radius c.now }
    ensures { result ≡ square_at (pos 0) (2 * radius) c.now (pos 0) (pos 0) }
{
    let corner = Cell { row: 0, col: 0 };
    between(radius, c, corner, corner)
}

// s(m) × (T(m) - T(n))
pub fn difference(dots: &[u8], table: &[i32], m: usize, n: usize) -> i32
    requires m_in_bounds { (m < length dots.now) × (m < length table.now) × (n < length table.now) }
    requires small { Small most_filtered table.now }
    ensures value { result ≡ sign dots.now m
        *ℤ (get_or table.now m (pos 0) -ℤ get_or table.now n (pos 0)) }
    ensures result_bound { nat_abs result ≤ 2 * most_filtered }
{
    signed(dots[m], table[m] - table[n])
}

// what a swap of the cells m and n adds: 510 × (s(m) × (T(m) - T(n)) + 255 × (P - c(m - n)))
pub fn swap_change(peak: i32, apart: i32, dots: &[u8], table: &[i32], m: usize, n: usize) -> i64
    requires m_in_bounds { (m < length dots.now) × (m < length table.now) × (n < length table.now) }
    requires peak_bound { (nat_abs peak ≤ most_kernel) × (nat_abs apart ≤ most_kernel) × Small most_filtered table.now }
    ensures value { result ≡ swap_sum 255 peak apart (sign dots.now m)
        (get_or table.now m (pos 0)) (get_or table.now n (pos 0)) }
    ensures result_bound { nat_abs result ≤ most_change }
{
    510 * i64::from(difference(dots, table, m, n) + 255 * (peak - apart))
}

// whether m and n have unlike dots and their swap lowers the squared error; `worth` is 255 × (P - c(m - n)). The sum is
// tested first: it seldom is below 0, while dots are as often unlike as alike.
pub fn lower_swap(dots: &[u8], table: &[i32], m: usize, n: usize, worth: i32) -> bool
    requires m_in_bounds { (m < length dots.now) × (n < length dots.now) × (length table.now ≡ length dots.now) }
    requires small { Small most_filtered table.now × (nat_abs worth ≤ most_worth) }
    ensures { result ≡ lowers_by dots.now table.now m n worth }
{
    difference(dots, table, m, n) + worth < 0 && dots[m] != dots[n]
}

// the same where neither cell is locked, which is tested last, since the sum is seldom below 0
pub fn takes_swap(gray: &[u8], dots: &[u8], table: &[i32], m: usize, n: usize, worth: i32) -> bool
    requires m_in_bounds { (m < length dots.now) × (n < length dots.now) × (length table.now ≡ length dots.now) }
    requires gray_len { (length gray.now ≡ length dots.now) × Small most_filtered table.now × (nat_abs worth ≤ most_worth) }
    ensures { result ≡ takes_by gray.now dots.now table.now m n worth }
{
    lower_swap(dots, table, m, n, worth) && !is_locked(gray[m]) && !is_locked(gray[n])
}

// whether a change is accepted: exactly when it is below 0
pub fn lowers(change: i64) -> bool
    ensures { result ≡ lt_z change (pos 0) }
{
    change < 0
}
