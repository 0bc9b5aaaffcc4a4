// The window update of a table: each cell near one cell gains an amount times a kernel at its offset.
#![tactic(auto)]

ghost use Rattle.std.specs.Prelude.{◌≡◌, ℕ, ◌+◌, ◌*◌, ◌-◌, ◌<◌, ◌≤◌, min, length, get_or, pos, nat_abs};
ghost use Rattle.invariants.specs.Window.{add_window, Small, Scaled};
ghost use Rattle.model.specs.Error.{most_filtered};
ghost use Rattle.filter_window.specs.Run.{Ran};

use model::Cell;

// A run of n entries of c, times the amount, is added to the table's entries from `at` on.
pub fn add_run(table: &mut [i32], at: usize, c: &[i32], from: usize, n: usize, amount: i32)
    requires n_in_bounds { (at + n ≤ length table.old) × (from + n ≤ length c.now) }
    requires by_index { (q : ℕ) → at ≤ q → nat_abs (get_or table.old q (pos 0)) ≤ most_filtered }
    requires scaled { Scaled most_filtered amount c.now }
    ensures { Ran at c.now from amount n table.old table.new }
{
    for k in 0..n {
        table[at + k] += amount * c[from + k];
    }
}

// x less the reach, or 0
pub fn low(x: usize, reach: usize) -> usize
    ensures { result ≡ x - reach }
{
    x.saturating_sub(reach)
}

// the end of what lies within the reach of x and below n
pub fn high(x: usize, reach: usize, n: usize) -> usize
    requires { (x < 256) × (reach ≤ 6) }
    ensures { result ≡ min (x + reach + 1) n }
{
    (x + reach + 1).min(n)
}

// Every cell q within the reach of the cell m gains amount × c(q - m); the others stay.
pub fn add_window(
    table: &mut [i32],
    width: usize,
    height: usize,
    at: Cell,
    reach: usize,
    c: &[i32],
    amount: i32,
)
    requires row_lt_height { (at.row < height) × (at.col < width) × (width ≤ 256) × (height ≤ 256) × (reach ≤ 6) }
    requires table_len { (length table.old ≡ height * width) × ((2 * reach + 1) * (2 * reach + 1) ≤ length c.now) }
    requires small { Small most_filtered table.old }
    requires scaled { Scaled most_filtered amount c.now }
    ensures { table.new
        ≡ add_window width reach c.now amount at.row at.col table.old }
{
    let left = low(at.col, reach);
    let right = high(at.col, reach, width);
    let top = low(at.row, reach);
    let bottom = high(at.row, reach, height);
    let side = 2 * reach + 1;
    for y in top..bottom {
        let to = y * width + left;
        let from = (y + reach - at.row) * side + (left + reach - at.col);
        add_run(table, to, c, from, right - left, amount);
    }
}
