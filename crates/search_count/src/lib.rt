// How many swaps a scan weighs where it accepts none, counted from the dots: for each row the cells of one kind in
// every column within reach, and from these, sliding along the row, those within reach of each cell.
#![tactic(auto)]

ghost use Rattle.std.specs.Prelude.{◌≡◌, ◌+◌, ◌*◌, ◌-◌, ◌≤◌, ◌<◌, length};
ghost use Rattle.model.specs.Basic.{AtMost};
ghost use Rattle.model.specs.Error.{cell_at};
ghost use Rattle.model.specs.Refusal.{PlateFits};
ghost use Rattle.model.specs.Setting.{target_in};
ghost use Rattle.invariants.specs.Plate.{cell_of};
ghost use Rattle.invariants.specs.Trials.{all_trials};
ghost use Rattle.search_count.specs.Marks.{Sized, Gains, Counts, mark, placed};
ghost use Rattle.search_count.specs.Marks.{window_at, slid, widened, column_marks, kind_trials, marked_trials};

use model::{Cell, Measures, Setting};
use slices::is_locked;

// The cells of a plate, of which those are marked that are unlocked and hold one kind of dot.
#[derive(Clone, Copy)]
struct Cells<'a> {
    gray: &'a [u8],
    dots: &'a [u8],
    dot: u8,
}

impl Cells<'_> {
    // 1 where cell n is marked, else 0
    fn mark(self, n: usize) -> u8
        requires { (n < length self.gray.now) × (n < length self.dots.now) }
        ensures { result ≡ mark self.entry.gray.now self.entry.dots.now self.entry.dot n }
    {
        // both bytes are read first, so that a row is marked many cells at a time
        let (gray, here) = (self.gray[n], self.dots[n]);
        u8::from(!is_locked(gray) && here == self.dot)
    }
}

// The marks of the n cells from `first` on are added to as many columns from `at` on.
fn add_row(cells: Cells, first: usize, n: usize, columns: &mut [u8], at: usize)
    requires n_in_bounds { (first + n ≤ length cells.gray.now) × (first + n ≤ length cells.dots.now)
        × (at + n ≤ length columns.old) }
    requires at_most { AtMost 254 columns.old }
    ensures { let c = cells.entry in
        Gains (placed at n (λ x. mark c.gray.now c.dots.now c.dot (first + x))) columns.old columns.new }
{
    for x in 0..n {
        columns[at + x] += cells.mark(first + x);
    }
}

// A row of the widened plate, if it is on the plate, is added to the columns.
fn add_near(measures: Measures, cells: Cells, y: usize, columns: &mut [u8])
    requires sized { Sized measures cells.gray.now cells.dots.now }
    requires reach_in_bounds { (measures.width + measures.reach ≤ length columns.old) × AtMost 254 columns.old }
    ensures { let c = cells.entry in
        Gains (widened measures c.gray.now c.dots.now c.dot y) columns.old columns.new }
{
    let Some(row) = y.checked_sub(measures.reach) else {
        return;
    };
    if row < measures.height {
        add_row(
            cells,
            row * measures.width,
            measures.width,
            columns,
            measures.reach,
        );
    }
}

// Columns that are 0 come to the marks within reach of a row.
fn add_rows(measures: Measures, cells: Cells, row: usize, columns: &mut [u8])
    requires sized { Sized measures cells.gray.now cells.dots.now × (row < 256) }
    requires reach_in_bounds { (measures.width + measures.reach ≤ length columns.old) × AtMost 0 columns.old }
    ensures { let c = cells.entry in
        Counts (column_marks measures c.gray.now c.dots.now c.dot row) columns.new }
{
    for j in 0..2 * measures.reach + 1 {
        add_near(measures, cells, row + j, columns);
    }
}

// the sum of n columns from place x on
fn window(columns: &[u8], x: usize, n: usize) -> usize
    requires { (x + n ≤ length columns.now) × (n ≤ 13) }
    ensures { result ≡ window_at columns.now n x }
{
    let mut sum = 0;
    for i in 0..n {
        sum += usize::from(columns[x + i]);
    }
    sum
}

// the n columns from each marked cell on, added up from cell `from` of a row on and before `to`, where the row begins at
// the cell `first`
fn slide(cells: Cells, first: usize, from: usize, to: usize, columns: &[u8], n: usize) -> usize
    requires from_le_to { (from ≤ to) × (to ≤ 256) × (n ≤ 13) × (to + n ≤ length columns.now) }
    requires to_in_bounds { (first + to ≤ length cells.gray.now) × (first + to ≤ length cells.dots.now) }
    ensures { let c = cells.entry in
        let up_to = slid c.gray.now c.dots.now c.dot first columns.now n in
        result + up_to from ≡ up_to to }
{
    let mut within = window(columns, from, n);
    let mut sum = 0;
    for x in from..to {
        sum += usize::from(cells.mark(first + x)) * within;
        within = within + usize::from(columns[x + n]) - usize::from(columns[x]);
    }
    sum
}

// at the marked cells of a row from `from` on and before `to`, the swaps with cells that hold the other dot
fn kind_trials(measures: Measures, cells: Cells, row: usize, from: usize, to: usize) -> usize
    requires sized { Sized measures cells.gray.now cells.dots.now × (row < measures.height) × (cells.dot ≤ 1) }
    requires from_le_to { (from ≤ to) × (to ≤ measures.width) }
    ensures { let c = cells.entry in
        let up_to = kind_trials measures c.gray.now c.dots.now c.dot row in
        result + up_to from ≡ up_to to }
{
    let mut columns = [0u8; 272];
    let others = Cells {
        dot: 1 - cells.dot,
        ..cells
    };
    add_rows(measures, others, row, &mut columns);
    slide(
        cells,
        row * measures.width,
        from,
        to,
        &columns,
        2 * measures.reach + 1,
    )
}

// the swaps at the cells of a row from `from` on and before `to`
fn row_trials(setting: Setting, dots: &[u8], row: usize, from: usize, to: usize) -> usize
    requires sized { Sized setting.measures setting.gray.now dots.now × (row < setting.measures.height) }
    requires from_le_to { (from ≤ to) × (to ≤ setting.measures.width) }
    ensures { let m = setting.entry.measures in
        let up_to = marked_trials m setting.entry.gray.now dots.now in
        result + up_to (cell_at m.width row from) ≡ up_to (cell_at m.width row to) }
{
    let blanks = Cells {
        gray: setting.gray,
        dots,
        dot: 0,
    };
    let solids = Cells { dot: 1, ..blanks };
    let blank = kind_trials(setting.measures, blanks, row, from, to);
    let solid = kind_trials(setting.measures, solids, row, from, to);
    blank + solid
}

// the swaps weighed at the cells from `from` on and before `to`, where none is accepted
pub fn span_trials(setting: Setting, dots: &[u8], from: Cell, to: Cell) -> u64
    requires plate_fits { PlateFits setting.measures setting.psf.now setting.gray.now dots.now (length dots.now) }
    requires col_lt_width { (from.col < setting.measures.width) × (to.col < setting.measures.width)
        × (cell_of setting.measures.width from ≤ cell_of setting.measures.width to)
        × (cell_of setting.measures.width to ≤ setting.measures.height * setting.measures.width) }
    ensures { let m = setting.entry.measures in
        let up_to = all_trials (target_in setting.entry) m.reach dots.now in
        result + up_to (cell_of m.width from) ≡ up_to (cell_of m.width to) }
{
    let width = setting.measures.width;
    let mut trials = 0;
    let mut col = from.col;
    for row in from.row..to.row {
        trials += row_trials(setting, dots, row, col, width);
        col = 0;
    }
    if col < to.col {
        trials += row_trials(setting, dots, to.row, col, to.col);
    }
    trials as u64
}
