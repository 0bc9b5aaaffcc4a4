// The lists of refusals of the later calls: 1 to 7 and 16, then those of the cells that the call names (8, 9), then 20 and
// 21, then those of a change of their dots (23, 22). Each function answers the first that is drawn.
#![tactic(auto)]

ghost use Rattle.std.specs.Prelude.{◌≡◌};
ghost use Rattle.model.specs.Reason.{drawn};
ghost use Rattle.model.specs.State.{later_refusal, toggle_refusal, swap_refusal};

use judge_cells::{judge_cell, judge_cells, judge_free, judge_free_pair, judge_like, judge_pair};
use judge_input::judge_later;
use judge_state::judge_state;
use model::{Cell, Reason, Setting, Stats};
use slices::index;

// the whole list of a call that names no cell
pub fn judge_scan(setting: Setting, dots: &[u8], table: &[i32], stats: Stats) -> Result<(), Reason>
    ensures { drawn result ≡ later_refusal setting.entry.measures setting.entry.psf.now setting.entry.gray.now
        dots.now table.now stats }
{
    judge_later(setting, dots, table.len())?;
    judge_state(setting, dots, table, stats)
}

// the whole list of a toggle
pub fn judge_toggle(
    setting: Setting,
    dots: &[u8],
    table: &[i32],
    stats: Stats,
    at: Cell,
) -> Result<(), Reason>
    ensures { drawn result ≡ toggle_refusal setting.entry.measures setting.entry.psf.now setting.entry.gray.now
        dots.now table.now stats at.row at.col }
{
    let m = setting.measures;
    judge_later(setting, dots, table.len())?;
    judge_cell(m.width, m.height, at)?;
    judge_state(setting, dots, table, stats)?;
    judge_free(setting.gray, index(m.width, at))
}

// the whole list of a swap
pub fn judge_swap(
    setting: Setting,
    dots: &[u8],
    table: &[i32],
    stats: Stats,
    at: Cell,
    to: Cell,
) -> Result<(), Reason>
    ensures { drawn result ≡ swap_refusal setting.entry.measures setting.entry.psf.now setting.entry.gray.now
        dots.now table.now stats at.row at.col to.row to.col }
{
    let m = setting.measures;
    judge_later(setting, dots, table.len())?;
    judge_cells(m.width, m.height, at, to)?;
    judge_pair(m.reach, at, to)?;
    judge_state(setting, dots, table, stats)?;
    let (one, other) = (index(m.width, at), index(m.width, to));
    judge_free_pair(setting.gray, one, other)?;
    judge_like(dots, one, other)
}
