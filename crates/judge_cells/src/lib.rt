// Judging the cells that an attempt names: 8 and 9 by their places, 23 by their gray, 22 by their dots. Each function
// answers the refusal that is drawn.
#![tactic(auto)]

ghost use Rattle.std.specs.Prelude.{[], ◌∷◌, ◌≡◌, ◌<◌, length};
ghost use Rattle.model.specs.Reason.{drawn};
ghost use Rattle.model.specs.Refusal.{first_of, bad_cell, bad_cells, bad_pair};
ghost use Rattle.model.specs.State.{bad_locked, bad_locked_pair, bad_like};

use model::{Cell, Reason};
use slices::is_locked;

// 8: a cell off the plate
pub fn judge_cell(width: usize, height: usize, at: Cell) -> Result<(), Reason>
    ensures { drawn result ≡ first_of (bad_cell width height at.row at.col ∷ []) }
{
    if height <= at.row || width <= at.col {
        return Err(Reason::Cell);
    }
    Ok(())
}

// 8 of a swap, which names two cells
pub fn judge_cells(width: usize, height: usize, at: Cell, to: Cell) -> Result<(), Reason>
    ensures { drawn result ≡ first_of
        (bad_cells width height at.row at.col to.row to.col ∷ []) }
{
    judge_cell(width, height, at)?;
    judge_cell(width, height, to)
}

// 9: a cell with itself, or with one beyond the reach
pub fn judge_pair(reach: usize, at: Cell, to: Cell) -> Result<(), Reason>
    ensures { drawn result ≡ first_of (bad_pair reach at.row at.col to.row to.col ∷ []) }
{
    let down = at.row.abs_diff(to.row);
    let across = at.col.abs_diff(to.col);
    if (down == 0 && across == 0) || reach < down || reach < across {
        return Err(Reason::Pair);
    }
    Ok(())
}

// 23: a locked cell, of those on the plate
#[tactic(auto, unfolding(model::specs::Lock::locked))]
pub fn judge_free(gray: &[u8], m: usize) -> Result<(), Reason>
    requires { m < length gray.now }
    ensures { drawn result ≡ first_of (bad_locked gray.now m ∷ []) }
{
    if is_locked(gray[m]) {
        return Err(Reason::Locked);
    }
    Ok(())
}

// 23 of a swap, which names two cells
pub fn judge_free_pair(gray: &[u8], m: usize, n: usize) -> Result<(), Reason>
    requires { (m < length gray.now) × (n < length gray.now) }
    ensures { drawn result ≡ first_of (bad_locked_pair gray.now m n ∷ []) }
{
    judge_free(gray, m)?;
    judge_free(gray, n)
}

// 22: equal dots, of two cells on the plate
pub fn judge_like(dots: &[u8], m: usize, n: usize) -> Result<(), Reason>
    requires { (m < length dots.now) × (n < length dots.now) }
    ensures { drawn result ≡ first_of (bad_like dots.now m n ∷ []) }
{
    if dots[m] == dots[n] {
        return Err(Reason::Like);
    }
    Ok(())
}
