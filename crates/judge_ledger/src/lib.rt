// 21: judging the ledger that a later call is handed against the dots and their squared error.
#![tactic(auto)]

ghost use Rattle.std.specs.Prelude.{[], ◌∷◌, ◌≡◌, ◌≤◌, pos, ◌≤ℤ◌};
ghost use Rattle.model.specs.Error.{most_cells, most_squared};
ghost use Rattle.model.specs.Ledger.{wrong_stats};
ghost use Rattle.model.specs.Reason.{drawn};
ghost use Rattle.model.specs.Refusal.{first_of};

use model::{MOST_COUNT, MOST_SQUARED, Reason, Stats};

// 21, of a plate of that many cells, whose squared error and number of dots are these. The figures of the ledger may be
// any: each is compared before it is reckoned with.
pub fn judge_ledger(cells: usize, error: i64, dots: usize, stats: Stats) -> Result<(), Reason>
    requires { (cells ≤ most_cells) × (dots ≤ most_cells) × (pos 0 ≤ℤ error) × (error ≤ℤ pos most_squared) }
    ensures { drawn result ≡ first_of (wrong_stats cells 255 error dots stats ∷ []) }
{
    let figures = stats.figures;
    if figures.start_error < 0
        || MOST_SQUARED < figures.start_error
        || MOST_COUNT < figures.on
        || MOST_COUNT < figures.off
        || MOST_COUNT < figures.swaps
        || (cells as u64) < figures.start_dots
    {
        return Err(Reason::Ledger);
    }
    let changes = figures.on + figures.off + figures.swaps;
    if stats.error != error
        || dots as u64 + figures.off != figures.start_dots + figures.on
        || figures.start_error - stats.error < (255 * changes) as i64
    {
        return Err(Reason::Ledger);
    }
    Ok(())
}
