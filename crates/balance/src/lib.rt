// The public call for the tone balance (02, C-15): by how much a plate is darker than its ground. It judges what it is
// handed, and only then sums and divides.
#![tactic(auto)]

ghost use Rattle.std.specs.Prelude.{◌≡◌, ◌*◌, ◌<◌, ◌≤◌, pos, ◌-ℤ◌};
ghost use Rattle.model.specs.Balance.{divided, balance_refusals, balance_call};
ghost use Rattle.model.specs.Calls.{reply_of};
ghost use Rattle.model.specs.Error.{black, most_cells};
ghost use Rattle.model.specs.Reason.{drawn};
ghost use Rattle.model.specs.Refusal.{first_of};

use model::{Reason, Size, ToneBalance};
use picture_judge::{judge_bits, judge_picture};
use slices::sum;

// the whole list: 1, 5 and 7, with gray of that length
fn judge_balance(size: Size, gray: usize, dots: &[u8]) -> Result<(), Reason>
    ensures { drawn result ≡ first_of (balance_refusals size gray dots.now) }
{
    judge_picture(size, gray)?;
    judge_bits(size, dots)
}

// what the dots are worth less the total of gray, divided by the cells down to the next whole number
fn divide(worth: usize, total: usize, cells: usize) -> ToneBalance
    requires { (worth ≤ black * most_cells) × (total ≤ black * most_cells) × (0 < cells) }
    ensures { result ≡ divided (pos worth -ℤ pos total) cells }
{
    let distance = worth.abs_diff(total);
    let whole = distance / cells;
    let rest = distance % cells;
    if total <= worth {
        ToneBalance {
            quotient: whole as i64,
            remainder: rest,
        }
    } else if rest == 0 {
        ToneBalance {
            quotient: -(whole as i64),
            remainder: 0,
        }
    } else {
        ToneBalance {
            quotient: -((whole + 1) as i64),
            remainder: cells - rest,
        }
    }
}

// The tone balance of a plate of that size.
#[tactic(auto, unfolding(model::specs::Balance::balance_call))]
pub fn tone_balance(size: Size, gray: &[u8], dots: &[u8]) -> Result<ToneBalance, Reason>
    ensures { reply_of result ≡ (balance_call size gray.now dots.now).reply }
{
    judge_balance(size, gray.len(), dots)?;
    let worth = 255 * sum(dots);
    Ok(divide(worth, sum(gray), size.height * size.width))
}
