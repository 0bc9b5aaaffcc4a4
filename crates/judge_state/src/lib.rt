// Judging the state that the later calls are handed: the table against one that is worked out afresh (20), and then the
// ledger (21).
#![tactic(auto)]

ghost use Rattle.std.specs.Prelude.{◌≡◌, length};
ghost use Rattle.model.specs.Reason.{drawn};
ghost use Rattle.model.specs.Refusal.{first_of, HalftoneFits};
ghost use Rattle.model.specs.Setting.{target_in};
ghost use Rattle.model.specs.State.{state_refusals};

use filter_sums::filter_and_square;
use judge_ledger::judge_ledger;
use judge_parts::known_bytes;
use model::{MOST_CELLS, Reason, Setting, Stats};
use slices::sum;

// 20 and 21, of a judged plate
pub fn judge_state(setting: Setting, dots: &[u8], table: &[i32], stats: Stats) -> Result<(), Reason>
    requires { HalftoneFits (target_in setting) dots.now (length table.now) }
    ensures { drawn result ≡ first_of (state_refusals setting.entry.measures
        setting.entry.psf.now setting.entry.gray.now dots.now table.now stats) }
{
    let m = setting.measures;
    let (psf, gray) = (setting.psf, setting.gray);
    // so that the squared error is one that `judge_ledger` takes
    known_bytes(gray);
    let mut worked = [0i32; MOST_CELLS];
    let fresh = &mut worked[..table.len()];
    let error = filter_and_square(m.width, m.height, m.radius, psf, gray, dots, fresh);
    if table != fresh {
        return Err(Reason::Table);
    }
    judge_ledger(table.len(), error, sum(dots), stats)
}
