// The public call that starts a plate: it judges what it is handed, writes the dots of the kind asked for and their
// table, and answers a fresh ledger. A refusal changes nothing.
#![tactic(auto)]

ghost use Rattle.std.specs.Prelude.{◌≡◌, length};
ghost use Rattle.model.specs.Basic.{AtMost};
ghost use Rattle.model.specs.Error.{filtered_errors};
ghost use Rattle.model.specs.Refusal.{HalftoneFits};
ghost use Rattle.model.specs.Calls.{Ends, buffers, reply_of, start_call};
ghost use Rattle.model.specs.Ledger.{fresh_stats};
ghost use Rattle.model.specs.Setting.{target_in};

use filter_sums::filter_and_square;
use judge_input::judge_start;
use judge_parts::known_bytes;
use model::{Reason, Setting, Stats};
use starts_screen::{fresh, start_dots};

// the table of judged dots, and a fresh ledger
fn begin_plate(setting: Setting, dots: &[u8], table: &mut [i32]) -> Stats
    requires { HalftoneFits (target_in setting) dots.now (length table.old) }
    ensures { let t = target_in setting.entry in
        (table.new ≡ filtered_errors t dots.now) × (result ≡ fresh_stats t dots.now) }
{
    let m = setting.measures;
    let squared = filter_and_square(
        m.width,
        m.height,
        m.radius,
        setting.psf,
        setting.gray,
        dots,
        table,
    );
    fresh(dots, squared)
}

// A start of the kind that the measures name: 0 all blank that is not locked, 1 by the thresholds, 2 the dots given. That
// gray is made of bytes, which the promises ask for, is handed to the caller.
#[tactic(auto, unfolding(model::specs::Calls::start_call))]
pub fn start(setting: Setting, dots: &mut [u8], table: &mut [i32]) -> Result<Stats, Reason>
    ensures ends { Ends (start_call setting.entry.measures setting.entry.psf.now setting.entry.gray.now dots.old
        table.old) (reply_of result) (buffers dots.new table.new) }
    ensures at_most { AtMost 255 setting.entry.gray.now }
{
    known_bytes(setting.gray);
    judge_start(setting, dots, table.len())?;
    start_dots(setting, dots);
    Ok(begin_plate(setting, dots, table))
}
