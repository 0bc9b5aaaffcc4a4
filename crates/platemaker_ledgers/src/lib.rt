// The answers that carry a ledger laid out for the C interface: each function answers the status, 0 or the refusal number,
// and stores the rest behind pointers.
#![tactic(auto)]

ghost use Rattle.std.specs.Prelude.{◌≡◌, length};
ghost use Rattle.model.specs.Calls.{reply_of, attempted};
ghost use Rattle.model.specs.Interface.{stats_size, Lays, stats_behind, tried_behind, scan_behind, converge_behind};
ghost use Rattle.platemaker_numbers.specs.Storable.{Storable, Holds, TriedStorable};

use model::{Attempt, ConvergeResult, Reason, ScanResult, Stats};
use platemaker_numbers::store_stats;

// lays the answer of a start out: its status, and the ledger into its slice
pub fn lay_start(answer: Result<Stats, Reason>, stats: &mut [i64]) -> u32
    requires { (length stats.old ≡ stats_size) × Holds Storable (reply_of answer) }
    ensures { Lays (reply_of answer) stats_behind stats.old result stats.new }
{
    match answer {
        Ok(new) => {
            store_stats(stats, new);
            0
        }
        Err(unstarted) => unstarted.into(),
    }
}

// the same of an attempt, with its change
pub fn lay_attempt(answer: Attempt, stats: &mut [i64], change: &mut i64) -> u32
    requires { (length stats.old ≡ stats_size) × Holds TriedStorable (attempted answer) }
    ensures { Lays (attempted answer) tried_behind (stats.old, change.old) result
        (stats.new, change.new) }
{
    match answer {
        Attempt::Accepted(new, delta) => {
            store_stats(stats, new);
            *change = delta;
            0
        }
        Attempt::Declined(rise) => {
            *change = rise;
            0
        }
        Attempt::Refused(reason) => reason.into(),
    }
}

// the same of a scan, with its accepted changes and its trials
pub fn lay_scan(
    answer: Result<ScanResult, Reason>,
    stats: &mut [i64],
    changes: &mut u64,
    trials: &mut u64,
) -> u32
    requires { (length stats.old ≡ stats_size) × Holds (λ done. Storable done.stats) (reply_of answer) }
    ensures { Lays (reply_of answer) scan_behind
        (stats.old, changes.old, trials.old) result
        (stats.new, changes.new, trials.new) }
{
    match answer {
        Ok(done) => {
            store_stats(stats, done.stats);
            *changes = done.changes;
            *trials = done.trials;
            0
        }
        Err(reason) => reason.into(),
    }
}

// the same of a settling, with its scans
pub fn lay_converged(
    answer: Result<ConvergeResult, Reason>,
    stats: &mut [i64],
    scans: &mut u64,
) -> u32
    requires { (length stats.old ≡ stats_size) × Holds (λ done. Storable done.stats) (reply_of answer) }
    ensures { Lays (reply_of answer) converge_behind (stats.old, scans.old) result
        (stats.new, scans.new) }
{
    match answer {
        Ok(done) => {
            store_stats(stats, done.stats);
            *scans = done.scans;
            0
        }
        Err(reason) => reason.into(),
    }
}
