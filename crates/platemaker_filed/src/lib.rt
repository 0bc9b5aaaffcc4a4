// The answer of the check laid out for the C interface: the status, 0 or the refusal number, the verdict in numbers,
// and the byte offset of a refusal.
#![tactic(auto)]

ghost use Rattle.std.specs.Prelude.{◌≡◌, length};
ghost use Rattle.model.specs.Sheet.{InRange};
ghost use Rattle.model.specs.FiledCalls.{checked_of, resting_in, verdict_in};
ghost use Rattle.model.specs.Interface.{Lays, verdict_size, rest_number, verdict_numbers, check_behind};
ghost use Rattle.platemaker_numbers.specs.Storable.{Holds};

use model::{Reason, Refused, Verdict};
use platemaker_answers::lay_refused;
use sheet_read::Layout;

// 1, 0, or the number of a start's refusal negated
fn rest_number(rest: Result<bool, Reason>) -> i64
    ensures { result ≡ rest_number (resting_in rest) }
{
    match rest {
        Ok(rests) => i64::from(rests),
        Err(reason) => -i64::from(u32::from(reason)),
    }
}

// a verdict into six numbers
fn store_verdict(out: &mut [i64], found: Verdict)
    requires { (length out.old ≡ verdict_size) × InRange found.measures }
    ensures { out.new ≡ verdict_numbers (verdict_in found) }
{
    let layout = Layout {
        measures: found.measures,
    };
    out.copy_from_slice(&[
        found.filed,
        found.squared,
        i64::from(found.figure),
        i64::from(found.ledger),
        rest_number(found.rest),
        layout.cells() as i64,
    ]);
}

// lays the answer of the check out: its status, with the verdict or the byte offset
pub fn lay_checked(answer: Result<Verdict, Refused>, verdict: &mut [i64], offset: &mut usize) -> u32
    requires { (length verdict.old ≡ verdict_size) × Holds (λ v. InRange v.measures) (checked_of answer) }
    ensures { Lays (checked_of answer) check_behind (verdict.old, offset.old) result
        (verdict.new, offset.new) }
{
    match answer {
        Ok(found) => {
            store_verdict(verdict, found);
            0
        }
        Err(refused) => lay_refused(refused, offset),
    }
}
