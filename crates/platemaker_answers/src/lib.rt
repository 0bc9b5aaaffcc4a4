// The answers without a ledger laid out for the C interface: each function answers the status, 0 or the refusal number,
// and stores the rest behind pointers.
#![tactic(auto)]

ghost use Rattle.std.specs.Prelude.{◌≡◌, length};
ghost use Rattle.model.specs.Reason.{number_of};
ghost use Rattle.model.specs.Calls.{reply_of, placed_reply};
ghost use Rattle.model.specs.Interface.{status, measures_size, Lays, value_behind, read_behind, write_behind, balance_behind};

use model::{Measures, Reason, Refused, ToneBalance};
use platemaker_numbers::store_measures;

// lays the answer of a call that fills a buffer out: its status
pub fn lay_filled(answer: Result<(), Reason>) -> u32
    ensures { result ≡ status (reply_of answer) }
{
    match answer {
        Ok(()) => 0,
        Err(unfilled) => unfilled.into(),
    }
}

// the same of a call that answers one value, with this
pub fn lay_value<T: Copy + Drop>(answer: Result<T, Reason>, value: &mut T) -> u32
    ensures { Lays (reply_of answer) value_behind value.old result value.new }
{
    match answer {
        Ok(found) => {
            *value = found;
            0
        }
        Err(reason) => reason.into(),
    }
}

// the same of the tone balance, with its quotient and its remainder
pub fn lay_balance(
    answer: Result<ToneBalance, Reason>,
    quotient: &mut i64,
    remainder: &mut usize,
) -> u32
    ensures { Lays (reply_of answer) balance_behind (quotient.old, remainder.old) result
        (quotient.new, remainder.new) }
{
    match answer {
        Ok(balance) => {
            *quotient = balance.quotient;
            *remainder = balance.remainder;
            0
        }
        Err(refusal) => refusal.into(),
    }
}

// lays a refusal with a place out: its status, and the byte offset
pub fn lay_refused(refused: Refused, offset: &mut usize) -> u32
    ensures number { result ≡ number_of refused.reason }
    ensures place { offset.new ≡ refused.at }
{
    *offset = refused.at;
    refused.reason.into()
}

// lays the answer of a sheet that is read out, with its measures, or the byte offset of a refusal
pub fn lay_reading(
    answer: Result<Measures, Refused>,
    measures: &mut [usize],
    offset: &mut usize,
) -> u32
    requires { length measures.old ≡ measures_size }
    ensures { Lays (placed_reply answer) read_behind (measures.old, offset.old) result
        (measures.new, offset.new) }
{
    match answer {
        Ok(read) => {
            store_measures(measures, read);
            0
        }
        Err(refused) => lay_refused(refused, offset),
    }
}

// the same of a sheet that is written, with its length, or the byte offset of a refusal
pub fn lay_writing(answer: Result<usize, Refused>, length: &mut usize, offset: &mut usize) -> u32
    ensures { Lays (placed_reply answer) write_behind (length.old, offset.old) result
        (length.new, offset.new) }
{
    match answer {
        Ok(written) => {
            *length = written;
            0
        }
        Err(refused) => lay_refused(refused, offset),
    }
}
