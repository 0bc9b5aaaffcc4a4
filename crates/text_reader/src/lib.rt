// A text read item by item: a word, a number or a line end with its byte offset. Numbers are read under a limit, which
// stands for it and all above.
#![tactic(auto)]

ghost use Rattle.std.specs.Prelude.{true, ◌≡◌, ◌^◌, ◌≤◌, length, drop};
ghost use Rattle.model.specs.Text.{is_letter, is_digit, grow_to, word_end, run_to, step_to, step_at};

use model::{After, Item, Step};

fn is_letter(b: u8) -> bool
    ensures { result ≡ is_letter b }
{
    b.is_ascii_lowercase()
}

pub fn is_digit(b: u8) -> bool
    ensures { result ≡ is_digit b }
{
    b.is_ascii_digit()
}

// A number with one digit more, and the limit for every number that is not below it.
pub fn with_digit(limit: usize, value: usize, b: u8) -> usize
    requires limit_bound { limit ≤ 2 ^ 63 }
    requires b_value { is_digit b ≡ true }
    ensures { result ≡ grow_to limit value b }
{
    let digit = usize::from(b - b'0');
    value.saturating_mul(10).saturating_add(digit).min(limit)
}

// where the letters from a place on end
fn word_end(s: &[u8], at: usize) -> usize
    requires { at ≤ length s.now }
    ensures { result ≡ word_end at (drop at s.now) }
{
    at + s[at..].iter().take_while(|b| is_letter(**b)).count()
}

// the digits from a place on
fn digit_run(limit: usize, s: &[u8], at: usize) -> After<usize>
    requires limit_bound { limit ≤ 2 ^ 63 }
    requires at_in_bounds { at ≤ length s.now }
    ensures { record { value = result.value; end = result.at } ≡ run_to limit 0 at (drop at s.now) }
{
    let mut value = 0;
    for i in at..s.len() {
        if !is_digit(s[i]) {
            return After { value, at: i };
        }
        value = with_digit(limit, value, s[i]);
    }
    After { value, at: s.len() }
}

// The item at a place.
pub fn step_to(limit: usize, s: &[u8], at: usize) -> Step
    requires { limit ≤ 2 ^ 63 }
    ensures { result ≡ step_to limit s.now at }
{
    match s.get(at) {
        Some(b'a'..=b'z') => Step {
            item: Item::Word,
            at,
            next: word_end(s, at),
        },
        Some(first @ b'0'..=b'9') => {
            let run = digit_run(limit, s, at);
            if *first == b'0' && at + 1 < run.at {
                return Step {
                    item: Item::Other,
                    at: at + 1,
                    next: at + 1,
                };
            }
            Step {
                item: Item::Number(run.value),
                at,
                next: run.at,
            }
        }
        Some(b'\n') => Step {
            item: Item::LineEnd,
            at,
            next: at + 1,
        },
        _ => Step {
            item: Item::Other,
            at,
            next: at,
        },
    }
}

// The item at a place, as document 01 says it: 257 stands for every number above 256.
pub fn step_at(s: &[u8], at: usize) -> Step
    ensures { result ≡ step_at s.now at }
{
    step_to(257, s, at)
}
