// Reading the parts of a sheet: names, numbers in their fields, and rows of numbers. Each answers the place after what
// it read, or a refusal with its byte offset.
#![tactic(auto)]

ghost use Rattle.std.specs.Prelude.{true, [], ◌∷◌, ◌++◌, ◌≡◌, ◌^◌, ◌≤◌, ◌<◌, length, get_or, MatchResult};
ghost use Rattle.std.proofs.lemmas.List.Edits.{sets};
ghost use Rattle.model.specs.Error.{most_cells};
ghost use Rattle.model.specs.Text.{is_letter, step_to};
ghost use Rattle.model.specs.Sheet.{end_of};
ghost use Rattle.model.specs.Format.{grid, block, is_at, fixed_at, limit_of, field_at, parse, place_of};
ghost use Rattle.invariants.specs.Reading.{place_in, field_in};

use model::{After, Item, Reason, Refused, Step};
use text_reader::{step_at, step_to};

fn is_at(s: &[u8], at: usize, b: u8) -> bool
    ensures { result ≡ is_at b s.now at }
{
    at < s.len() && s[at] == b
}

// These bytes; the first that differs is refused.
pub fn read_fixed(s: &[u8], at: usize, bytes: &[u8]) -> Result<usize, Refused>
    ensures { place_in result ≡ fixed_at bytes.now s.now at }
{
    let mut next = at;
    for b in bytes {
        if !is_at(s, next, *b) {
            return Err(Refused {
                reason: Reason::Byte,
                at: next,
            });
        }
        next += 1;
    }
    Ok(next)
}

// the byte that ends what was read: LF is an item of the reader, a space stands between two
fn read_end(s: &[u8], at: usize, end: u8) -> Result<usize, Refused>
    ensures { place_in result ≡ fixed_at (end ∷ []) s.now at }
{
    let ends = match end {
        b'\n' => matches!(step_at(s, at).item, Item::LineEnd),
        _ => is_at(s, at, end),
    };
    if !ends {
        return Err(Refused {
            reason: Reason::Byte,
            at,
        });
    }
    Ok(at + 1)
}

// A word and the byte that ends it.
#[tactic(auto, using(crate::proofs::Parts::fixed_stop))]
pub fn read_name(s: &[u8], at: usize, name: &[u8], end: u8) -> Result<usize, Refused>
    requires { (0 < length name.now) × (is_letter (get_or name.now 0 0) ≡ true) }
    ensures { place_in result ≡ fixed_at (name.now ++ (end ∷ [])) s.now at }
{
    if !matches!(step_at(s, at).item, Item::Word) {
        return Err(Refused {
            reason: Reason::Byte,
            at,
        });
    }
    let next = read_fixed(s, at, name)?;
    read_end(s, next, end)
}

// the item at a place, its number read under the limit of a field that ends at hi
fn step_in(s: &[u8], at: usize, hi: usize) -> Step
    requires { hi < 2 ^ 63 }
    ensures { result ≡ step_to (limit_of hi) s.now at }
{
    if hi <= 256 {
        return step_at(s, at);
    }
    step_to(hi + 1, s, at)
}

// A number from lo to hi and the byte that ends it.
#[tactic(auto, unfolding(model::specs::Format::field_at))]
pub fn read_field(
    s: &[u8],
    at: usize,
    lo: usize,
    hi: usize,
    end: u8,
) -> Result<After<usize>, Refused>
    requires { hi < 2 ^ 63 }
    ensures { field_in result ≡ field_at lo hi end s.now at }
{
    let Step { item, at, next } = step_in(s, at, hi);
    let Item::Number(value) = item else {
        return Err(Refused {
            reason: Reason::Byte,
            at,
        });
    };
    if value < lo || hi < value {
        return Err(Refused {
            reason: Reason::Field,
            at,
        });
    }
    let next = read_end(s, next, end)?;
    Ok(After { value, at: next })
}

// What ends value i of rows of w values: LF at the end of a row, a space elsewhere.
pub fn end_of(w: usize, i: usize) -> u8
    requires { (1 ≤ w) × (i < most_cells) }
    ensures { result ≡ end_of w i }
{
    if (i + 1) % w == 0 { b'\n' } else { b' ' }
}

// judges n numbers in rows of w
#[tactic(auto, using(crate::proofs::Parts::grid_more, crate::proofs::Parts::grid_stop))]
fn judge_grid(s: &[u8], at: usize, w: usize, n: usize, hi: usize) -> Result<usize, Refused>
    requires { (1 ≤ w) × (n ≤ most_cells) × (hi < 256) }
    ensures { place_in result ≡ place_of (parse (grid w hi 0 n) s.now at) }
{
    let mut next = at;
    for i in 0..n {
        let field = read_field(s, next, 0, hi, end_of(w, i))?;
        next = field.at;
    }
    Ok(next)
}

// stores n numbers in rows of w that were judged good, and answers the place after them
fn store_grid(s: &[u8], at: usize, w: usize, n: usize, hi: usize, out: &mut [u8]) -> usize
    requires le_w { (1 ≤ w) × (n ≤ most_cells) × (hi < 256) × (n ≤ length out.old) }
    requires at_value { (parse (grid w hi 0 n) s.now at).refusal ≡ 0 }
    ensures value { result ≡ (parse (grid w hi 0 n) s.now at).at }
    ensures out_after { out.new
        ≡ sets out.old 0 (parse (grid w hi 0 n) s.now at).values }
{
    let mut next = at;
    for i in 0..n {
        let field = read_field(s, next, 0, hi, end_of(w, i)).unwrap();
        out[i] = field.value as u8;
        next = field.at;
    }
    next
}

// Judges a name and its rows after what was read; what was refused stays refused.
pub fn judge_block(
    s: &[u8],
    done: Result<usize, Refused>,
    name: &[u8],
    w: usize,
    n: usize,
    hi: usize,
) -> Result<usize, Refused>
    requires le_w { (1 ≤ w) × (n ≤ most_cells) × (hi < 256) }
    requires name_nonzero { (0 < length name.now) × (is_letter (get_or name.now 0 0) ≡ true) }
    ensures { MatchResult done (λ at.
        place_in result ≡ place_of (parse (block (name.now ++ (10 ∷ [])) w n hi) s.now at))
        (λ r. result ≡ Err r) }
{
    let at = done?;
    let rows = read_name(s, at, name, b'\n')?;
    judge_grid(s, rows, w, n, hi)
}

// Stores the rows under a name that were judged good, and answers the place after them.
pub fn store_block(
    s: &[u8],
    at: usize,
    name: &[u8],
    w: usize,
    n: usize,
    hi: usize,
    out: &mut [u8],
) -> usize
    requires le_w { (1 ≤ w) × (n ≤ most_cells) × (hi < 256) × (n ≤ length out.old) }
    requires name_nonzero { (0 < length name.now) × (is_letter (get_or name.now 0 0) ≡ true) }
    requires at_value { (parse (block (name.now ++ (10 ∷ [])) w n hi) s.now at).refusal ≡ 0 }
    ensures value { result ≡ (parse (block (name.now ++ (10 ∷ [])) w n hi) s.now at).at }
    ensures out_after { out.new ≡ sets out.old 0
        (parse (block (name.now ++ (10 ∷ [])) w n hi) s.now at).values }
{
    let rows = read_name(s, at, name, b'\n').unwrap();
    store_grid(s, rows, w, n, hi, out)
}
