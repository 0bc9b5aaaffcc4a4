// Numbers in decimal.
#![tactic(auto)]

ghost use Rattle.std.specs.Prelude.{◌≡◌, ◌+◌, ◌≤◌, ◌<◌, length};
ghost use Rattle.model.specs.Text.{digits, Puts};

// Puts a number at a place, from its last digit down to its first, and answers the place after it.
pub fn put_number(out: &mut [u8], at: usize, n: usize) -> usize
    requires { at + length (digits n) ≤ length out.old }
    ensures { Puts (digits n) out.old out.new at result }
{
    let end = at + digit_length(n);
    let mut next = end;
    let mut rest = n;
    // a loop that divides: no iterator gives a number's digits, and a `String` of them would need memory
    while 10 <= rest {
        next -= 1;
        out[next] = b'0' + (rest % 10) as u8;
        rest /= 10;
    }
    out[at] = b'0' + rest as u8;
    end
}

// how many digits a number has
fn digit_length(n: usize) -> usize
    ensures { result ≡ length (digits n) }
{
    let mut rest = n;
    let mut lower = 0;
    // a loop that divides: the library has no logarithm of a number
    while 1000 <= rest {
        rest /= 1000;
        lower += 3;
    }
    lower + digit_count(rest)
}

// how many digits a number below 1,000 has
pub fn digit_count(n: usize) -> usize
    requires { n < 1000 }
    ensures { (result ≡ length (digits n)) × (result ≤ 3) }
{
    match n {
        0..=9 => 1,
        10..=99 => 2,
        _ => 3,
    }
}
