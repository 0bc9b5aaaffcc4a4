// A sample of a PFM: its 32 bits from four bytes, what they are read as, and its gray.
#![tactic(auto)]

ghost use Rattle.std.specs.Prelude.{true, false, ◌≡◌, ◌+◌, ◌*◌, ◌≤◌, T, length};
ghost use Rattle.std.specs.Float.{binary32};
ghost use Rattle.std.specs.Float.Ieee.{fits, nan_bits};
ghost use Rattle.std.specs.Float.Ieee.Exact.{HasValue};
ghost use Rattle.std.specs.Float.Ieee.Positive.{num, den, positive};
ghost use Rattle.model.specs.Pfm.{word_at, is_shade, sample_of, brightness, is_no_shade};
ghost use Rattle.model.specs.Pfm.{gray_of};

use model::Sample;

// The four bytes from a place on, in the byte order of the file.
#[tactic(auto, unfolding(model::specs::Pfm::word_at))]
pub fn word_at(little: bool, s: &[u8], at: usize) -> u32
    requires { at + 4 ≤ length s.now }
    ensures { result ≡ word_at little s.now at }
{
    let bytes = [s[at], s[at + 1], s[at + 2], s[at + 3]];
    if little {
        u32::from_le_bytes(bytes)
    } else {
        u32::from_be_bytes(bytes)
    }
}

// whether these are the bits of no number: past those of an infinity, without the sign
fn is_nan_pattern(n: u32) -> bool
    ensures { result ≡ nan_bits binary32 n }
{
    0x7F80_0000 < n % 0x8000_0000
}

// what 32 bits are read as; the bits of all shades but minus zero are up to those of 1, and are tested first, which is
// faster
fn sample_of(n: u32) -> Sample
    ensures { result ≡ sample_of n }
{
    if n <= 0x3F80_0000 {
        return Sample::Shade(f32::from_bits(n));
    }
    if is_nan_pattern(n) {
        return Sample::NotANumber;
    }
    let v = f32::from_bits(n);
    if 0.0 <= v && v <= 1.0 {
        Sample::Shade(v)
    } else {
        Sample::Outside(v)
    }
}

// a float above 0 of 32 bits in 64, which is the same value; `f64::from` would test for no number once more, which is
// slower
fn widened(v: f32) -> f64
    requires { T (positive v) }
    ensures { (result ≡ v) × T (fits binary32 result) }
{
    v as f64
}

// 255 times a shade above 0, exactly
fn times_255(v: f32) -> f64
    requires { T (positive v) × (num v ≤ den v) }
    ensures { HasValue result false (255 * num v) (den v) × T (fits binary32 v) }
{
    widened(v) * 255.0
}

// The brightness of a shade. A sum with 2^52 has no digit after the point, so it is rounded to the nearest whole number,
// a tie to the even one, and stands in the last digits. The one tie, 127.5, goes up to 128 so.
fn brightness(v: f32) -> u8
    requires { is_shade v ≡ true }
    ensures { result ≡ brightness v }
{
    if v > 0.0 {
        let sum = times_255(v) + 4503599627370496.0;
        return (sum.to_bits() % 256) as u8;
    }
    0
}

// Whether the sample that 32 bits are read as is no shade.
pub fn is_no_shade(n: u32) -> bool
    ensures { result ≡ is_no_shade (sample_of n) }
{
    !matches!(sample_of(n), Sample::Shade(_))
}

// The gray of the sample that 32 bits are read as; 0 where it is no shade.
pub fn gray_of(n: u32) -> u8
    ensures { result ≡ gray_of (sample_of n) }
{
    match sample_of(n) {
        Sample::Shade(v) => 255 - brightness(v),
        Sample::Outside(_) | Sample::NotANumber => 0,
    }
}
