// The header of a PBM or PGM file, read byte by byte, comments left out.
#![tactic(auto)]

ghost use Rattle.std.specs.Prelude.{false, true, [], ◌≡◌, ◌≤◌, MatchOption, MatchResult};
ghost use Rattle.model.specs.Netpbm.{is_space, ends_comment};
ghost use Rattle.model.specs.PictureHeader.{glyphs_at, found, spaces_from, number_from, magic, number_next, end_next};
ghost use Rattle.model.specs.PictureHeader.{most_value, pbm_header, pgm_header};
ghost use Rattle.picture_header.specs.Read.{Next, told, place_of, number_of, size_found, header_told};

use model::{After, MOST_VALUE, NetpbmHeader, Size};
use text_reader::{is_digit, with_digit};

// `is_ascii_whitespace` leaves out VT
fn is_space(b: u8) -> bool
    ensures { result ≡ is_space b }
{
    matches!(b, b' ' | b'\t'..=b'\r')
}

fn ends_comment(b: u8) -> bool
    ensures { result ≡ ends_comment b }
{
    matches!(b, b'\n' | b'\r')
}

// the next byte outside comments
fn next_byte(s: &[u8], at: usize) -> Option<After<u8>>
    ensures { MatchOption result (glyphs_at s.now at ≡ [])
        (λ b. Next s.now at b.value b.at) }
{
    let mut comment = false;
    for i in at..s.len() {
        let value = s[i];
        if comment {
            comment = !ends_comment(value);
        } else if value == b'#' {
            comment = true;
        } else {
            return Some(After { value, at: i + 1 });
        }
    }
    None
}

// an answer with what was read: `Ok` where all of it was there
fn tell<T>(there: bool, read: T) -> Result<T, T>
    ensures { told result ≡ (there, read) }
{
    if there { Ok(read) } else { Err(read) }
}

// what was read, whether all of it was there or not
fn read_of<T>(r: Result<T, T>) -> T
    ensures { result ≡ (told r).1 }
{
    match r {
        Ok(read) | Err(read) => read,
    }
}

// where the white space from a place on ends
fn skip_spaces(s: &[u8], at: usize) -> Result<usize, usize>
    ensures { told result ≡ place_of (spaces_from false at (glyphs_at s.now at)) }
{
    let mut end = at;
    // a `while`: how far each step goes is what `next_byte` finds
    while let Some(byte) = next_byte(s, end)
        && is_space(byte.value)
    {
        end = byte.at;
    }
    tell(at < end, end)
}

// the digits from a place on
fn read_digits(s: &[u8], at: usize) -> Result<After<usize>, After<usize>>
    ensures { told result ≡ number_of (number_from false 0 at (glyphs_at s.now at)) }
{
    let mut value = 0;
    let mut end = at;
    // a `while`: how far each step goes is what `next_byte` finds
    while let Some(byte) = next_byte(s, end)
        && is_digit(byte.value)
    {
        value = with_digit(MOST_VALUE, value, byte.value);
        end = byte.at;
    }
    tell(at < end, After { value, at: end })
}

// a number with white space before it
fn next_number(s: &[u8], at: usize) -> Result<After<usize>, After<usize>>
    ensures { told result ≡ number_of (number_next s.now (found true 0 at)) }
{
    let gap = skip_spaces(s, at);
    let from = read_of(gap);
    let number = read_digits(s, from);
    tell(gap.is_ok() && number.is_ok(), read_of(number))
}

// one white space
fn read_end(s: &[u8], at: usize) -> Result<usize, usize>
    ensures { told result ≡ place_of (end_next s.now (found true 0 at)) }
{
    let Some(byte) = next_byte(s, at) else {
        return Err(at);
    };
    tell(is_space(byte.value), byte.at)
}

// the magic number, two bytes, and the size
fn read_size(s: &[u8], kind: u8) -> Result<After<Size>, After<Size>>
    ensures value { told result ≡ size_found s.now kind }
    ensures width_le_most_value { let size = (told result).1.value in
        (size.width ≤ most_value) × (size.height ≤ most_value) }
{
    let width = next_number(s, 2);
    let w = read_of(width);
    let height = next_number(s, w.at);
    let h = read_of(height);
    let value = Size {
        width: w.value,
        height: h.value,
    };
    let there = s.starts_with(&[b'P', kind]) && width.is_ok() && height.is_ok();
    tell(there, After { value, at: h.at })
}

// The header of a PBM, and the place after it; of what is none, the numbers that were read, and the place where reading
// stopped.
pub fn pbm_header(s: &[u8]) -> Result<After<NetpbmHeader>, After<NetpbmHeader>>
    ensures value { header_told result ≡ pbm_header s.now }
    ensures width_le_most_value { MatchResult result
        (λ h. (h.value.size.width ≤ most_value) × (h.value.size.height ≤ most_value))
        (λ h. (h.value.size.width ≤ most_value) × (h.value.size.height ≤ most_value)) }
{
    let size = read_size(s, b'4');
    let z = read_of(size);
    let end = read_end(s, z.at);
    let value = NetpbmHeader {
        size: z.value,
        maximum: 1,
    };
    let at = read_of(end);
    tell(size.is_ok() && end.is_ok(), After { value, at })
}

// The header of a PGM, and the place after it; of what is none, the same as of a PBM.
pub fn pgm_header(s: &[u8]) -> Result<After<NetpbmHeader>, After<NetpbmHeader>>
    ensures value { header_told result ≡ pgm_header s.now }
    ensures width_le_most_value { MatchResult result
        (λ h. (h.value.size.width ≤ most_value) × (h.value.size.height ≤ most_value))
        (λ h. (h.value.size.width ≤ most_value) × (h.value.size.height ≤ most_value)) }
{
    let size = read_size(s, b'5');
    let z = read_of(size);
    let maximum = next_number(s, z.at);
    let m = read_of(maximum);
    let end = read_end(s, m.at);
    let value = NetpbmHeader {
        size: z.value,
        maximum: m.value,
    };
    let there = size.is_ok() && maximum.is_ok() && end.is_ok();
    let at = read_of(end);
    tell(there, After { value, at })
}
