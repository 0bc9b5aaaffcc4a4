// The lines of a PFM, read as those of a sheet, and what they and the lengths are refused for.
#![tactic(auto)]

ghost use Rattle.std.specs.Prelude.{◌≡◌, Some, IfSome, MatchResult};
ghost use Rattle.model.specs.Netpbm.{InSize};
ghost use Rattle.model.specs.Pfm.{size_in};
ghost use Rattle.model.specs.PfmCalls.{scale_after, pfm_lines, pfm_refusals};
ghost use Rattle.model.specs.Reason.{number_of};
ghost use Rattle.model.specs.Refusal.{first_of};
ghost use Rattle.invariants.specs.Reading.{lines_in};

use model::{After, PfmHeader, Reason};
use sheet_fields::{read_field, read_fixed};

// the line of the scale after a size up to a place
fn read_scale(s: &[u8], at: usize, width: usize, height: usize) -> Option<After<PfmHeader>>
    ensures { lines_in result ≡ scale_after width height s.now at }
{
    let (scale, at) = match read_fixed(s, at, b"1.0\n") {
        Ok(end) => (1.0, end),
        Err(_) => (-1.0, read_fixed(s, at, b"-1.0\n").ok()?),
    };
    let value = PfmHeader {
        width,
        height,
        scale,
    };
    Some(After { value, at })
}

// Reads the lines `Pf`, `W H` and `1.0` or `-1.0`.
#[tactic(auto, unfolding(model::specs::PfmCalls::pfm_lines, model::specs::PfmCalls::size_parts))]
pub fn read_lines(s: &[u8]) -> Option<After<PfmHeader>>
    ensures { lines_in result ≡ pfm_lines s.now }
{
    let line = read_fixed(s, 0, b"Pf\n").ok()?;
    let width = read_field(s, line, 1, 256, b' ').ok()?;
    let height = read_field(s, width.at, 1, 256, b'\n').ok()?;
    read_scale(s, height.at, width.value, height.value)
}

// 17 and 12, of a file and a buffer of these lengths: the lines that were found, where nothing is refused.
pub fn judge_lines(
    lines: Option<After<PfmHeader>>,
    file: usize,
    room: usize,
) -> Result<After<PfmHeader>, Reason>
    requires { IfSome lines (λ l. InSize (size_in l.value)) }
    ensures { let number = first_of (pfm_refusals (lines_in lines) file room) in
        MatchResult result (λ l. (number ≡ 0) × (lines ≡ Some l)) (λ r. number_of r ≡ number) }
{
    let found = lines.ok_or(Reason::Pfm)?;
    let cells = found.value.height * found.value.width;
    if file.checked_sub(found.at) != Some(4 * cells) {
        return Err(Reason::Pfm);
    }
    if room < cells {
        return Err(Reason::Room);
    }
    Ok(found)
}
