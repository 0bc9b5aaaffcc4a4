// Judging what the calls for PBM and PGM files are handed: each function answers the first refusal that is drawn.
#![tactic(auto)]

ghost use Rattle.std.specs.Prelude.{[], ◌∷◌, ◌++◌, ◌≡◌, ◌≤◌, length, Some, IfSome, MatchResult};
ghost use Rattle.model.specs.Reason.{number_of, drawn};
ghost use Rattle.model.specs.Refusal.{first_of, bad_size, bad_dot};
ghost use Rattle.model.specs.PictureHeader.{most_value};
ghost use Rattle.model.specs.PictureCalls.{bad_layout, bad_room, picture_refusals, pbm_refusals, pgm_refusals};
ghost use Rattle.model.specs.PictureCalls.{count_rows_refusals};
ghost use Rattle.invariants.specs.Pictures.{header_in};
ghost use Rattle.picture_judge.specs.Found.{header_found};

use judge_parts::judge_dots;
use model::{After, NetpbmHeader, Reason, Size};

// 1
fn judge_size(size: Size) -> Result<(), Reason>
    ensures { drawn result ≡ first_of (bad_size size.width size.height ∷ []) }
{
    if !(1..=256).contains(&size.width) || !(1..=256).contains(&size.height) {
        return Err(Reason::Size);
    }
    Ok(())
}

// 14, of a file of that length
fn judge_layout(h: After<NetpbmHeader>, raster: usize, file: usize) -> Result<(), Reason>
    ensures { drawn result ≡ first_of (bad_layout (header_in h) raster file ∷ []) }
{
    if judge_size(h.value.size).is_err()
        || !(1..=65535).contains(&h.value.maximum)
        || file < h.at
        || file - h.at != raster
    {
        return Err(Reason::Layout);
    }
    Ok(())
}

// 12
pub fn judge_room(needed: usize, room: usize) -> Result<(), Reason>
    ensures { drawn result ≡ first_of (bad_room needed room ∷ []) }
{
    if room < needed {
        return Err(Reason::Room);
    }
    Ok(())
}

// The whole list of reading a PBM: the header that was found, where nothing is refused.
pub fn judge_pbm(
    pbm: Option<After<NetpbmHeader>>,
    file: usize,
    room: usize,
) -> Result<After<NetpbmHeader>, Reason>
    requires { IfSome pbm (λ h. (h.value.size.width ≤ most_value) × (h.value.size.height ≤ most_value)) }
    ensures { let number = first_of (pbm_refusals (header_found pbm) file room) in
        MatchResult result (λ h. (number ≡ 0) × (pbm ≡ Some h)) (λ r. number_of r ≡ number) }
{
    let h = pbm.ok_or(Reason::Layout)?;
    let Size { width, height } = h.value.size;
    judge_layout(h, height * width.div_ceil(8), file)?;
    judge_room(height * width, room)?;
    Ok(h)
}

// The whole list of reading a PGM: the header that was found, where nothing is refused.
pub fn judge_pgm(
    pgm: Option<After<NetpbmHeader>>,
    file: usize,
    room: usize,
) -> Result<After<NetpbmHeader>, Reason>
    requires { IfSome pgm (λ h. (h.value.size.width ≤ most_value) × (h.value.size.height ≤ most_value)) }
    ensures { let number = first_of (pgm_refusals (header_found pgm) file room) in
        MatchResult result (λ h. (number ≡ 0) × (pgm ≡ Some h)) (λ r. number_of r ≡ number) }
{
    let h = pgm.ok_or(Reason::Layout)?;
    let cells = h.value.size.height * h.value.size.width;
    judge_layout(h, cells, file)?;
    if h.value.maximum != 255 {
        return Err(Reason::Maximum);
    }
    judge_room(cells, room)?;
    Ok(h)
}

// 1 and 5, of a picture of so many cells.
pub fn judge_picture(size: Size, cells: usize) -> Result<(), Reason>
    ensures { drawn result ≡ first_of (picture_refusals size cells) }
{
    judge_size(size)?;
    if cells != size.height * size.width {
        return Err(Reason::Length);
    }
    Ok(())
}

// 1, 5 and 7.
pub fn judge_bits(size: Size, dots: &[u8]) -> Result<(), Reason>
    ensures { drawn result
        ≡ first_of (picture_refusals size (length dots.now) ++ (bad_dot dots.now ∷ [])) }
{
    judge_picture(size, dots.len())?;
    judge_dots(dots)
}

// The whole list of counting rows.
pub fn judge_rows(size: Size, raster: usize, counts: usize) -> Result<(), Reason>
    ensures { drawn result ≡ first_of (count_rows_refusals size raster counts) }
{
    judge_size(size)?;
    if raster != size.height * size.width.div_ceil(8) || counts != size.height {
        return Err(Reason::Length);
    }
    Ok(())
}
