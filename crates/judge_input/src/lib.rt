// The lists of refusals because of the input, 1 to 7 and 16, of each call that is not a reader: each function answers
// the first that is drawn.
#![tactic(auto)]

ghost use Rattle.std.specs.Prelude.{[], ◌∷◌, ◌≡◌};
ghost use Rattle.model.specs.Reason.{drawn};
ghost use Rattle.model.specs.Refusal.{first_of, handed, input_refusals};
ghost use Rattle.model.specs.Refusal.{autocorrelation_refusal, halftone_refusal, start_refusal, write_refusal};

use judge_parts::{
    judge_all_measures, judge_dots, judge_lengths, judge_locks, judge_measures, judge_slices,
};
use model::{Measures, Reason, Setting};

// 1 to 6, of a call that is handed all five measures
pub fn judge_handed(
    measures: Measures,
    psf: &[u8],
    gray: usize,
    dots: usize,
    table: usize,
) -> Result<(), Reason>
    ensures { drawn result ≡ first_of (handed measures psf.now (gray ∷ dots ∷ table ∷ [])) }
{
    judge_all_measures(measures)?;
    let cells = measures.height * measures.width;
    judge_slices(measures.radius, psf, cells, gray, dots, table)
}

// 1 to 7 and 16, of a call that is handed a table of that length and a ledger
pub fn judge_later(setting: Setting, dots: &[u8], table: usize) -> Result<(), Reason>
    ensures { drawn result ≡ first_of
        (input_refusals setting.entry.measures setting.entry.psf.now setting.entry.gray.now dots.now table) }
{
    let gray = setting.gray;
    judge_handed(setting.measures, setting.psf, gray.len(), dots.len(), table)?;
    judge_dots(dots)?;
    judge_locks(gray, dots)
}

// the whole list of the filtered error, handed a table of that length
#[tactic(auto, unfolding(model::specs::Refusal::halftone_refusal))]
pub fn judge_halftone(
    width: usize,
    height: usize,
    radius: usize,
    psf: &[u8],
    gray: &[u8],
    dots: &[u8],
    table: usize,
) -> Result<(), Reason>
    ensures { drawn result ≡ halftone_refusal width height radius
        psf.now gray.now dots.now (table ∷ []) }
{
    judge_measures(width, height, radius)?;
    judge_slices(radius, psf, height * width, gray.len(), dots.len(), table)?;
    judge_dots(dots)
}

// the whole list of the autocorrelation, handed an output of that length
#[tactic(auto, unfolding(model::specs::Refusal::autocorrelation_refusal))]
pub fn judge_autocorrelation(radius: usize, psf: &[u8], out: usize) -> Result<(), Reason>
    ensures { drawn result ≡ autocorrelation_refusal radius psf.now out }
{
    if 3 < radius {
        return Err(Reason::Radius);
    }
    let side = 4 * radius + 1;
    judge_slices(radius, psf, side * side, out, out, out)
}

// the whole list of a start, handed a table of that length: kind 2 alone takes the dots given
#[tactic(auto, unfolding(model::specs::Refusal::start_refusal))]
pub fn judge_start(setting: Setting, dots: &[u8], table: usize) -> Result<(), Reason>
    ensures { drawn result ≡ start_refusal setting.entry.measures
        setting.entry.psf.now setting.entry.gray.now dots.now table }
{
    if setting.measures.start == 2 {
        return judge_later(setting, dots, table);
    }
    let gray = setting.gray.len();
    judge_handed(setting.measures, setting.psf, gray, dots.len(), table)
}

// the whole list of the writer of a sheet
#[tactic(auto, unfolding(model::specs::Refusal::write_refusal))]
pub fn judge_sheet(setting: Setting, dots: &[u8]) -> Result<(), Reason>
    ensures { drawn result ≡ write_refusal setting.entry.measures
        setting.entry.psf.now setting.entry.gray.now dots.now }
{
    let m = setting.measures;
    judge_all_measures(m)?;
    let cells = m.height * m.width;
    let (gray, given) = (setting.gray.len(), dots.len());
    judge_lengths(m.radius, setting.psf, cells, gray, given, given)?;
    judge_dots(dots)
}
