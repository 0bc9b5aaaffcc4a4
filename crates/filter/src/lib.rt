// The public calls for the autocorrelation, the filtered error (document 01: the table) and the squared error. Each
// judges what it is handed, and only then works; a refusal changes nothing.
#![tactic(auto)]

ghost use Rattle.std.specs.Prelude.{◌≡◌};
ghost use Rattle.model.specs.Calls.{Ends, reply_of, autocorrelation_call, filtered_error_call, squared_error_call};

use judge_input::{judge_autocorrelation, judge_halftone};
use model::{MOST_CELLS, Reason};

// The (4r + 1)² values of the autocorrelation of a psf of radius r, row by row, into `out`.
#[tactic(auto, unfolding(model::specs::Calls::autocorrelation_call))]
pub fn autocorrelation(radius: usize, psf: &[u8], out: &mut [i32]) -> Result<(), Reason>
    ensures { Ends (autocorrelation_call radius psf.now out.old)
        (reply_of result) out.new }
{
    judge_autocorrelation(radius, psf, out.len())?;
    filter_correlate::autocorrelate(radius, psf, out);
    Ok(())
}

// The filtered error of every cell, into `table`.
#[tactic(auto, unfolding(model::specs::Calls::filtered_error_call))]
pub fn filtered_error(
    width: usize,
    height: usize,
    radius: usize,
    psf: &[u8],
    gray: &[u8],
    dots: &[u8],
    table: &mut [i32],
) -> Result<(), Reason>
    ensures { Ends (filtered_error_call width height radius psf.now gray.now
        dots.now table.old) (reply_of result) table.new }
{
    judge_halftone(width, height, radius, psf, gray, dots, table.len())?;
    filter_sums::filter(width, height, radius, psf, gray, dots, table);
    Ok(())
}

// The squared error. It is lent no table, so it is judged with the gray slice in the table's place.
#[tactic(auto, unfolding(model::specs::Calls::squared_error_call))]
pub fn squared_error(
    width: usize,
    height: usize,
    radius: usize,
    psf: &[u8],
    gray: &[u8],
    dots: &[u8],
) -> Result<i64, Reason>
    ensures { reply_of result ≡ (squared_error_call width height radius
        psf.now gray.now dots.now).reply }
{
    judge_halftone(width, height, radius, psf, gray, dots, gray.len())?;
    let mut table = [0i32; MOST_CELLS];
    let error = filter_sums::square(width, height, radius, psf, gray, dots, &mut table);
    Ok(error)
}
