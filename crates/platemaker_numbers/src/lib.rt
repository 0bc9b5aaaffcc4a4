// Ledgers and measures in slices of numbers, and the version of the library, for the C interface.
#![tactic(auto)]

ghost use Rattle.std.specs.Prelude.{◌≡◌, length, OnOk};
ghost use Rattle.model.specs.Interface.{measures_size, measures_in, stats_size, stats_numbers, stats_in, slice_refusal};
ghost use Rattle.model.specs.Interface.{version};
ghost use Rattle.model.specs.Ledger.{count_of};
ghost use Rattle.model.specs.Reason.{drawn};
ghost use Rattle.model.specs.Sheet.{values_of};
ghost use Rattle.platemaker_numbers.specs.Storable.{Storable};

use judge_parts::judge_all_measures;
use model::{Figures, Measures, Reason, Stats};

// a count of a ledger: the greatest number of 64 bits for what is below 0
fn count_of(x: i64) -> u64
    ensures { result ≡ count_of x }
{
    u64::try_from(x).unwrap_or(u64::MAX)
}

// the ledger in a slice of numbers
#[tactic(auto, unfolding(model::specs::Interface::stats_in))]
pub fn stats_of(numbers: &[i64]) -> Stats
    requires { length numbers.now ≡ stats_size }
    ensures { result ≡ stats_in numbers.now }
{
    Stats {
        error: numbers[1],
        figures: Figures {
            start_error: numbers[0],
            start_dots: count_of(numbers[2]),
            on: count_of(numbers[3]),
            off: count_of(numbers[4]),
            swaps: count_of(numbers[5]),
        },
    }
}

// a ledger into a slice of numbers
pub fn store_stats(out: &mut [i64], stats: Stats)
    requires out_len { length out.old ≡ stats_size }
    requires storable { Storable stats }
    ensures { out.new ≡ stats_numbers stats }
{
    let figures = stats.figures;
    out.copy_from_slice(&[
        figures.start_error,
        stats.error,
        figures.start_dots as i64,
        figures.on as i64,
        figures.off as i64,
        figures.swaps as i64,
    ]);
}

// the measures in a slice of numbers
#[tactic(auto, unfolding(model::specs::Interface::measures_in))]
pub fn measures_of(numbers: &[usize]) -> Measures
    requires { length numbers.now ≡ measures_size }
    ensures { result ≡ measures_in numbers.now }
{
    Measures {
        width: numbers[0],
        height: numbers[1],
        radius: numbers[2],
        reach: numbers[3],
        start: numbers[4],
    }
}

// measures into a slice of numbers
pub fn store_measures(out: &mut [usize], measures: Measures)
    requires { length out.old ≡ measures_size }
    ensures { out.new ≡ values_of measures }
{
    out.copy_from_slice(&[
        measures.width,
        measures.height,
        measures.radius,
        measures.reach,
        measures.start,
    ]);
}

// 5 for a slice that is to hold measures, 1 to 4 for these, and 5 for one that is to hold a ledger
#[tactic(auto, unfolding(model::specs::Interface::slice_refusal))]
pub fn judge_numbers(measures: &[usize], stats: &[i64]) -> Result<(), Reason>
    ensures drawn { drawn result ≡ slice_refusal measures.now stats.now }
    ensures sized { OnOk result ((length measures.now ≡ measures_size) × (length stats.now ≡ stats_size)) }
{
    if measures.len() != 5 {
        return Err(Reason::Length);
    }
    judge_all_measures(measures_of(measures))?;
    if stats.len() != 6 {
        return Err(Reason::Length);
    }
    Ok(())
}

// the version of the library
pub fn version_number() -> u32
    ensures { result ≡ version }
{
    3001000
}
