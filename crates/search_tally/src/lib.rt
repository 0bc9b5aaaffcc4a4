// The trials of a scan: the swaps weighed from a cell on up to the one that is taken, and the unlocked cells.
#![tactic(auto)]

ghost use Rattle.std.specs.Prelude.{not, ◌≡◌, ◌≤◌, ◌<◌, length, take};
ghost use Rattle.model.specs.Basic.{tabulate, one_if, pick};
ghost use Rattle.model.specs.Error.{target_for, most_cells};
ghost use Rattle.model.specs.Lock.{locked};
ghost use Rattle.model.specs.Partners.{offsets};
ghost use Rattle.model.specs.Psf.{total};
ghost use Rattle.model.specs.Refusal.{PlateFits};
ghost use Rattle.model.specs.Scan.{suits, swaps_by};
ghost use Rattle.model.specs.Setting.{target_in};
ghost use Rattle.invariants.specs.Partners.{offset_of, HoldsOffsets};
ghost use Rattle.invariants.specs.Plate.{OnPlate, OnWay, cell_of};
ghost use Rattle.invariants.specs.Trials.{most_trials, tallied};

use model::{Cell, Setting};
use search_count::span_trials;
use search_partners::partner_cell;
use slices::{index, is_locked};

// whether the partner at the offset of that code suits
fn suiting(setting: Setting, dots: &[u8], at: Cell, code: u8) -> bool
    requires { PlateFits setting.measures setting.psf.now setting.gray.now dots.now (length dots.now)
        × OnPlate setting.measures at }
    ensures { result ≡ suits (target_in setting.entry) dots.now (cell_of setting.entry.measures.width at) (offset_of code) }
{
    let m = index(setting.measures.width, at);
    let Some(n) = partner_cell(setting.measures.width, setting.measures.height, at, code) else {
        return false;
    };
    !is_locked(setting.gray[m]) && !is_locked(setting.gray[n]) && dots[m] != dots[n]
}

// the swaps weighed at a cell with the partners at the first k offsets, where none of these is accepted
fn weighed(setting: Setting, dots: &[u8], codes: &[u8], at: Cell, k: usize) -> u64
    requires plate_fits { PlateFits setting.measures setting.psf.now setting.gray.now dots.now (length dots.now)
        × OnPlate setting.measures at }
    requires holds_offsets { HoldsOffsets setting.measures.reach codes.now × (k ≤ length codes.now) }
    ensures { let m = setting.entry.measures in
        result ≡ length (swaps_by (target_in setting.entry) (take k (offsets m.reach)) dots.now (cell_of m.width at)) }
{
    let mut count = 0;
    for j in 0..k {
        if suiting(setting, dots, at, codes[j]) {
            count += 1;
        }
    }
    count
}

// The trials so far with those from a cell on, up to and with the one that is taken, or to the end of the plate where none
// is; as they were where they are not counted.
pub fn tally(
    counted: bool,
    setting: Setting,
    codes: &[u8],
    dots: &[u8],
    trials: u64,
    from: Cell,
    to: Cell,
    found: usize,
) -> u64
    requires plate_fits { PlateFits setting.measures setting.psf.now setting.gray.now dots.now (length dots.now)
        × HoldsOffsets setting.measures.reach codes.now }
    requires on_way { OnWay setting.measures from × OnWay setting.measures to
        × (cell_of setting.measures.width from ≤ cell_of setting.measures.width to) }
    requires found_in_bounds { (to.row < setting.measures.height → found < length codes.now) × (trials ≤ most_trials) }
    ensures { let m = setting.entry.measures in
        result ≡ pick counted (tallied (target_in setting.entry) m.reach dots.now trials (cell_of m.width from)
        (cell_of m.width to) found) trials }
{
    if !counted {
        return trials;
    }
    let past = trials + span_trials(setting, dots, from, to);
    if setting.measures.height <= to.row {
        return past;
    }
    past + weighed(setting, dots, codes, to, found) + 1
}

// how many cells are unlocked; counted in 32 bits, in which the loop is quicker
pub fn unlocked(gray: &[u8]) -> u64
    requires { length gray.now ≤ most_cells }
    ensures { result ≡ total (tabulate (length gray.now)
        (λ n. one_if (not (locked gray.now n)))) }
{
    let mut count: u32 = 0;
    for &here in gray {
        if !is_locked(here) {
            count += 1;
        }
    }
    u64::from(count)
}
