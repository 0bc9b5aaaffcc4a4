// Settling of a judged plate whose kernel is c, by its two scans.
#![tactic(auto)]

ghost use Rattle.model.specs.Reference.{reference};
ghost use Rattle.model.specs.Scan.{converge};
ghost use Rattle.model.specs.Setting.{target_in};
ghost use Rattle.invariants.specs.Plate.{ReadyIn, Leaves};

use model::{ConvergeResult, Setting, Stats};
use search_swaps::swap_all;
use search_toggles::toggle_all;

// A settling: toggle scans until one accepts nothing, then one swap scan; if that accepted something, again.
pub fn come_to_rest(
    setting: Setting,
    c: &[i32],
    dots: &mut [u8],
    table: &mut [i32],
    stats: Stats,
) -> ConvergeResult
    requires { ReadyIn setting c.now dots.old table.old stats }
    ensures { let t = target_in setting.entry in
        Leaves t (converge t setting.entry.measures.reach (reference dots.old stats))
        result dots.new table.new }
{
    let mut now = stats;
    let mut scans: u64 = 0;
    // a `loop`, since how many turns there are is a fact of the plate
    loop {
        let toggled = toggle_all(setting, c, dots, table, now);
        now = toggled.stats;
        scans += 1;
        if toggled.changes == 0 {
            let swapped = swap_all(setting, c, dots, table, now);
            now = swapped.stats;
            scans += 1;
            if swapped.changes == 0 {
                return ConvergeResult { stats: now, scans };
            }
        }
    }
}
