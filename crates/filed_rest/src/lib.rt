// Whether a plate that a start takes is at rest: a toggle scan and a swap scan of a copy accept nothing.
#![tactic(auto)]

ghost use Rattle.std.specs.Prelude.{◌≡◌};
ghost use Rattle.model.specs.FiledCalls.{rests};
ghost use Rattle.model.specs.Setting.{target_in};
ghost use Rattle.filed_rest.specs.Measured.{Startable};

use filter_correlate::kernel;
use judge_parts::known_bytes;
use model::{MOST_CELLS, Setting};
use search_swaps::swap_all;
use search_toggles::toggle_all;
use starts_screen::fresh;

// whether both scans accept nothing, of dots and a table that they may change
fn scans_clear(setting: Setting, dots: &mut [u8], table: &mut [i32], squared: i64) -> bool
    requires { Startable setting.measures setting.psf.now setting.gray.now dots.old table.old squared }
    ensures { result ≡ rests (target_in setting.entry) setting.entry.measures.reach dots.old }
{
    known_bytes(setting.gray);
    let c = kernel(setting.measures.radius, setting.psf);
    let stats = fresh(dots, squared);
    let toggled = toggle_all(setting, &c, dots, table, stats);
    if toggled.changes != 0 {
        return false;
    }
    let swapped = swap_all(setting, &c, dots, table, toggled.stats);
    swapped.changes == 0
}

// Whether a plate that a start takes, with its table and its squared error, is at rest.
pub fn at_rest(setting: Setting, dots: &[u8], table: &[i32], squared: i64) -> bool
    requires { Startable setting.measures setting.psf.now setting.gray.now dots.now table.now squared }
    ensures { result ≡ rests (target_in setting.entry) setting.entry.measures.reach dots.now }
{
    let n = dots.len();
    let mut some_dots = [0u8; MOST_CELLS];
    let mut some_table = [0i32; MOST_CELLS];
    some_dots[..n].copy_from_slice(dots);
    some_table[..n].copy_from_slice(table);
    scans_clear(setting, &mut some_dots[..n], &mut some_table[..n], squared)
}
