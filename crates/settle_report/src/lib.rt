// The lines that the program `settle` prints beside a sheet: a refusal, and the two lines of the ledger.
#![tactic(auto)]

ghost use Rattle.std.specs.Prelude.{◌≡◌, ◌+◌, ◌≤◌, length};
ghost use Rattle.model.specs.Text.{Puts};
ghost use Rattle.model.specs.Program.{refused_text, stats_text, most_printed, Prints};

use model::ConvergeResult;
use sheet_write::{put_field, put_row};
use slices::put_bytes;
use text_decimal::put_number;

// Puts `refused N at B` at the front of an output that is long enough.
#[tactic(auto, using(crate::proofs::Lengths::digits_most))]
pub fn put_refused(out: &mut [u8], number: u32, at: usize) -> usize
    requires { most_printed ≤ length out.old }
    ensures { Prints (refused_text number at) out.old out.new result }
{
    let word = put_bytes(out, 0, b"refused ");
    // cast, since usize is From no larger type than u16
    let numbered = put_number(out, word, number as usize);
    let placed = put_bytes(out, numbered, b" at ");
    put_field(out, placed, at, b'\n')
}

// Puts the two lines of the ledger at a place.
pub fn put_stats(out: &mut [u8], at: usize, res: ConvergeResult) -> usize
    requires { at + 192 ≤ length out.old }
    ensures { Puts (stats_text res) out.old out.new at result × (result ≤ at + 192) }
{
    let figures = res.stats.figures;
    // the squared errors, which are never below 0
    let before = usize::try_from(figures.start_error).unwrap_or(0);
    let after = usize::try_from(res.stats.error).unwrap_or(0);
    // the counts are cast, since usize is From no larger type than u16
    let values = [
        before,
        after,
        figures.on as usize,
        figures.off as usize,
        figures.swaps as usize,
        res.scans as usize,
    ];
    let names = put_bytes(out, at, b"before after on off swaps scans\n");
    put_row(out, names, &values)
}
