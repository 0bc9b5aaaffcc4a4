// The public call that checks a filed sheet: does the filed figure belong to the filed dots?
#![tactic(auto)]

ghost use Rattle.std.specs.Prelude.{◌≡◌, ◌≤◌, length};
ghost use Rattle.std.proofs.lemmas.List.Edits.{sets};
ghost use Rattle.model.specs.Basic.{AtMost};
ghost use Rattle.model.specs.Error.{filtered_errors};
ghost use Rattle.model.specs.Refusal.{PlateFits};
ghost use Rattle.model.specs.Calls.{Ends};
ghost use Rattle.model.specs.Sheet.{cells_of};
ghost use Rattle.model.specs.Program.{sheet_target};
ghost use Rattle.model.specs.Filed.{most_figure, figures_in};
ghost use Rattle.model.specs.FiledCalls.{verdict_of, verdict_in, checked_of, check_buffers, check_call};
ghost use Rattle.filed.specs.Front.{front_of};

use filed_judge::judge_plate;
use filed_read::{has_filed_room, judge_filed, psf_sum};
use model::{FiledFigures, Reason, Refused, Setting, Verdict};
use sheet_read::{Layout, read_head, store_body};

// all the verdicts of a sheet in the fronts of buffers; the front of the table is filled
fn judge_front(
    m: Layout,
    psf: &[u8],
    gray: &[u8],
    dots: &[u8],
    table: &mut [i32],
    f: FiledFigures,
) -> Verdict
    requires given { (m.measures.start ≡ 2) × (cells_of m.measures ≤ length table.old) × AtMost most_figure (figures_in f) }
    requires fits { let s = front_of m.measures psf.now gray.now dots.now in
        PlateFits m.measures s.psf s.gray s.dots (cells_of m.measures) }
    ensures value { verdict_in result ≡ verdict_of (front_of m.measures psf.now gray.now dots.now) f }
    ensures table_after { let s = front_of m.measures psf.now gray.now dots.now in
        table.new ≡ sets table.old 0 (filtered_errors (sheet_target s) s.dots) }
{
    let k = m.entries();
    let n = m.cells();
    let setting = Setting {
        measures: m.measures,
        psf: &psf[..k],
        gray: &gray[..n],
    };
    judge_plate(setting, &dots[..n], &mut table[..n], f)
}

// Checks a filed sheet, and leaves it with the table of its dots in buffers that are long enough. The whole sheet is
// judged before anything is stored.
pub fn check_filed(
    bytes: &[u8],
    psf: &mut [u8],
    gray: &mut [u8],
    dots: &mut [u8],
    table: &mut [i32],
) -> Result<Verdict, Refused>
    ensures { Ends (check_call bytes.now psf.old gray.old dots.old
        table.old) (checked_of result) (check_buffers psf.new gray.new dots.new
        table.new) }
{
    let head = read_head(bytes, 2)?;
    let m = head.value;
    if !has_filed_room(m, psf.len(), gray.len(), dots.len(), table.len()) {
        return Err(Refused {
            reason: Reason::Room,
            at: head.at,
        });
    }
    let figures = judge_filed(bytes, head.at, m)?;
    let sum = psf_sum(bytes, head.at, m);
    if sum == 0 || 1024 < sum {
        return Err(Refused {
            reason: Reason::Sum,
            at: 0,
        });
    }
    store_body(bytes, head.at, m, psf, gray, dots);
    Ok(judge_front(m, psf, gray, dots, table, figures.value))
}
