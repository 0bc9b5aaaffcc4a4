// The public calls that read and write a sheet.
#![tactic(auto)]

ghost use Rattle.model.specs.Calls.{Ends, placed_reply};
ghost use Rattle.model.specs.SheetCalls.{sheet_buffers, read_call, write_call};

use judge_input::judge_sheet;
use model::{Measures, Reason, Refused, Setting};
use sheet_read::{judge_body, read_head, store_body};
use sheet_write::{put_sheet, sheet_length};

// Reads a sheet into buffers that are long enough. The whole sheet is judged before anything is stored.
#[tactic(auto, using(sheet_read::proofs::Blocks::blocks_good), unfolding(model::specs::SheetCalls::read_call, model::specs::Format::read_sheet))]
pub fn read_sheet(
    bytes: &[u8],
    psf: &mut [u8],
    gray: &mut [u8],
    dots: &mut [u8],
) -> Result<Measures, Refused>
    ensures { Ends (read_call bytes.now psf.old gray.old dots.old)
        (placed_reply result) (sheet_buffers psf.new gray.new dots.new) }
{
    let head = read_head(bytes, 0)?;
    let layout = head.value;
    if !layout.has_room(psf.len(), gray.len(), dots.len()) {
        return Err(Refused {
            reason: Reason::Room,
            at: head.at,
        });
    }
    judge_body(bytes, head.at, layout)?;
    store_body(bytes, head.at, layout, psf, gray, dots);
    Ok(layout.measures)
}

// Writes a sheet with start 2 into an output that is long enough.
#[tactic(auto, using(model::proofs::Sheet::written_shaped, model::proofs::Puts::front_length), unfolding(model::specs::SheetCalls::write_call))]
pub fn write_sheet(setting: Setting, dots: &[u8], out: &mut [u8]) -> Result<usize, Refused>
    ensures { let s = setting.entry in
        Ends (write_call s.measures s.psf.now s.gray.now dots.now out.old)
        (placed_reply result) out.new }
{
    judge_sheet(setting, dots)?;
    if out.len() < sheet_length(setting, dots) {
        return Err(Refused {
            reason: Reason::Room,
            at: out.len(),
        });
    }
    Ok(put_sheet(out, setting, dots))
}
