// The public call that reads a gray PFM (02, C-16). Everything is judged before anything is stored.
#![tactic(auto)]

ghost use Rattle.std.specs.Prelude.{◌≡◌, ◌+◌, ◌*◌, ◌≤◌, length, drop};
ghost use Rattle.model.specs.Calls.{Ends, placed_reply};
ghost use Rattle.model.specs.Netpbm.{InSize, cells_in};
ghost use Rattle.model.specs.Pfm.{size_in};
ghost use Rattle.model.specs.PfmCalls.{samples_call, read_pfm_call};

use model::{After, PfmHeader, Reason, Refused, Size};
use pfm_lines::{judge_lines, read_lines};
use pfm_raster::{first_no_shade, store_rows};

// the raster after these lines of a file, up to its end: 18, or its gray
#[tactic(auto, unfolding(model::specs::PfmCalls::samples_call))]
fn read_samples(lines: After<PfmHeader>, file: &[u8], gray: &mut [u8]) -> Result<PfmHeader, Refused>
    requires in_size { InSize (size_in lines.value) }
    requires file_len { length file.now ≡ lines.at + 4 * cells_in (size_in lines.value) }
    requires gray_len { cells_in (size_in lines.value) ≤ length gray.old }
    ensures { Ends
        (samples_call lines.value lines.at (drop lines.at file.now) gray.old)
        (placed_reply result)
        gray.new }
{
    let After { value: header, at } = lines;
    let size = Size {
        width: header.width,
        height: header.height,
    };
    let little = header.scale < 0.0;
    let raster = &file[at..];
    if let Some(i) = first_no_shade(little, raster, size.height * size.width) {
        return Err(Refused {
            reason: Reason::Sample,
            at: at + 4 * i,
        });
    }
    store_rows(size, little, raster, gray);
    Ok(header)
}

// Reads a gray PFM into gray that is long enough.
#[tactic(auto, unfolding(model::specs::PfmCalls::read_pfm_call))]
pub fn read_pfm(file: &[u8], gray: &mut [u8]) -> Result<PfmHeader, Refused>
    ensures { Ends (read_pfm_call file.now gray.old) (placed_reply result) gray.new }
{
    let lines = judge_lines(read_lines(file), file.len(), gray.len())?;
    read_samples(lines, file, gray)
}
