// The public calls that read and write PBM and PGM files, and count the dots of each row. Everything is judged before
// anything is stored.
#![tactic(auto)]

ghost use Rattle.model.specs.Calls.{Ends, reply_of};
ghost use Rattle.model.specs.PictureCalls.{read_pbm_call, read_pgm_call, write_pbm_call, write_pgm_call, count_rows_call};

use model::{Reason, Size};
use picture_count::count_packed;
use picture_header::{pbm_header, pgm_header};
use picture_judge::{judge_bits, judge_pbm, judge_pgm, judge_picture, judge_room, judge_rows};
use picture_lines::{pbm_length, pgm_length, put_pbm_head, put_pgm_head};
use picture_raster::{negate, pack_rows, unpack_rows};

// Reads a PBM into dots that are long enough.
#[tactic(auto, unfolding(model::specs::PictureCalls::read_pbm_call))]
pub fn read_pbm(file: &[u8], dots: &mut [u8]) -> Result<Size, Reason>
    ensures { Ends (read_pbm_call file.now dots.old) (reply_of result) dots.new }
{
    let header = judge_pbm(pbm_header(file).ok(), file.len(), dots.len())?;
    unpack_rows(header.value.size, &file[header.at..], dots);
    Ok(header.value.size)
}

// Reads a PGM into gray that is long enough.
#[tactic(auto, unfolding(model::specs::PictureCalls::read_pgm_call))]
pub fn read_pgm(file: &[u8], gray: &mut [u8]) -> Result<Size, Reason>
    ensures { Ends (read_pgm_call file.now gray.old) (reply_of result) gray.new }
{
    let header = judge_pgm(pgm_header(file).ok(), file.len(), gray.len())?;
    negate(&file[header.at..], gray);
    Ok(header.value.size)
}

// Writes dots as a PBM into an output that is long enough.
#[tactic(auto, unfolding(model::specs::PictureCalls::write_pbm_call))]
pub fn write_pbm(size: Size, dots: &[u8], out: &mut [u8]) -> Result<usize, Reason>
    ensures { Ends (write_pbm_call size dots.now out.old) (reply_of result) out.new }
{
    judge_bits(size, dots)?;
    let length = pbm_length(size);
    judge_room(length, out.len())?;
    let raster = put_pbm_head(out, size);
    pack_rows(size, dots, &mut out[raster..]);
    Ok(length)
}

// Writes gray as a PGM into an output that is long enough.
#[tactic(auto, unfolding(model::specs::PictureCalls::write_pgm_call))]
pub fn write_pgm(size: Size, gray: &[u8], out: &mut [u8]) -> Result<usize, Reason>
    ensures { Ends (write_pgm_call size gray.now out.old) (reply_of result) out.new }
{
    judge_picture(size, gray.len())?;
    let length = pgm_length(size);
    judge_room(length, out.len())?;
    let raster = put_pgm_head(out, size);
    negate(gray, &mut out[raster..]);
    Ok(length)
}

// Counts the dots of each row of a packed raster.
#[tactic(auto, unfolding(model::specs::PictureCalls::count_rows_call))]
pub fn count_rows(size: Size, raster: &[u8], counts: &mut [u32]) -> Result<(), Reason>
    ensures { Ends (count_rows_call size raster.now counts.old) (reply_of result) counts.new }
{
    judge_rows(size, raster.len(), counts.len())?;
    count_packed(size, raster, counts);
    Ok(())
}
