// The answers of pictures laid out for the C interface: each function answers the status, 0 or the refusal number, and
// stores the rest behind pointers.
#![tactic(auto)]

ghost use Rattle.model.specs.Calls.{reply_of, placed_reply};
ghost use Rattle.model.specs.Interface.{Lays, picture_behind, pfm_behind};

use model::{PfmHeader, Reason, Refused, Size};

// lays the answer of reading a picture out: its status, with width and height
pub fn lay_picture(answer: Result<Size, Reason>, width: &mut usize, height: &mut usize) -> u32
    ensures { Lays (reply_of answer) picture_behind (width.old, height.old) result
        (width.new, height.new) }
{
    match answer {
        Ok(size) => {
            *width = size.width;
            *height = size.height;
            0
        }
        Err(reason) => reason.into(),
    }
}

// the same of reading a PFM, with width, height and scale, or with 18 the byte offset
pub fn lay_pfm(
    answer: Result<PfmHeader, Refused>,
    width: &mut usize,
    height: &mut usize,
    scale: &mut f32,
    offset: &mut usize,
) -> u32
    ensures { Lays (placed_reply answer) pfm_behind
        (width.old, height.old, scale.old, offset.old) result
        (width.new, height.new, scale.new, offset.new) }
{
    match answer {
        Ok(header) => {
            *width = header.width;
            *height = header.height;
            *scale = header.scale;
            0
        }
        Err(refused) => {
            if refused.reason == Reason::Sample {
                *offset = refused.at;
            }
            refused.reason.into()
        }
    }
}
