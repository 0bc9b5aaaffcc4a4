// What the program `settle` does between its input and its output.
#![tactic(auto)]

ghost use Rattle.std.specs.Prelude.{◌≡◌, ◌≤◌, pos, length, take, replicate};
ghost use Rattle.model.specs.Calls.{result as answered, reply_of};
ghost use Rattle.model.specs.Sheet.{entries_of, cells_of, InRange};
ghost use Rattle.model.specs.Program.{converged_text, processed_text, most_printed, Prints, output};
ghost use Rattle.settle_program.specs.Printable.{Printable, Told};

use model::{ConvergeResult, MOST_PRINTED, Measures, Reason, Refused, Setting};
use search::converge;
use settle_report::{put_refused, put_stats};
use sheet::read_sheet;
use sheet_write::put_sheet;
use starts::start;

// The most bytes of an input that is read.
const MOST_INPUT: usize = 32768;

// puts the sheet and the two lines of the ledger
fn put_result(setting: Setting, dots: &[u8], done: ConvergeResult, out: &mut [u8]) -> usize
    requires { Printable setting dots.now out.old }
    ensures { let s = setting.entry in
        Prints (converged_text s.measures s.psf.now s.gray.now (answered done) dots.now) out.old out.new result }
{
    let end = put_sheet(out, setting, dots);
    put_stats(out, end, done)
}

// starts, and lets the dots with their table come to rest
fn come_to_rest(
    setting: Setting,
    dots: &mut [u8],
    table: &mut [i32],
) -> Result<ConvergeResult, Reason>
    ensures { let s = setting.entry in
        processed_text s.measures s.psf.now s.gray.now dots.old table.old
        ≡ converged_text s.measures s.psf.now s.gray.now (reply_of result) dots.new }
{
    let stats = start(setting, dots, table)?;
    converge(setting, dots, table, stats)
}

// starts with what stands at the front of the buffers
fn process(
    measures: Measures,
    psf: &[u8],
    gray: &[u8],
    dots: &mut [u8],
    out: &mut [u8],
) -> Result<usize, Refused>
    requires in_range { InRange measures × (cells_of measures ≤ 4096) × (most_printed ≤ length out.old) }
    requires m_in_bounds { (entries_of measures ≤ length psf.now) × (cells_of measures ≤ length gray.now)
        × (cells_of measures ≤ length dots.old) }
    ensures { Told (processed_text measures (take (entries_of measures) psf.now)
        (take (cells_of measures) gray.now) (take (cells_of measures) dots.old) (replicate (cells_of measures) (pos 0)))
        out.old out.new result }
{
    let side = 2 * measures.radius + 1;
    let cells = measures.height * measures.width;
    let setting = Setting {
        measures,
        psf: &psf[..side * side],
        gray: &gray[..cells],
    };
    let dots = &mut dots[..cells];
    let mut table = [0i32; 4096];
    let done = come_to_rest(setting, dots, &mut table[..cells])?;
    Ok(put_result(setting, dots, done, out))
}

// reads a sheet, lets its plate come to rest, and puts what is printed of that, unless it is refused
fn settle(input: &[u8], out: &mut [u8]) -> Result<usize, Refused>
    requires { most_printed ≤ length out.old }
    ensures { Told (output input.now) out.old out.new result }
{
    if MOST_INPUT < input.len() {
        return Err(Reason::Input.into());
    }
    let mut psf = [0u8; 49];
    let mut gray = [0u8; 4096];
    let mut dots = [0u8; 4096];
    let measures = read_sheet(input, &mut psf, &mut gray, &mut dots)?;
    process(measures, &psf, &gray, &mut dots, out)
}

// Puts what is printed for an input at the front of an output of 40,960 bytes, and answers its length.
pub fn run(input: &[u8], out: &mut [u8; MOST_PRINTED]) -> usize
    ensures printed { Prints (output input.now) out.old out.new result }
    ensures within { (result ≤ length out.new) × (result ≡ length (take result out.new)) }
{
    match settle(input, out) {
        Ok(end) => end,
        Err(refused) => put_refused(out, refused.reason.into(), refused.at),
    }
}
