// Reading what follows line 2 of a filed sheet: the blocks of a sheet, then the two lines with the six figures. It is
// judged whole before anything is stored.
#![tactic(auto)]

ghost use Rattle.std.specs.Prelude.{[], ◌≡◌};
ghost use Rattle.model.specs.Psf.{total};
ghost use Rattle.model.specs.Format.{body, field_at, parse, place_of, sheet_of};
ghost use Rattle.model.specs.Filed.{most_figure, figure_parts, figures_of, filed_room};
ghost use Rattle.invariants.specs.Reading.{place_in, field_in, filed_end};
ghost use Rattle.filed_read.specs.End.{end_in};

use model::{After, FiledFigures, Refused};
use sheet_fields::{read_field, read_fixed, store_block};
use sheet_read::{Layout, Unread, judge_blocks, judge_end};
use slices::sum;

// one of the six figures, and the byte that ends it
fn read_figure(s: &[u8], at: usize, end: u8) -> Result<After<u64>, Refused>
    ensures { field_in result ≡ field_at 0 most_figure end s.now at }
{
    let figure = read_field(s, at, 0, 9223372036854775807, end)?;
    Ok(After {
        value: figure.value as u64,
        at: figure.at,
    })
}

// the two lines up to a refusal, the figures one by one
#[tactic(auto, unfolding(model::specs::Filed::figure_parts))]
fn read_figures(s: &[u8], at: usize, f: &mut FiledFigures) -> Result<usize, Refused>
    requires { f.old ≡ figures_of [] }
    ensures at { place_in result ≡ place_of (parse figure_parts s.now at) }
    ensures read { f.new ≡ figures_of (parse figure_parts s.now at).values }
{
    let names = read_fixed(s, at, b"before after on off swaps scans\n")?;
    let before = read_figure(s, names, b' ')?;
    f.before = before.value;
    let after = read_figure(s, before.at, b' ')?;
    f.after = after.value;
    let on = read_figure(s, after.at, b' ')?;
    f.on = on.value;
    let off = read_figure(s, on.at, b' ')?;
    f.off = off.value;
    let swaps = read_figure(s, off.at, b' ')?;
    f.swaps = swaps.value;
    let scans = read_figure(s, swaps.at, b'\n')?;
    f.scans = scans.value;
    Ok(scans.at)
}

// all that follows line 2 up to a refusal, with the figures
fn judge_lines(s: &[u8], at: usize, m: Layout, f: &mut FiledFigures) -> Result<usize, Refused>
    requires { f.old ≡ figures_of [] }
    ensures { let p = place_in result in
        record { refusal = p.refusal; at = p.at; figures = f.new } ≡ filed_end m.measures s.now at }
{
    let lines = judge_blocks(s, at, m)?;
    let end = read_figures(s, lines, f);
    judge_end(s, end)
}

// Judges all that follows line 2, and reads the figures; a refusal has the figures before it.
pub fn judge_filed(
    s: &[u8],
    at: usize,
    m: Layout,
) -> Result<After<FiledFigures>, Unread<FiledFigures>>
    ensures { end_in result ≡ filed_end m.measures s.now at }
{
    let mut figures = FiledFigures {
        before: 0,
        after: 0,
        on: 0,
        off: 0,
        swaps: 0,
        scans: 0,
    };
    match judge_lines(s, at, m, &mut figures) {
        Ok(at) => Ok(After { value: figures, at }),
        Err(refused) => Err(Unread {
            refused,
            so_far: figures,
        }),
    }
}

// Whether buffers of these lengths are long enough.
pub fn has_filed_room(m: Layout, psf: usize, gray: usize, dots: usize, table: usize) -> bool
    ensures { result ≡ filed_room psf gray dots table m.measures }
{
    m.has_room(psf, gray, dots) && m.cells() <= table
}

// The sum of the psf, whose block was judged good; nothing lent is touched.
pub fn psf_sum(s: &[u8], at: usize, m: Layout) -> usize
    requires { (parse (body m.measures) s.now at).refusal ≡ 0 }
    ensures { result ≡ total (sheet_of m.measures (parse (body m.measures) s.now at).values).psf }
{
    // the most entries that a psf has: the library has no heap
    let mut psf = [0u8; 49];
    let n = m.entries();
    store_block(s, at, b"psf", m.side(), n, 255, &mut psf);
    sum(&psf[..n])
}
