// Reading the lines of a sheet: lines 1 and 2, then the blocks of psf, gray and dots, judged first and stored after.
#![tactic(auto)]

ghost use Rattle.std.specs.Prelude.{true, [], ◌≡◌, ◌≤◌, length, OnOk, MatchResult};
ghost use Rattle.std.proofs.lemmas.List.Edits.{sets};
ghost use Rattle.model.specs.Error.{most_cells};
ghost use Rattle.model.specs.Sheet.{side_of, entries_of, cells_of, dots_in, names, InRange, room_for};
ghost use Rattle.model.specs.Format.{head_from, dots_block, body, fixed_at, parse, place_of, ended};
ghost use Rattle.model.specs.Format.{measures_of, head_by, sheet_of, body_end};
ghost use Rattle.model.specs.SheetCalls.{sheet_buffers, stored};
ghost use Rattle.invariants.specs.Reading.{place_in};
ghost use Rattle.sheet_read.specs.Head.{head_in};

use model::{After, Measures, Reason, Refused};
use sheet_fields::{judge_block, read_field, read_name, store_block};

// A refusal, with what was read before it: 0 for what was not.
#[derive(Clone, Copy)]
pub struct Unread<T> {
    pub refused: Refused,
    pub so_far: T,
}

impl<T: Copy> From<Unread<T>> for Refused {
    ghost from_gives = { λ u e. e ≡ u.refused };

    fn from(unread: Unread<T>) -> Refused {
        unread.refused
    }
}

// The measures of a sheet, each in its field.
#[derive(Clone, Copy)]
pub struct Layout {
    pub measures: Measures,
    pub ghost in_range: { InRange measures },
}

impl Layout {
    // How long a row of the psf is.
    pub fn side(self) -> usize
        ensures { (result ≡ side_of self.measures) × (1 ≤ result) × (result ≤ 7) }
    {
        2 * self.measures.radius + 1
    }

    // How many entries the psf has.
    pub fn entries(self) -> usize
        ensures { (result ≡ entries_of self.measures) × (result ≤ 49) }
    {
        self.side() * self.side()
    }

    // How many cells there are.
    pub fn cells(self) -> usize
        ensures { (result ≡ cells_of self.measures) × (result ≤ most_cells) }
    {
        self.measures.height * self.measures.width
    }

    // How many dots stand in the sheet: those of all cells with start 2, else none.
    pub fn dots(self) -> usize
        ensures { (result ≡ dots_in self.measures) × (result ≤ most_cells) }
    {
        if self.measures.start == 2 {
            self.cells()
        } else {
            0
        }
    }

    // Whether buffers of these lengths are long enough.
    pub fn has_room(self, psf: usize, gray: usize, dots: usize) -> bool
        ensures { result ≡ room_for self.measures psf gray dots }
    {
        self.entries() <= psf && self.cells() <= gray && self.dots() <= dots
    }
}

// line 1; laid into `read_head`, and that into its callers, which so need less stack
#[inline(always)]
fn read_names(s: &[u8]) -> Result<usize, Refused>
    ensures { place_in result ≡ fixed_at names s.now 0 }
{
    let height = read_name(s, 0, b"width", b' ')?;
    let radius = read_name(s, height, b"height", b' ')?;
    let reach = read_name(s, radius, b"radius", b' ')?;
    let start = read_name(s, reach, b"reach", b' ')?;
    read_name(s, start, b"start", b'\n')
}

// lines 1 and 2 up to a refusal, the measures one by one; laid into `read_head` likewise
#[inline(always)]
#[tactic(auto, unfolding(model::specs::Format::head_from))]
fn read_measures(s: &[u8], least: usize, m: &mut Measures) -> Result<usize, Refused>
    requires { m.old ≡ measures_of [] }
    ensures at { place_in result ≡ place_of (parse (head_from least) s.now 0) }
    ensures read { m.new ≡ measures_of (parse (head_from least) s.now 0).values }
    ensures in_range { OnOk result (InRange m.new) }
{
    let line = read_names(s)?;
    let width = read_field(s, line, 1, 256, b' ')?;
    m.width = width.value;
    let height = read_field(s, width.at, 1, 256, b' ')?;
    m.height = height.value;
    let radius = read_field(s, height.at, 0, 3, b' ')?;
    m.radius = radius.value;
    let reach = read_field(s, radius.at, 0, 6, b' ')?;
    m.reach = reach.value;
    let start = read_field(s, reach.at, least, 2, b'\n')?;
    m.start = start.value;
    Ok(start.at)
}

// Lines 1 and 2, the kind of start from the least allowed on; a refusal has the measures before it.
#[inline(always)]
#[tactic(auto, unfolding(model::specs::Format::head_by))]
pub fn read_head(s: &[u8], least: usize) -> Result<After<Layout>, Unread<Measures>>
    ensures { head_in result (λ l. l.measures) ≡ head_by (head_from least) s.now }
{
    let mut measures = Measures {
        width: 0,
        height: 0,
        radius: 0,
        reach: 0,
        start: 0,
    };
    match read_measures(s, least, &mut measures) {
        Ok(at) => Ok(After {
            value: Layout { measures },
            at,
        }),
        Err(refused) => Err(Unread {
            refused,
            so_far: measures,
        }),
    }
}

// the dots stand in the sheet with start 2 only; what was refused stays refused
#[tactic(auto, unfolding(model::specs::Sheet::dots_name))]
fn judge_dots(s: &[u8], done: Result<usize, Refused>, m: Layout) -> Result<usize, Refused>
    ensures { MatchResult done (λ at. place_in result ≡ place_of (parse (dots_block m.measures) s.now at))
        (λ r. result ≡ Err r) }
{
    if m.measures.start != 2 {
        return done;
    }
    judge_block(s, done, b"dots", m.measures.width, m.cells(), 1)
}

// Nothing follows; what was refused stays refused.
pub fn judge_end(s: &[u8], done: Result<usize, Refused>) -> Result<usize, Refused>
    ensures { place_in result ≡ ended s.now (place_in done) }
{
    let at = done?;
    if at < s.len() {
        return Err(Refused {
            reason: Reason::Byte,
            at,
        });
    }
    Ok(at)
}

// Judges the blocks that follow line 2.
pub fn judge_blocks(s: &[u8], at: usize, m: Layout) -> Result<usize, Refused>
    ensures { place_in result ≡ place_of (parse (body m.measures) s.now at) }
{
    let psf = judge_block(s, Ok(at), b"psf", m.side(), m.entries(), 255);
    let gray = judge_block(s, psf, b"gray", m.measures.width, m.cells(), 255);
    judge_dots(s, gray, m)
}

// Judges all that follows line 2 of a sheet.
#[tactic(auto, unfolding(model::specs::Format::body_end))]
pub fn judge_body(s: &[u8], at: usize, m: Layout) -> Result<usize, Refused>
    ensures { place_in result ≡ body_end m.measures s.now at }
{
    judge_end(s, judge_blocks(s, at, m))
}

// stores the dots that were judged good, with start 2 only
#[tactic(auto, unfolding(model::specs::Sheet::dots_name))]
fn store_dots(s: &[u8], at: usize, m: Layout, dots: &mut [u8])
    requires at_value { (parse (dots_block m.measures) s.now at).refusal ≡ 0 }
    requires m_in_bounds { dots_in m.measures ≤ length dots.old }
    ensures { dots.new ≡ sets dots.old 0 (parse (dots_block m.measures) s.now at).values }
{
    if m.measures.start == 2 {
        store_block(s, at, b"dots", m.measures.width, m.cells(), 1, dots);
    }
}

// Stores the blocks that follow line 2, once they were judged good.
pub fn store_body(s: &[u8], at: usize, m: Layout, psf: &mut [u8], gray: &mut [u8], dots: &mut [u8])
    requires at_value { (parse (body m.measures) s.now at).refusal ≡ 0 }
    requires dots_value { room_for m.measures (length psf.old) (length gray.old) (length dots.old) ≡ true }
    ensures { sheet_buffers psf.new gray.new dots.new
        ≡ stored (sheet_of m.measures (parse (body m.measures) s.now at).values)
        (sheet_buffers psf.old gray.old dots.old) }
{
    let under_psf = store_block(s, at, b"psf", m.side(), m.entries(), 255, psf);
    let under_gray = store_block(
        s,
        under_psf,
        b"gray",
        m.measures.width,
        m.cells(),
        255,
        gray,
    );
    store_dots(s, under_gray, m, dots);
}
