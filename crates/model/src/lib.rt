// The public types of the plate maker, and the number of a reason. What they mean, and the promises, are in specs/.
#![tactic(auto)]

ghost use Rattle.std.specs.Prelude.{◌≡◌};
ghost use Rattle.model.specs.Reason.{number_of, unplaced};

use std::error::Error;
use std::fmt;

// The most cells of a plate: 256².
pub const MOST_CELLS: usize = 65536;

// The largest squared error.
pub const MOST_SQUARED: i64 = 4468483974758400;

// The largest count of a ledger: 2^44.
pub const MOST_COUNT: u64 = 17592186044416;

// The limit of a number in a picture's header, which stands for it and all above.
pub const MOST_VALUE: usize = 65536;

// The most bytes that the program prints.
pub const MOST_PRINTED: usize = 40960;

// Why a call is refused. The papers' number of each is `number_of` of specs/Reason.antt, and `u32::from` answers it.
#[derive(Clone, Copy, Debug, PartialEq, Eq)]
pub enum Reason {
    Size,
    Radius,
    Reach,
    Kind,
    Length,
    Sum,
    Dot,
    Cell,
    Pair,
    Byte,
    Field,
    Room,
    Input,
    Layout,
    Maximum,
    Contradiction,
    Pfm,
    Sample,
    Table,
    Ledger,
    Like,
    Locked,
}

impl From<Reason> for u32 {
    ghost from_gives = { λ r n. n ≡ number_of r };

    fn from(reason: Reason) -> u32 {
        match reason {
            Reason::Size => 1,
            Reason::Radius => 2,
            Reason::Reach => 3,
            Reason::Kind => 4,
            Reason::Length => 5,
            Reason::Sum => 6,
            Reason::Dot => 7,
            Reason::Cell => 8,
            Reason::Pair => 9,
            Reason::Byte => 10,
            Reason::Field => 11,
            Reason::Room => 12,
            Reason::Input => 13,
            Reason::Layout => 14,
            Reason::Maximum => 15,
            Reason::Contradiction => 16,
            Reason::Pfm => 17,
            Reason::Sample => 18,
            Reason::Table => 20,
            Reason::Ledger => 21,
            Reason::Like => 22,
            Reason::Locked => 23,
        }
    }
}

impl fmt::Display for Reason {
    fn fmt<W: fmt::Write>(&self, f: &mut fmt::Formatter<W>) -> fmt::Result {
        write!(f, "{}", u32::from(*self))
    }
}

impl Error for Reason {}

// A refusal with the byte offset where it is drawn, which is 0 where there is no place.
#[derive(Clone, Copy, Debug, PartialEq, Eq)]
pub struct Refused {
    pub reason: Reason,
    pub at: usize,
}

impl From<Reason> for Refused {
    ghost from_gives = { λ r e. e ≡ unplaced r };

    fn from(reason: Reason) -> Refused {
        Refused { reason, at: 0 }
    }
}

// What is read of a text, and the place after it.
#[derive(Clone, Copy, Debug, PartialEq, Eq)]
pub struct After<T> {
    pub value: T,
    pub at: usize,
}

// Document 01's measures: the size of the plate, the radius of the psf, the reach of a swap and the kind of start.
#[derive(Clone, Copy)]
pub struct Measures {
    pub width: usize,
    pub height: usize,
    pub radius: usize,
    pub reach: usize,
    pub start: usize,
}

// What a plate is made for: its measures, the psf (01: spread) and the gray.
#[derive(Clone, Copy)]
pub struct Setting<'a> {
    pub measures: Measures,
    pub psf: &'a [u8],
    pub gray: &'a [u8],
}

// A cell of a plate by its row and its column.
#[derive(Clone, Copy)]
pub struct Cell {
    pub row: usize,
    pub col: usize,
}

// The figures of a ledger that are kept from the start on: the squared error and the dots at the start, and how many
// toggles on, toggles off and swaps were accepted since.
#[derive(Clone, Copy)]
pub struct Figures {
    pub start_error: i64,
    pub start_dots: u64,
    pub on: u64,
    pub off: u64,
    pub swaps: u64,
}

// Document 01's ledger: the squared error now, and these figures.
#[derive(Clone, Copy)]
pub struct Stats {
    pub error: i64,
    pub figures: Figures,
}

// The answer of an attempt: accepted with the new ledger and the change of the squared error, declined with the change
// that it would have been, or refused. Three cases in one enum are the form that document 01 asks for.
#[derive(Clone, Copy)]
pub enum Attempt {
    Accepted(Stats, i64),
    Declined(i64),
    Refused(Reason),
}

// What a scan answers: the new ledger, the changes that it accepted, and its trials, the changes that its rule weighs.
#[derive(Clone, Copy)]
pub struct ScanResult {
    pub stats: Stats,
    pub changes: u64,
    pub trials: u64,
}

// What a convergence (01: a settling) answers: the new ledger and the number of scans, toggle and swap scans together.
#[derive(Clone, Copy)]
pub struct ConvergeResult {
    pub stats: Stats,
    pub scans: u64,
}

// The size of a plate or a picture: width and height in cells.
#[derive(Clone, Copy)]
pub struct Size {
    pub width: usize,
    pub height: usize,
}

// The header of a PFM: width and height, and the scale, whose sign names the byte order of the samples.
#[derive(Clone, Copy)]
pub struct PfmHeader {
    pub width: usize,
    pub height: usize,
    pub scale: f32,
}

// What a sample of a PFM is read as: a shade from 0 to 1, a value outside, or no number.
#[derive(Clone, Copy)]
pub enum Sample {
    Shade(f32),
    Outside(f32),
    NotANumber,
}

// The tone balance of a plate: by how much its dots are darker than its gray, divided by its cells.
#[derive(Clone, Copy)]
pub struct ToneBalance {
    pub quotient: i64,
    pub remainder: usize,
}

// What the check of a filed sheet finds: the squared error as filed and by the sum over the filed dots, whether they
// agree, whether the ledger fits the dots, and whether they are at rest, or why a start would refuse the sheet.
#[derive(Clone, Copy)]
pub struct Verdict {
    pub measures: Measures,
    pub filed: i64,
    pub squared: i64,
    pub figure: bool,
    pub ledger: bool,
    pub rest: Result<bool, Reason>,
}

// ---- the types of inner functions, which no public call answers

// What a scan has come to so far: the ledger and the changes that it has accepted.
#[derive(Clone, Copy)]
pub struct Progress {
    pub stats: Stats,
    pub changes: u64,
}

// The same at the end of a scan, with its trials.
#[derive(Clone, Copy)]
pub struct Counted {
    pub progress: Progress,
    pub trials: u64,
}

// What a reader finds next in a text: a word, a number (257 stands for all above 256), a line end, or none of these.
#[derive(Clone, Copy)]
pub enum Item {
    Word,
    Number(usize),
    LineEnd,
    Other,
}

// A step of the reader: the item, its byte offset, and where it ends. Where there is no item, both are the offset of
// the byte that cannot be there.
#[derive(Clone, Copy)]
pub struct Step {
    pub item: Item,
    pub at: usize,
    pub next: usize,
}

// The six figures under a filed sheet, as filed.
#[derive(Clone, Copy)]
pub struct FiledFigures {
    pub before: u64,
    pub after: u64,
    pub on: u64,
    pub off: u64,
    pub swaps: u64,
    pub scans: u64,
}

// What the header of a picture says: its size, and its maximum, which of a PBM is 1.
#[derive(Clone, Copy)]
pub struct NetpbmHeader {
    pub size: Size,
    pub maximum: usize,
}
