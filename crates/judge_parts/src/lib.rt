// Judging what a call is handed, one refusal or two at a time: each judge answers the first that is drawn.
#![tactic(auto)]

ghost use Rattle.std.specs.Prelude.{◌&&◌, not, List, [], ◌∷◌, ◌≡◌, ℕ, ◌*◌, ◌≤◌, eqb, length};
ghost use Rattle.model.specs.Basic.{AtMost};
ghost use Rattle.model.specs.Error.{target_of};
ghost use Rattle.model.specs.Lock.{locked_gray, locked_byte, contradiction};
ghost use Rattle.model.specs.Reason.{drawn};
ghost use Rattle.model.specs.Refusal.{first_of, bad_size, bad_radius, bad_reach, bad_kind, bad_length, bad_sum};
ghost use Rattle.model.specs.Refusal.{bad_dot, bad_locks, bad_measures};

use model::{Measures, Reason};
use slices::sum;

// Each byte is at most 255. That is known of a parameter, and so this tells it of a slice in a struct; nothing is done.
pub fn known_bytes(bytes: &[u8])
    ensures { AtMost 255 bytes.now }
{}

// whether a dot is not the one that its gray locks it to
fn contradicts(gray: u8, dot: u8) -> bool
    ensures { result ≡ locked_gray gray && not (eqb dot (locked_byte 1 gray)) }
{
    ((gray == 0) & (dot != 0)) | ((gray == 255) & (dot != 1))
}

// whether some dot is not, whatever the size, radius and psf; it never branches, so that the compiler takes many cells at
// a time
fn any_contradiction(gray: &[u8], dots: &[u8]) -> bool
    requires { length dots.now ≡ length gray.now }
    ensures { (w h r : ℕ) (psf : List ℕ) → h * w ≡ length gray.now
        → result ≡ contradiction (target_of w h r psf gray.now) dots.now }
{
    let mut any = false;
    for (gray, dot) in gray.iter().zip(dots) {
        any |= contradicts(*gray, *dot);
    }
    any
}

// 1 and 2: a size outside 1 to 256, a radius above 3
pub fn judge_measures(width: usize, height: usize, radius: usize) -> Result<(), Reason>
    ensures { drawn result ≡ first_of (bad_size width height ∷ bad_radius radius ∷ []) }
{
    if !(1..=256).contains(&width) || !(1..=256).contains(&height) {
        return Err(Reason::Size);
    }
    if 3 < radius {
        return Err(Reason::Radius);
    }
    Ok(())
}

// 3 and 4: a reach above 6, a start kind above 2
fn judge_options(reach: usize, kind: usize) -> Result<(), Reason>
    ensures { drawn result ≡ first_of (bad_reach reach ∷ bad_kind kind ∷ []) }
{
    if 6 < reach {
        return Err(Reason::Reach);
    }
    if 2 < kind {
        return Err(Reason::Kind);
    }
    Ok(())
}

// 1 to 4, of all five measures
pub fn judge_all_measures(m: Measures) -> Result<(), Reason>
    ensures { drawn result ≡ first_of (bad_measures m) }
{
    judge_measures(m.width, m.height, m.radius)?;
    judge_options(m.reach, m.start)
}

// 5, of a psf of radius at most 3 and of slices that should be as long as `cells`
pub fn judge_lengths(
    radius: usize,
    psf: &[u8],
    cells: usize,
    gray: usize,
    dots: usize,
    table: usize,
) -> Result<(), Reason>
    requires { radius ≤ 3 }
    ensures { drawn result ≡ first_of (bad_length radius psf.now cells (gray ∷ dots ∷ table ∷ []) ∷ []) }
{
    let side = 2 * radius + 1;
    if psf.len() != side * side || gray != cells || dots != cells || table != cells {
        return Err(Reason::Length);
    }
    Ok(())
}

// 5 and 6, of the same
pub fn judge_slices(
    radius: usize,
    psf: &[u8],
    cells: usize,
    gray: usize,
    dots: usize,
    table: usize,
) -> Result<(), Reason>
    requires { radius ≤ 3 }
    ensures { drawn result ≡ first_of
        (bad_length radius psf.now cells (gray ∷ dots ∷ table ∷ []) ∷ bad_sum psf.now ∷ []) }
{
    judge_lengths(radius, psf, cells, gray, dots, table)?;
    if !(1..=1024).contains(&sum(psf)) {
        return Err(Reason::Sum);
    }
    Ok(())
}

// 7: a dot byte above 1
pub fn judge_dots(dots: &[u8]) -> Result<(), Reason>
    ensures { drawn result ≡ first_of (bad_dot dots.now ∷ []) }
{
    if dots.iter().any(|&dot| 1 < dot) {
        return Err(Reason::Dot);
    }
    Ok(())
}

// 16: a dot that contradicts a locked cell, whatever the size, radius and psf
pub fn judge_locks(gray: &[u8], dots: &[u8]) -> Result<(), Reason>
    requires { length dots.now ≡ length gray.now }
    ensures { (w h r : ℕ) (psf : List ℕ) → h * w ≡ length gray.now
        → drawn result ≡ first_of (bad_locks (target_of w h r psf gray.now) dots.now ∷ []) }
{
    if any_contradiction(gray, dots) {
        return Err(Reason::Contradiction);
    }
    Ok(())
}
