// The autocorrelation of a judged psf: the windows of the psf with each of its own entries.
#![tactic(auto)]

ghost use Rattle.std.specs.Prelude.{◌≡◌, map, ◌+◌, ◌*◌, ◌≤◌, pos, length};
ghost use Rattle.model.specs.Psf.{autocorrelations};
ghost use Rattle.model.specs.Refusal.{PsfFits};
ghost use Rattle.invariants.specs.Window.{Small, HoldsKernel};
ghost use Rattle.filter_correlate.specs.Scatter.{mirrored};

use filter_window::add_window;
use model::Cell;

// the bytes as signed numbers
fn widen(bytes: &[u8], out: &mut [i32])
    requires { length out.old ≡ length bytes.now }
    ensures { out.new ≡ map pos bytes.now }
{
    for (i, b) in bytes.iter().enumerate() {
        out[i] = i32::from(*b);
    }
}

// The windows of p with each of its own entries, laid at the mirrored place of that entry: Σₖ p(k) × p(k + d) at d.
fn correlate(radius: usize, p: &[i32], out: &mut [i32])
    requires radius_bound { (radius ≤ 3) × (length p.now ≡ (2 * radius + 1) * (2 * radius + 1)) × Small 255 p.now }
    requires out_len { length out.old ≡ (4 * radius + 1) * (4 * radius + 1) }
    ensures { out.new ≡ mirrored radius p.now }
{
    out.fill(0);
    let side = 2 * radius + 1;
    let width = 4 * radius + 1;
    let middle = 3 * radius;
    for (i, amount) in p.iter().enumerate() {
        let row = middle - i / side;
        let col = middle - i % side;
        add_window(out, width, width, Cell { row, col }, radius, p, *amount);
    }
}

// the autocorrelation of a judged psf
pub fn autocorrelate(radius: usize, psf: &[u8], out: &mut [i32])
    requires { PsfFits radius psf.now × (length out.old ≡ (4 * radius + 1) * (4 * radius + 1)) }
    ensures { out.new ≡ autocorrelations radius psf.now }
{
    let mut p = [0i32; 49];
    let n = psf.len();
    widen(psf, &mut p[..n]);
    correlate(radius, &p[..n], out);
}

// the kernel of a judged psf: its autocorrelation, in the front of 169 entries
pub fn kernel(radius: usize, psf: &[u8]) -> [i32; 169]
    requires { PsfFits radius psf.now }
    ensures { HoldsKernel radius psf.now result }
{
    let mut c = [0i32; 169];
    let side = 4 * radius + 1;
    let n = side * side;
    autocorrelate(radius, psf, &mut c[..n]);
    c
}
