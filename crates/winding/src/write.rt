//! The writers of an answer: a run as it is or back to front, and the faces of a polyhedron.
ghost use Rattle.std.specs.Prelude.{◌≡◌, ◌+◌, ◌-◌, ◌<◌, ◌≤◌, map, length, if◌then◌else◌};
ghost use Rattle.base.specs.Kinds.{separator};
ghost use Rattle.base.specs.Outcome.{overwrite};
ghost use Rattle.faces.specs.Faces.{faces, joined};
ghost use Rattle.winding.specs.Space.{outward};
ghost use Rattle.winding.specs.Turn.{turned};

use super::point::Vector;
use super::space::{Face, Solid};
use base::kinds::Kind;
use faces::Faces;

/// The run as it is or back to front, over the front of out. The entry that is read moves by a step
/// that is settled before the loop, so that the loop has no branch on `back`, which would be guessed
/// wrong half of the time.
#[tactic(auto, unfolding(base::specs::Outcome::overwrite))]
pub fn put_run(run: &[u64], back: bool, out: &mut [u64])
    requires { length run.now ≤ length out.old }
    ensures { out.new ≡ overwrite (turned back run.now) out.old }
{
    let n = run.len();
    if n == 0 {
        return;
    }
    let step = step_of(back);
    let mut k = start_of(back, n);
    for i in 0..n {
        out[i] = run[k];
        k = k.wrapping_add(step);
    }
}

/// Which entry of a run of n is written first.
fn start_of(back: bool, n: usize) -> usize
    requires { 0 < n }
    ensures { result ≡ (if back then n - 1 else 0) }
{
    if back { n - 1 } else { 0 }
}

/// What leads from one entry to the next when it is added: 1, or the highest number, which wraps and
/// so leads one back.
fn step_of(back: bool) -> usize
    ensures { result ≡ (if back then 18446744073709551615 else 1) }
{
    if back { usize::MAX } else { 1 }
}

/// How many entries the faces take in one list, a separator between two.
pub fn faces_size(ids: &[u64]) -> usize
    ensures { result ≡ length (joined separator (faces ids.now)) }
{
    let mut size = 0;
    for face in Faces::of(ids) {
        size += face.len() + 1;
    }
    // No separator stands behind the last.
    size.saturating_sub(1)
}

/// The faces, each looking away from the reference point, over the front of out.
pub fn put_faces(solid: Solid, reference: Vector, out: &mut [u64])
    requires { length (joined separator (faces solid.ids.now)) ≤ length out.old }
    ensures { out.new ≡ overwrite (joined separator (map (outward solid.entry.points.now reference) (faces solid.entry.ids.now))) out.old }
{
    let points = solid.points;
    let mut rest = Faces::of(solid.ids);
    let Some(first) = rest.next() else {
        return;
    };
    Face { points, ids: first }.write(reference, out);
    let mut at = first.len();
    for face in rest {
        out[at] = Kind::SEPARATOR;
        at += 1;
        Face { points, ids: face }.write(reference, &mut out[at..]);
        at += face.len();
    }
}
