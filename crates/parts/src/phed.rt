//! The faces of a polyhedron, written one after another with where each ends.
ghost use Rattle.std.specs.Prelude.{◌≡◌, ◌≤◌, length};
ghost use mathlib.Core.List.{flatten};
ghost use Rattle.base.specs.Outcome.{Permits, overwrite};
ghost use Rattle.faces.specs.Faces.{faces};
ghost use Rattle.parts.specs.Inner.Lent.{to_both};
ghost use Rattle.parts.specs.Subentities.{ends_from, phed_parts};
ghost use Rattle.parts.specs.Inner.Answers.{parts_answer_of};

use super::subentities::Written;
use base::kinds::Kind;
use base::lent::copy;
use base::refusals::Refusal;
use faces::Faces;

/// The faces of a polyhedron, with where each ends.
#[tactic(auto, using(crate::proofs::Apart::length_ends), unfolding(base::specs::Outcome::settle_two, base::specs::Outcome::decide))]
#[inline(always)]
pub fn phed_parts(ids: &[u64], out: &mut [u64], ends: &mut [u64]) -> Result<Written, Refusal>
    ensures { Permits (to_both (phed_parts ids.now) (out.old, ends.old)) (parts_answer_of result) (out.new, ends.new) }
{
    let tally = tally_faces(ids);
    if out.len() < tally.entries || ends.len() < tally.faces {
        return Err(Refusal::ShortOutput);
    }
    write_faces(ids, out, ends);
    Ok(Written::alike(Kind::Pgon, tally.faces))
}

/// How many faces there are, and how many entries they have together.
#[derive(Clone, Copy)]
struct Tally {
    faces: usize,
    entries: usize,
}

fn tally_faces(ids: &[u64]) -> Tally
    ensures { (result.faces ≡ length (faces ids.now)) × (result.entries ≡ length (flatten (faces ids.now))) }
{
    let mut tally = Tally {
        faces: 0,
        entries: 0,
    };
    for face in Faces::of(ids) {
        tally.faces += 1;
        tally.entries += face.len();
    }
    tally
}

/// The faces' entries over the front of out, and where each face ends over the front of ends.
fn write_faces(ids: &[u64], out: &mut [u64], ends: &mut [u64])
    requires ids_in_bounds { length (flatten (faces ids.now)) ≤ length out.old }
    requires ids_in_bounds_2 { length (faces ids.now) ≤ length ends.old }
    ensures out_after { out.new ≡ overwrite (flatten (faces ids.now)) out.old }
    ensures ends_after { ends.new ≡ overwrite (ends_from 0 (faces ids.now)) ends.old }
{
    let mut written = 0;
    for (at, face) in Faces::of(ids).enumerate() {
        copy(face, &mut out[written..]);
        written += face.len();
        ends[at] = written as u64;
    }
}
