//! Winding: a cycle in the plane is turned so that its area is not below zero, the faces of a
//! polyhedron in space so that they look out.
#![tactic(auto)]

ghost use Rattle.std.specs.Prelude.{◌≡◌, ◌≤◌, IfSome, length};
ghost use Rattle.base.specs.Checks.{element_refusal};
ghost use Rattle.base.specs.Inner.Numbers.{answer_of, number_of};
ghost use Rattle.base.specs.Outcome.{Permits, overwrite};
ghost use Rattle.winding.specs.Reorient.{reorient_outcome, turns_in_plane};
ghost use Rattle.winding.specs.Inner.Tasks.{IsTask, TaskOf, TaskUnless, dimension_number, done_of};

use base::checks::{check_element, element_fits};
use base::kinds::Kind;
use base::lent::copy;
use base::refusals::{Given, Refusal};

mod heads;
mod plane;
mod point;
mod reference;
mod sorted;
mod space;
mod write;

use plane::Cycle;
use point::{Dimension, Points};
use space::Solid;

/// The element wound: TRI3, QUAD4 and PGON in the plane by their area, PHED in space face by face;
/// every other kind is copied. Refuses 1 to 4, 20 for every kind, 6 for TET4, WEDGE6 and HEX8 in
/// space, 19 where what is wound has an id without a point, and 7.
#[tactic(auto, unfolding(base::specs::Outcome::settle, base::specs::Outcome::settle_one, base::specs::Outcome::decide))]
pub fn reorient(
    kind: u64,
    ids: &[u64],
    dimension: u64,
    points: &[f64],
    out: &mut [u64],
) -> Result<Given, Refusal>
    ensures { Permits (reorient_outcome kind ids.now dimension points.now out.old) (answer_of result) out.new }
{
    let (kind, task) = judge(kind, ids, dimension, points)?;
    let count = task.size();
    if out.len() < count {
        return Err(Refusal::ShortOutput);
    }
    task.write(out);
    Ok(Given { kind, count })
}

/// The kind of an element that nothing refuses, and its task. The tests are gone through one by one
/// only where a quick look does not show that nothing refuses.
/// It takes what `reorient` takes, since it reads all of it.
#[tactic(auto, unfolding(crate::specs::Reorient::reorient_refusal))]
fn judge<'a>(
    kind: u64,
    ids: &'a [u64],
    dimension: u64,
    points: &'a [f64],
) -> Result<(Kind, Task<'a>), Refusal>
    ensures { TaskUnless kind ids.entry.now dimension points.entry.now result }
{
    if let Some(found) = sound_cycle(kind, ids, dimension, points) {
        return Ok(found);
    }
    let kind = check_element(kind, ids)?;
    let points = Points::read(dimension, points)?;
    let task = Task::of(kind, ids, points)?;
    Ok((kind, task))
}

/// A quick look that finds a cycle in the plane that nothing refuses. One walk over its ids does for
/// refusals 4 and 19: what has a point is no separator.
fn sound_cycle<'a>(
    kind: u64,
    ids: &'a [u64],
    dimension: u64,
    points: &'a [f64],
) -> Option<(Kind, Task<'a>)>
    ensures { IfSome result (λ r. IsTask kind ids.entry.now dimension points.entry.now r) }
{
    let Ok(kind) = Kind::try_from(kind) else {
        return None;
    };
    let Ok(points) = Points::read(dimension, points) else {
        return None;
    };
    if turns_in_plane(kind, points.dimension)
        && ids.len() <= Kind::ELEMENT_LIMIT
        && element_fits(kind, ids.len())
        && points.hold(ids)
    {
        let points = points.numbers;
        return Some((kind, Task::InPlane(Cycle { points, ids })));
    }
    None
}

/// Whether this is a kind that is wound in the plane.
#[tactic(auto, unfolding(crate::specs::Reorient::turns_in_plane))]
fn turns_in_plane(kind: Kind, dimension: Dimension) -> bool
    ensures { result ≡ turns_in_plane (number_of kind) (dimension_number dimension) }
{
    match (dimension, kind) {
        (Dimension::Plane, Kind::Tri3 | Kind::Quad4 | Kind::Pgon) => true,
        _ => false,
    }
}

/// An element that nothing refuses, by what becomes of it.
#[derive(Clone, Copy)]
enum Task<'a> {
    Copied(&'a [u64]),
    InPlane(Cycle<'a>),
    InSpace(Solid<'a>),
}

impl<'a> Task<'a> {
    /// The task of an element that none of the refusals 1 to 4 meets, or refusal 6 or 19.
    #[tactic(auto, unfolding(crate::specs::Reorient::has_no_rule, crate::specs::Reorient::wants_point, crate::specs::Reorient::turns_in_plane, crate::specs::Reorient::turns_in_space, crate::specs::Reorient::reoriented))]
    fn of(kind: Kind, ids: &'a [u64], points: Points<'a>) -> Result<Task<'a>, Refusal>
        requires { element_refusal (number_of kind) ids.now ≡ 0 }
        ensures { TaskOf (number_of kind) ids.entry.now (dimension_number points.entry.dimension) points.entry.numbers.now result }
    {
        if turns_in_plane(kind, points.dimension) {
            points.check(ids)?;
            let points = points.numbers;
            return Ok(Task::InPlane(Cycle { points, ids }));
        }
        match (points.dimension, kind) {
            (Dimension::Space, Kind::Phed) => {
                points.check(ids)?;
                let points = points.numbers;
                Ok(Task::InSpace(Solid { points, ids }))
            }
            (Dimension::Space, Kind::Tet4 | Kind::Wedge6 | Kind::Hex8) => Err(Refusal::NoRule),
            _ => Ok(Task::Copied(ids)),
        }
    }

    /// How many entries the answer has: in space the empty runs of a polyhedron vanish.
    #[tactic(auto, using(crate::proofs::Passed::length_in_plane, crate::proofs::Passed::length_in_space))]
    fn size(self) -> usize
        ensures { result ≡ length (done_of self.entry) }
    {
        match self {
            Task::Copied(ids) => ids.len(),
            Task::InPlane(cycle) => cycle.ids.len(),
            Task::InSpace(solid) => solid.size(),
        }
    }

    /// The answer over the front of out.
    #[tactic(auto, using(crate::proofs::Passed::length_in_plane, crate::proofs::Passed::length_in_space))]
    fn write(self, out: &mut [u64])
        requires { length (done_of self) ≤ length out.old }
        ensures { out.new ≡ overwrite (done_of self.entry) out.old }
    {
        match self {
            Task::Copied(ids) => copy(ids, out),
            Task::InPlane(cycle) => cycle.write(out),
            Task::InSpace(solid) => solid.write(out),
        }
    }
}
