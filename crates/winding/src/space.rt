//! Winding in space: which way a face looks.
ghost use Rattle.std.specs.Prelude.{◌≡◌, ◌<◌, ◌≤◌, false, length};
ghost use Rattle.base.specs.Kinds.{element_limit, separator};
ghost use Rattle.base.specs.Outcome.{overwrite};
ghost use Rattle.faces.specs.Faces.{faces, joined};
ghost use Rattle.winding.specs.Points.{lacks_point, point_count};
ghost use Rattle.winding.specs.Inner.Places.{in_space};
ghost use Rattle.winding.specs.Inner.Scan.{Placed};
ghost use Rattle.winding.specs.Space.{add_edge, dot_from, larger as larger_of, looks_in, normal_of, outward, scale_of, size_of, wound_in_space};

use super::point::{Vector, space_point};
use super::reference::reference;
use super::write::{faces_size, put_faces, put_run};

/// A polyhedron whose nodes have points in space.
#[derive(Clone, Copy)]
pub struct Solid<'a> {
    pub points: &'a [f64],
    pub ids: &'a [u64],
    ghost few: { length ids.now ≤ element_limit },
    ghost placed: { lacks_point (point_count 3 (length points.now)) ids.now ≡ false },
}

impl<'a> Solid<'a> {
    /// How many entries the faces take in one list, a separator between two.
    pub fn size(self) -> usize
        ensures { result ≡ length (joined separator (faces self.entry.ids.now)) }
    {
        faces_size(self.ids)
    }

    /// The faces, each looking away from the reference point, over the front of out.
    #[tactic(auto, unfolding(crate::specs::Space::wound_in_space))]
    pub fn write(self, out: &mut [u64])
        requires { length (joined separator (faces self.ids.now)) ≤ length out.old }
        ensures { out.new ≡ overwrite (wound_in_space self.entry.points.now self.entry.ids.now) out.old }
    {
        put_faces(self, reference(self), out);
    }
}

/// A face whose nodes have points.
#[derive(Clone, Copy)]
pub struct Face<'a> {
    pub points: &'a [f64],
    pub ids: &'a [u64],
    ghost placed: { Placed (point_count 3 (length points.now)) ids.now },
    ghost some: { 0 < length ids.now },
}

/// Below this, times the scale of its normal, a face looks in; a face that all but holds the
/// reference point stays as it is.
const TOLERANCE: f64 = -1e-12;

impl<'a> Face<'a> {
    /// The face, turned if it looks in, over the front of out.
    pub fn write(self, reference: Vector, out: &mut [u64])
        requires { length self.ids.now ≤ length out.old }
        ensures { out.new ≡ overwrite (outward self.entry.points.now reference self.entry.ids.now) out.old }
    {
        let back = self.looks_in(reference);
        put_run(self.ids, back, out);
    }

    /// Whether the face looks towards the reference point.
    fn looks_in(self, reference: Vector) -> bool
        ensures { result ≡ looks_in self.entry.points.now reference self.entry.ids.now }
    {
        let normal = self.normal();
        let first = space_point(self.points, self.ids[0]);
        dot_from(normal, first, reference) < TOLERANCE * scale_of(normal)
    }

    /// The normal: the sum over the edges. Not one function with the area of a cycle: the closures that
    /// it would take, for a point and for a sum, would need contracts of their own, which is no plainer.
    fn normal(self) -> Vector
        ensures { result ≡ normal_of self.entry.points.now self.entry.ids.now }
    {
        let points = self.points;
        let ids = self.ids;
        let first = space_point(points, ids[0]);
        let mut from = first;
        let mut normal = Vector::ZERO;
        for id in &ids[1..] {
            let to = space_point(points, *id);
            normal = add_edge(normal, from, to);
            from = to;
        }
        add_edge(normal, from, first)
    }
}

/// One edge's part of the normal, added to what there is.
#[tactic(auto, unfolding(crate::specs::Space::add_edge))]
fn add_edge(n: Vector, from: Vector, to: Vector) -> Vector
    ensures { result ≡ add_edge n (in_space from) (in_space to) }
{
    Vector {
        x: n.x + (from.y - to.y) * (from.z + to.z),
        y: n.y + (from.z - to.z) * (from.x + to.x),
        z: n.z + (from.x - to.x) * (from.y + to.y),
    }
}

/// The normal dotted with the way from the reference point to a point.
#[tactic(auto, unfolding(crate::specs::Space::dot_from))]
fn dot_from(n: Vector, point: Vector, reference: Vector) -> f64
    ensures { result ≡ dot_from n (in_space point) reference }
{
    n.x * (point.x - reference.x) + n.y * (point.y - reference.y) + n.z * (point.z - reference.z)
}

/// The largest size of the parts.
fn scale_of(n: Vector) -> f64
    ensures { result ≡ scale_of n }
{
    larger(larger(size(n.x), size(n.y)), size(n.z))
}

/// The number with its sign cleared. Not `abs`: that promises only to clear the sign of a zero, where
/// the definition has the one zero that is written 0.
fn size(x: f64) -> f64
    ensures { result ≡ size_of x }
{
    if x == 0.0 {
        return 0.0;
    }
    if x < 0.0 { -x } else { x }
}

/// The larger of two; where one is not a number, the other. Not `max`: of two that are equal that
/// promises either, the definition the first.
fn larger(a: f64, b: f64) -> f64
    ensures { result ≡ larger_of a b }
{
    if a < b {
        return b;
    }
    if a != a { b } else { a }
}
