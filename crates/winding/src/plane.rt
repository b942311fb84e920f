//! Winding in the plane: which way round a cycle runs.
ghost use Rattle.std.specs.Prelude.{◌≡◌, ◌≤◌, length};
ghost use Rattle.std.specs.Float.Ieee.{lt};
ghost use Rattle.base.specs.Outcome.{overwrite};
ghost use Rattle.winding.specs.Points.{point_count};
ghost use Rattle.winding.specs.Inner.Places.{in_plane};
ghost use Rattle.winding.specs.Inner.Scan.{Placed};
ghost use Rattle.winding.specs.Plane.{cross as cross_of, signed_area2, wound_in_plane, zero64};

use super::point::plane_point;
use super::write::put_run;

/// A cycle whose nodes have points in the plane.
#[derive(Clone, Copy)]
pub struct Cycle<'a> {
    pub points: &'a [f64],
    pub ids: &'a [u64],
    ghost placed: { Placed (point_count 2 (length points.now)) ids.now },
}

impl<'a> Cycle<'a> {
    /// The cycle wound, over the front of out.
    #[tactic(auto, unfolding(crate::specs::Plane::wound_in_plane))]
    pub fn write(self, out: &mut [u64])
        requires { length self.ids.now ≤ length out.old }
        ensures { out.new ≡ overwrite (wound_in_plane self.entry.points.now self.entry.ids.now) out.old }
    {
        let back = self.runs_clockwise();
        put_run(self.ids, back, out);
    }

    /// Whether the area is below zero.
    fn runs_clockwise(self) -> bool
        ensures { result ≡ lt (signed_area2 self.entry.points.now self.entry.ids.now) zero64 }
    {
        self.signed_area2() < 0.0
    }

    /// The signed area: the sum over the edges, halved. The halving stays although only the sign is
    /// asked for: it can turn the smallest negative sum into -0.
    fn signed_area2(self) -> f64
        ensures { result ≡ signed_area2 self.entry.points.now self.entry.ids.now }
    {
        let points = self.points;
        let Some((id, rest)) = self.ids.split_first() else {
            return 0.0;
        };
        let first = plane_point(points, *id);
        let mut from = first;
        let mut area2 = 0.0;
        for id in rest {
            let to = plane_point(points, *id);
            area2 += cross(from, to);
            from = to;
        }
        (area2 + cross(from, first)) / 2.0
    }
}

/// x0 * y1 - x1 * y0.
fn cross(from: (f64, f64), to: (f64, f64)) -> f64
    ensures { result ≡ cross_of (in_plane from) (in_plane to) }
{
    let (x0, y0) = from;
    let (x1, y1) = to;
    x0 * y1 - x1 * y0
}
