//! The points of a list of numbers: two each in the plane, three in space. Point i belongs to id i.
ghost use Rattle.std.specs.Prelude.{◌≡◌, ◌<◌, true, cond, length};
ghost use Rattle.base.specs.Inner.Numbers.{RefusedBy};
ghost use Rattle.winding.specs.Inner.Scan.{Placed, any_without};
ghost use Rattle.winding.specs.Inner.Tasks.{IsOfDimension, PointsUnless, dimension_number};
ghost use Rattle.winding.specs.Inner.Places.{in_plane, in_space};
ghost use Rattle.winding.specs.Points.{lacks_point, point_at, point_count};

use base::refusals::Refusal;

/// A point in space, a direction there, or a sum of points. Its sums are functions and no `Add`: the specs name them.
#[derive(Clone, Copy)]
pub struct Vector {
    pub x: f64,
    pub y: f64,
    pub z: f64,
}

impl Vector {
    pub const ZERO: Vector = Vector {
        x: 0.0,
        y: 0.0,
        z: 0.0,
    };
}

/// The two dimensions that a point list may have.
#[derive(Clone, Copy, Debug, PartialEq, Eq)]
pub enum Dimension {
    Plane = 2,
    Space = 3,
}

impl TryFrom<u64> for Dimension {
    type Error = Refusal;

    ghost try_from_gives = { IsOfDimension };

    /// The dimension of a number, or refusal 20.
    fn try_from(number: u64) -> Result<Dimension, Refusal> {
        match number {
            2 => Ok(Dimension::Plane),
            3 => Ok(Dimension::Space),
            _ => Err(Refusal::WrongPoints),
        }
    }
}

/// A point list.
#[derive(Clone, Copy)]
pub struct Points<'a> {
    pub dimension: Dimension,
    pub numbers: &'a [f64],
}

impl<'a> Points<'a> {
    /// The points of a list of numbers, or refusal 20.
    #[tactic(auto, unfolding(crate::specs::Points::points_fit))]
    pub fn read(dimension: u64, numbers: &'a [f64]) -> Result<Points<'a>, Refusal>
        ensures { PointsUnless dimension numbers.entry.now result }
    {
        let dimension = Dimension::try_from(dimension)?;
        let rest = match dimension {
            Dimension::Plane => numbers.len() % 2,
            Dimension::Space => numbers.len() % 3,
        };
        if rest != 0 {
            return Err(Refusal::WrongPoints);
        }
        Ok(Points { dimension, numbers })
    }

    /// How many points there are. Two functions divide by the dimension, each in its own way: a third for the number of it
    /// would be no shorter.
    fn count(self) -> u64
        ensures { result ≡ point_count (dimension_number self.entry.dimension) (length self.entry.numbers.now) }
    {
        let count = match self.dimension {
            Dimension::Plane => self.numbers.len() / 2,
            Dimension::Space => self.numbers.len() / 3,
        };
        count as u64
    }

    /// Refusal 19 where some id of a list has no point.
    pub fn check(self, ids: &[u64]) -> Result<(), Refusal>
        ensures { RefusedBy (cond (lacks_point (point_count (dimension_number self.entry.dimension) (length self.entry.numbers.now)) ids.now) 19 0) result }
    {
        if any_without(self.count(), ids) {
            return Err(Refusal::NoPoint);
        }
        Ok(())
    }

    /// Whether every entry of a list is an id that has a point.
    pub fn hold(self, ids: &[u64]) -> bool
        ensures { result ≡ true → Placed (point_count (dimension_number self.entry.dimension) (length self.entry.numbers.now)) ids.now }
    {
        let count = self.count();
        ids.iter().all(|id| *id < count)
    }
}

/// Whether some id of a list has none of so many points. One test finds it, which a separator fails: that
/// is the highest number, and one more wraps to 0.
fn any_without(count: u64, ids: &[u64]) -> bool
    ensures { result ≡ any_without count ids.now }
{
    for id in ids {
        if count < id.wrapping_add(1) {
            return true;
        }
    }
    false
}

/// The point of an id in the plane.
/// A pair and no `Vector`, as it has no third number.
pub fn plane_point(points: &[f64], id: u64) -> (f64, f64)
    requires { id < point_count 2 (length points.now) }
    ensures { in_plane result ≡ point_at points.now 2 id }
{
    let i = id as usize * 2;
    (points[i], points[i + 1])
}

/// The point of an id in space.
pub fn space_point(points: &[f64], id: u64) -> Vector
    requires { id < point_count 3 (length points.now) }
    ensures { in_space result ≡ point_at points.now 3 id }
{
    let i = id as usize * 3;
    Vector {
        x: points[i],
        y: points[i + 1],
        z: points[i + 2],
    }
}
