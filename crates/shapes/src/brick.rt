//! A HEX8 from the nodes of six quads, of which quad 0 is the bottom.
ghost use Rattle.std.specs.Prelude.{◌≡◌, ◌<◌};
ghost use Rattle.shapes.specs.Brick.{above, brick, brick_nodes, has_edge, home, in_bottom, opposite, place, side, sides, top, touches};
ghost use Rattle.shapes.specs.Cells.{cell};
ghost use Rattle.shapes.specs.Inner.Made.{cell_of, Near, sides_of, SidesUnless, SomeBelow};

use super::cells::Cell;
use super::corners::corner;
use base::refusals::Refusal;
use surfaces::surface::same;

/// The nodes of six quads.
pub const QUADS: usize = 24;

/// The bottom, and the nodes above it.
pub fn brick(quads: &[u64; QUADS]) -> Result<Cell, Refusal>
    ensures { cell_of result ≡ brick quads.now }
{
    let o = opposite(quads).ok_or(Refusal::NoOppositeFace)?;
    let sides = sides_at_edges(quads, o).ok_or(Refusal::NoSideFace)?;
    Ok(brick_from(quads, &sides))
}

/// The first face after the bottom that shares no node with it.
fn opposite(quads: &[u64; QUADS]) -> Option<usize>
    ensures { SomeBelow 6 (opposite quads.now) result }
{
    (1..6).find(|&k| !touches(quads, k))
}

/// Whether quad k shares a node with the bottom. All comparisons are made here and below, as in `same`.
fn touches(quads: &[u64; QUADS], k: usize) -> bool
    requires { k < 8 }
    ensures { result ≡ touches quads.now k }
{
    let a = in_bottom(quads, corner(quads, k, 0));
    let b = in_bottom(quads, corner(quads, k, 1));
    let c = in_bottom(quads, corner(quads, k, 2));
    let d = in_bottom(quads, corner(quads, k, 3));
    a | (b | (c | d))
}

fn in_bottom(quads: &[u64; QUADS], x: u64) -> bool
    ensures { result ≡ in_bottom quads.now x }
{
    let a = corner(quads, 0, 0);
    let b = corner(quads, 0, 1);
    let c = corner(quads, 0, 2);
    let d = corner(quads, 0, 3);
    (x == a) | ((x == b) | ((x == c) | (x == d)))
}

/// The side faces at the four bottom edges, o being the opposite face.
fn sides_at_edges(quads: &[u64; QUADS], o: usize) -> Option<[usize; 4]>
    ensures { SidesUnless (sides quads.now o) result }
{
    Some([
        side(quads, o, 0)?,
        side(quads, o, 1)?,
        side(quads, o, 2)?,
        side(quads, o, 3)?,
    ])
}

/// The first face with bottom edge j that is neither the bottom nor o.
fn side(quads: &[u64; QUADS], o: usize, j: usize) -> Option<usize>
    requires { j < 4 }
    ensures { SomeBelow 6 (side quads.now o j) result }
{
    let a = corner(quads, 0, j);
    let b = corner(quads, 0, j + 1);
    (1..6).find(|&k| k != o && has_edge(quads, k, a, b))
}

fn has_edge(quads: &[u64; QUADS], k: usize, a: u64, b: u64) -> bool
    requires { k < 8 }
    ensures { result ≡ has_edge quads.now k a b }
{
    let w = corner(quads, k, 0);
    let x = corner(quads, k, 1);
    let y = corner(quads, k, 2);
    let z = corner(quads, k, 3);
    same(a, b, w, x) | (same(a, b, x, y) | (same(a, b, y, z) | same(a, b, z, w)))
}

/// The brick on the bottom with these side faces.
fn brick_from(quads: &[u64; QUADS], sides: &[usize; 4]) -> Cell
    requires { Near sides.now }
    ensures { cell_of (Ok result) ≡ cell 15 (brick_nodes quads.now (sides_of sides.now)) }
{
    let a = corner(quads, 0, 0);
    let b = corner(quads, 0, 1);
    let c = corner(quads, 0, 2);
    let d = corner(quads, 0, 3);
    Cell::Hex8([
        a,
        b,
        c,
        d,
        top(quads, sides, a),
        top(quads, sides, b),
        top(quads, sides, c),
        top(quads, sides, d),
    ])
}

/// The node above a bottom node, found in the side face at the first edge with that end. Every bottom node is
/// the end of an edge.
fn top(quads: &[u64; QUADS], sides: &[usize; 4], x: u64) -> u64
    requires { Near sides.now }
    ensures { result ≡ top quads.now (sides_of sides.now) x }
{
    above(quads, sides[home(quads, x).unwrap_or(0)], x)
}

/// The first bottom edge with the end x. It goes by id, not by place: a node that stands twice in the
/// bottom has one node above it.
fn home(quads: &[u64; QUADS], x: u64) -> Option<usize>
    ensures { SomeBelow 4 (home quads.now x) result }
{
    (0..4).find(|&j| (corner(quads, 0, j) == x) | (corner(quads, 0, j + 1) == x))
}

/// The node above x in side face k, which has it: the neighbour before its first place, unless that is a bottom
/// node, else the one after.
fn above(quads: &[u64; QUADS], k: usize, x: u64) -> u64
    requires { k < 8 }
    ensures { result ≡ above quads.now k x }
{
    let p = place(quads, k, x).unwrap_or(0);
    let before = corner(quads, k, p + 3);
    if in_bottom(quads, before) {
        return corner(quads, k, p + 1);
    }
    before
}

/// The first place of x in quad k.
fn place(quads: &[u64; QUADS], k: usize, x: u64) -> Option<usize>
    requires { k < 8 }
    ensures { SomeBelow 4 (place quads.now k x) result }
{
    (0..4).find(|&j| corner(quads, k, j) == x)
}
