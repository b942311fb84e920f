//! A WEDGE6 from the nodes of two triangles and of three quads.
ghost use Rattle.std.specs.Prelude.{◌≡◌, ◌<◌};
ghost use Rattle.shapes.specs.Cells.{cell};
ghost use Rattle.shapes.specs.Inner.Made.{AfterUnless, cell_of, SomeBelow};
ghost use Rattle.shapes.specs.Wedge.{place_in_second, runs_at, wedge, wedge_nodes};

use super::cells::Cell;
use super::corners::corner;
use base::lent::node;
use base::refusals::Refusal;

/// The nodes of two triangles and of three quads.
pub const TRIS: usize = 6;

pub const QUADS: usize = 12;

/// The first triangle turned over, and the second from the node round that the first quad along the
/// edge v1 to v0 leads to.
pub fn wedge(tris: &[u64; TRIS], quads: &[u64; QUADS]) -> Result<Cell, Refusal>
    ensures { cell_of result ≡ wedge tris.now quads.now }
{
    let after = after_edge(quads, node(tris, 1), node(tris, 0)).ok_or(Refusal::NoQuadAtEdge)?;
    let m = place_in_second(tris, after).ok_or(Refusal::NotInSecondTriangle)?;
    Ok(wedge_from(tris, m))
}

/// The wedge whose second triangle starts at place m.
fn wedge_from(tris: &[u64; TRIS], m: usize) -> Cell
    requires { m < 3 }
    ensures { cell_of (Ok result) ≡ cell 13 (wedge_nodes tris.now m) }
{
    Cell::Wedge6([
        node(tris, 0),
        node(tris, 2),
        node(tris, 1),
        node(tris, 3 + m),
        node(tris, 3 + (m + 1) % 3),
        node(tris, 3 + (m + 2) % 3),
    ])
}

/// The node after w in the first quad that runs v to w.
fn after_edge(quads: &[u64; QUADS], v: u64, w: u64) -> Option<u64>
    ensures { AfterUnless quads.now v w result }
{
    for k in 0..3 {
        if let Some(at) = runs_at(quads, k, v, w) {
            return Some(corner(quads, k, at + 2));
        }
    }
    None
}

/// The first place at which quad k runs v to w.
fn runs_at(quads: &[u64; QUADS], k: usize, v: u64, w: u64) -> Option<usize>
    requires { k < 8 }
    ensures { SomeBelow 4 (runs_at quads.now k v w) result }
{
    (0..4).find(|&j| (corner(quads, k, j) == v) & (corner(quads, k, j + 1) == w))
}

/// The place of a node in the second triangle.
fn place_in_second(tris: &[u64; TRIS], v: u64) -> Option<usize>
    ensures { SomeBelow 3 (place_in_second tris.now v) result }
{
    (0..3).find(|&m| node(tris, 3 + m) == v)
}
