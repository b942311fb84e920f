//! A TET4 from the nodes of four triangles.
ghost use Rattle.std.specs.Prelude.{◌≡◌, drop};
ghost use Rattle.shapes.specs.Inner.Made.{cell_of};
ghost use Rattle.shapes.specs.Tet.{fourth, in_triangle, tet};

use super::cells::Cell;
use base::kinds::Kind;
use base::lent::node;

/// The nodes of four triangles.
pub const TRIS: usize = 12;

/// The first triangle, and the first node of the later ones that is not in it.
pub fn tet(tris: &[u64; TRIS]) -> Cell
    ensures { cell_of (Ok result) ≡ tet tris.now }
{
    let a = node(tris, 0);
    let b = node(tris, 1);
    let c = node(tris, 2);
    Cell::Tet4([a, b, c, fourth(&tris[3..], a, b, c)])
}

/// The first of the nodes that is none of a, b, c. The later triangles of a closed surface always have one,
/// so a search that ends without it is nobody's answer.
fn fourth(nodes: &[u64], a: u64, b: u64, c: u64) -> u64
    ensures { result ≡ fourth a b c nodes.now }
{
    for x in nodes {
        if !in_triangle(a, b, c, *x) {
            return *x;
        }
    }
    Kind::SEPARATOR
}

fn in_triangle(a: u64, b: u64, c: u64, x: u64) -> bool
    ensures { result ≡ in_triangle a b c x }
{
    (x == a) | (x == b) | (x == c)
}
