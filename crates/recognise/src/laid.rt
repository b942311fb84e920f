//! The usual lists, which are laid out as the poly forms of the cells are: one separator between two
//! faces and no other. Such a list tells what it is by its length and its separators, so its nodes are
//! taken from known places, without a walk over the faces.
ghost use Rattle.std.specs.Prelude.{◌≡◌, ◌≤◌};
ghost use Rattle.shapes.specs.Inner.Made.{cell_of};
ghost use Rattle.shapes.specs.Wedge.{wedge};
ghost use Rattle.recognise.specs.Inner.Laid.{brick_quads, closed_brick, closed_tet, face_at, laid_brick, laid_tet, laid_wedge, tet_nodes, wedge_quads, wedge_tris};

use base::kinds::Kind;
use base::lent::node;
use base::refusals::Refusal;
use shapes::brick::brick;
use shapes::cells::Cell;
use shapes::tet::tet;
use shapes::wedge::wedge;
use surfaces::numbers::closes;

/// The lengths of such lists.
const TET_LIST: usize = 15;

const BRICK_LIST: usize = 29;

const WEDGE_LIST: usize = 22;

/// Whether a list is four triangles, laid out so. This function and the two like it below name the place of
/// each face: one that was lent the lengths took a twentieth longer for a wedge or a brick.
/// Each of the three tests names its places, as the functions of the nodes below do.
pub fn is_laid_tet(ids: &[u64]) -> bool
    ensures { result ≡ laid_tet ids.now }
{
    ids.len() == TET_LIST
        && is_face(ids, 0, 3) & (is_face(ids, 4, 3) & (is_face(ids, 8, 3) & is_face(ids, 12, 3)))
}

/// Whether a list is six quads, laid out so.
pub fn is_laid_brick(ids: &[u64]) -> bool
    ensures { result ≡ laid_brick ids.now }
{
    ids.len() == BRICK_LIST
        && is_face(ids, 0, 4)
            & (is_face(ids, 5, 4)
                & (is_face(ids, 10, 4)
                    & (is_face(ids, 15, 4) & (is_face(ids, 20, 4) & is_face(ids, 25, 4)))))
}

/// Whether a list is two triangles and three quads, laid out so.
pub fn is_laid_wedge(ids: &[u64]) -> bool
    ensures { result ≡ laid_wedge ids.now }
{
    ids.len() == WEDGE_LIST
        && is_face(ids, 0, 3)
            & (is_face(ids, 4, 3)
                & (is_face(ids, 8, 4) & (is_face(ids, 13, 4) & is_face(ids, 18, 4))))
}

/// Whether a face of n nodes stands at a place.
fn is_face(ids: &[u64], at: usize, n: usize) -> bool
    requires { (at ≤ 32) × (n ≤ 4) }
    ensures { result ≡ face_at n ids.now at }
{
    for i in at..at + n {
        if node(ids, i) == Kind::SEPARATOR {
            return false;
        }
    }
    node(ids, at + n) == Kind::SEPARATOR
}

/// The TET4 that four triangles make, or 14.
/// It stays beside `laid_brick`: `tet` refuses nothing and `brick` does, and a closure for that end is no plainer. The
/// list of next places is data, which `closes` reads.
pub fn laid_tet(ids: &[u64]) -> Result<Cell, Refusal>
    ensures { cell_of result ≡ closed_tet (tet_nodes ids.now) }
{
    let tris = tet_nodes(ids);
    if !closes(&tris, &[1, 2, 0, 4, 5, 3, 7, 8, 6, 10, 11, 9]) {
        return Err(Refusal::OpenSurface);
    }
    Ok(tet(&tris))
}

/// The nodes of a list of four triangles. This function and the three like it below name each place: one that
/// was lent the places took a fifth longer for a wedge or a tetrahedron.
fn tet_nodes(ids: &[u64]) -> [u64; 12]
    ensures { result ≡ tet_nodes ids.now }
{
    [
        node(ids, 0),
        node(ids, 1),
        node(ids, 2),
        node(ids, 4),
        node(ids, 5),
        node(ids, 6),
        node(ids, 8),
        node(ids, 9),
        node(ids, 10),
        node(ids, 12),
        node(ids, 13),
        node(ids, 14),
    ]
}

/// The HEX8 that six quads make, or a refusal. It differs from `laid_tet` in that `brick` may refuse, and to
/// lend both ends to one function would be no plainer.
pub fn laid_brick(ids: &[u64]) -> Result<Cell, Refusal>
    ensures { cell_of result ≡ closed_brick (brick_quads ids.now) }
{
    let quads = brick_quads(ids);
    let next = [
        1, 2, 3, 0, 5, 6, 7, 4, 9, 10, 11, 8, 13, 14, 15, 12, 17, 18, 19, 16, 21, 22, 23, 20,
    ];
    if !closes(&quads, &next) {
        return Err(Refusal::OpenSurface);
    }
    brick(&quads)
}

fn brick_quads(ids: &[u64]) -> [u64; 24]
    ensures { result ≡ brick_quads ids.now }
{
    [
        node(ids, 0),
        node(ids, 1),
        node(ids, 2),
        node(ids, 3),
        node(ids, 5),
        node(ids, 6),
        node(ids, 7),
        node(ids, 8),
        node(ids, 10),
        node(ids, 11),
        node(ids, 12),
        node(ids, 13),
        node(ids, 15),
        node(ids, 16),
        node(ids, 17),
        node(ids, 18),
        node(ids, 20),
        node(ids, 21),
        node(ids, 22),
        node(ids, 23),
        node(ids, 25),
        node(ids, 26),
        node(ids, 27),
        node(ids, 28),
    ]
}

/// The WEDGE6 that two triangles and three quads make, or a refusal.
pub fn laid_wedge(ids: &[u64]) -> Result<Cell, Refusal>
    ensures { cell_of result ≡ wedge (wedge_tris ids.now) (wedge_quads ids.now) }
{
    let tris = wedge_tris(ids);
    let quads = wedge_quads(ids);
    wedge(&tris, &quads)
}

fn wedge_tris(ids: &[u64]) -> [u64; 6]
    ensures { result ≡ wedge_tris ids.now }
{
    [
        node(ids, 0),
        node(ids, 1),
        node(ids, 2),
        node(ids, 4),
        node(ids, 5),
        node(ids, 6),
    ]
}

fn wedge_quads(ids: &[u64]) -> [u64; 12]
    ensures { result ≡ wedge_quads ids.now }
{
    [
        node(ids, 8),
        node(ids, 9),
        node(ids, 10),
        node(ids, 11),
        node(ids, 13),
        node(ids, 14),
        node(ids, 15),
        node(ids, 16),
        node(ids, 18),
        node(ids, 19),
        node(ids, 20),
        node(ids, 21),
    ]
}
