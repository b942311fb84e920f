//! The poly form of an element: a polyline, a polygon, or a polyhedron given by its faces.
ghost use Rattle.std.specs.Prelude.{◌≡◌, true, length};
ghost use Rattle.base.specs.Gather.{pick, undigit};
ghost use Rattle.base.specs.Inner.Numbers.{answer_of, number_of};
ghost use Rattle.base.specs.Outcome.{Permits, settle};
ghost use Rattle.parts.specs.Inner.Fit.{NumberedOrNone, fits};
ghost use Rattle.parts.specs.Poly.{poly_kind, to_poly};

use super::gather::{write_copy, write_row};
use base::checks::check_element;
use base::kinds::Kind;
use base::refusals::{Given, Refusal};

/// The element's poly form over the front of out; count is the number of entries written.
#[tactic(auto, unfolding(crate::specs::Poly::to_poly, crate::specs::Poly::poly_refusal, crate::specs::Poly::poly_ids, crate::specs::Poly::poly_kind, crate::specs::Tables::table_of, base::specs::Kinds::nodes_of, faces::specs::Faces::joined, faces::specs::Faces::further))]
pub fn to_poly(kind: u64, ids: &[u64], out: &mut [u64]) -> Result<Given, Refusal>
    ensures { Permits (to_poly kind ids.now out.old) (answer_of result) out.new }
{
    let kind = check_element(kind, ids)?;
    match kind {
        Kind::Tet4 => write_phed(ids, b"013:123:203:021", out),
        Kind::Wedge6 => write_phed(ids, b"021:345:0143:1254:2035", out),
        Kind::Hex8 => write_phed(ids, b"0321:4567:0154:1265:2376:3047", out),
        _ => {
            let poly = poly_kind(kind).ok_or(Refusal::NoRule)?;
            let given = Given {
                kind: poly,
                count: ids.len(),
            };
            write_copy(given, ids, out)
        },
    }
}

/// The kind of the poly form, where there is one.
#[tactic(auto, unfolding(crate::specs::Poly::poly_kind))]
fn poly_kind(kind: Kind) -> Option<Kind>
    ensures { NumberedOrNone (poly_kind (number_of kind)) result }
{
    match kind {
        Kind::Vertex => Some(Kind::Vertex),
        Kind::Seg2 | Kind::Pline => Some(Kind::Pline),
        Kind::Tri3 | Kind::Tri6 | Kind::Quad4 | Kind::Pgon => Some(Kind::Pgon),
        Kind::Tet4 | Kind::Wedge6 | Kind::Hex8 | Kind::Phed => Some(Kind::Phed),
        _ => None,
    }
}

/// The faces of a cell by a row of digits, a colon for the separator between two faces.
fn write_phed(ids: &[u64], row: &[u8], out: &mut [u64]) -> Result<Given, Refusal>
    requires { fits (length ids.now) row.now ≡ true }
    ensures { Permits (settle 0 19 (length (pick ids.now (undigit row.now))) (pick ids.now (undigit row.now)) out.old) (answer_of result) out.new }
{
    let given = Given {
        kind: Kind::Phed,
        count: row.len(),
    };
    write_row(given, ids, row, out)
}
