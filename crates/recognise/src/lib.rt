//! Recognition: an element of a poly kind as the fixed kind that it is.
#![tactic(auto)]

ghost use Rattle.std.specs.Prelude.{◌≡◌, length};
ghost use Rattle.base.specs.Inner.Numbers.{answer_of, number_of};
ghost use Rattle.base.specs.Outcome.{Permits, settle};
ghost use Rattle.recognise.specs.FromPoly.{from_poly, plain_kind};
ghost use Rattle.recognise.specs.Inner.Plain.{number_or_zero};

use base::checks::check_element;
use base::kinds::Kind;
use base::lent::copy;
use base::refusals::{Given, Refusal};

mod laid;
mod lengths;
mod phed;

/// What an element is recognised as, over the front of out: the kinds 1 to 16 as they are, a PLINE of
/// 2 nodes as SEG2, a PGON of 3 or 4 as TRI3 or QUAD4, a PHED by its faces. Refusals 1 to 4, 8 to 18
/// and 7, in that order. The count is that of the entries written.
pub fn from_poly(kind: u64, ids: &[u64], out: &mut [u64]) -> Result<Given, Refusal>
    ensures { Permits (from_poly kind ids.now out.old) (answer_of result) out.new }
{
    let kind = check_element(kind, ids)?;
    if kind == Kind::Phed {
        // By reference: `?` would copy the cell, which is slower.
        return match &phed::recognise(ids) {
            Ok(cell) => give(cell.kind(), cell.nodes(), out),
            Err(refusal) => Err(*refusal),
        };
    }
    let plain = plain_kind(kind, ids.len()).ok_or(Refusal::NoSuchPoly)?;
    give(plain, ids, out)
}

/// The kind of an element of n nodes that is no PHED.
#[tactic(auto, unfolding(crate::specs::FromPoly::plain_kind))]
fn plain_kind(kind: Kind, n: usize) -> Option<Kind>
    ensures { number_or_zero result ≡ plain_kind (number_of kind) n }
{
    match (kind, n) {
        (Kind::Pline, Kind::SEG2_NODES) => Some(Kind::Seg2),
        (Kind::Pgon, Kind::TRI3_NODES) => Some(Kind::Tri3),
        (Kind::Pgon, Kind::QUAD4_NODES) => Some(Kind::Quad4),
        (Kind::Pline | Kind::Pgon, _) => None,
        _ => Some(kind),
    }
}

/// The nodes of what is recognised, over the front of out. `parts`, on which this crate does not stand, has the like: its
/// contract serves answers of two types, and this one a settled answer.
fn give(kind: Kind, nodes: &[u64], out: &mut [u64]) -> Result<Given, Refusal>
    ensures { Permits (settle 0 (number_of kind) (length nodes.now) nodes.now out.old) (answer_of result) out.new }
{
    if out.len() < nodes.len() {
        return Err(Refusal::ShortOutput);
    }
    copy(nodes, out);
    Ok(Given {
        kind,
        count: nodes.len(),
    })
}
