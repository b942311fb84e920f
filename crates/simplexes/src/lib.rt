//! The split of one cell into simplexes.
#![tactic(auto)]

ghost use Rattle.std.specs.Prelude.{◌≡◌};
ghost use Rattle.base.specs.Inner.Numbers.{answer_of};
ghost use Rattle.base.specs.Outcome.{Permits};
ghost use Rattle.cuts.specs.Split.{to_simplexes};
ghost use Rattle.simplexes.specs.ByValue.{split_cell};
ghost use Rattle.simplexes.specs.Inner.Value.{by_value};

use base::checks::check_element;
use base::kinds::Kind;
use base::refusals::{Given, Refusal};
use cells::write_cell;

pub mod cells;
mod smallest;
pub mod solids;

/// The simplexes of one cell: their kind, their number, and their ids from the front, 0 in the places
/// that are left.
/// By value and so of one size: no heap.
#[derive(Clone, Copy, Debug, PartialEq, Eq)]
pub struct Split {
    pub kind: Kind,
    pub count: usize,
    pub ids: [u64; 24],
}

/// The split of one cell over the front of out. It refuses with 1 to 4, then 6 for a PLINE, PGON or
/// PHED, then 7. Two exports call it, and it is faster where it is taken in.
#[inline(always)]
#[tactic(auto, unfolding(cuts::specs::Split::to_simplexes, cuts::specs::Split::split_refusal, base::specs::Outcome::settle, base::specs::Outcome::settle_one, base::specs::Outcome::decide))]
pub fn to_simplexes(kind: u64, ids: &[u64], out: &mut [u64]) -> Result<Given, Refusal>
    ensures { Permits (to_simplexes kind ids.now out.old) (answer_of result) out.new }
{
    let cell = check_element(kind, ids)?;
    write_cell(cell, ids, out)
}

/// The split of one cell by value, where its kind has a rule. An id that the kind wants and the list lacks is
/// the separator.
pub fn split_cell(kind: u64, ids: &[u64]) -> Option<Split>
    ensures { by_value result ≡ split_cell kind ids.now }
{
    let cell = Kind::try_from(kind).ok()?;
    let mut simplexes = [0u64; 24];
    let given = write_cell(cell, ids, &mut simplexes).ok()?;
    Some(Split {
        kind: given.kind,
        count: given.count,
        ids: simplexes,
    })
}
