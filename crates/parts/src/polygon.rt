//! The sides of a polygon.
ghost use Rattle.std.specs.Prelude.{◌≡◌, ◌+◌, ◌<◌, ◌≤◌, get_or, length};
ghost use Rattle.base.specs.Kinds.{separator};
ghost use Rattle.base.specs.Outcome.{Permits, overwrite};
ghost use Rattle.faces.specs.Edges.{cycle};
ghost use Rattle.parts.specs.Inner.Lent.{to_first};
ghost use Rattle.parts.specs.Subentities.{both_ends, pgon_parts};
ghost use Rattle.parts.specs.Inner.Answers.{parts_answer_of};

use super::subentities::Written;
use base::kinds::Kind;
use base::refusals::Refusal;

/// The sides of a polygon.
#[tactic(auto, using(crate::proofs::Sides::side_lengths), unfolding(base::specs::Outcome::settle_one, base::specs::Outcome::decide))]
pub fn pgon_sides(ids: &[u64], out: &mut [u64]) -> Result<Written, Refusal>
    ensures { Permits (to_first (pgon_parts 1 ids.now) out.old) (parts_answer_of result) out.new }
{
    let n = ids.len();
    if out.len() < n + n {
        return Err(Refusal::ShortOutput);
    }
    write_sides(ids, out);
    Ok(Written::alike(Kind::Seg2, n))
}

/// From each node to the next, the last to the first, over the front of out.
fn write_sides(ids: &[u64], out: &mut [u64])
    requires { length ids.now + length ids.now ≤ length out.old }
    ensures { out.new ≡ overwrite (both_ends (cycle ids.now)) out.old }
{
    for (i, id) in ids.iter().enumerate() {
        out[i + i] = *id;
        out[i + i + 1] = after(ids, i);
    }
}

/// The node after a place, going round. With `ids.get(i + 1).copied().unwrap_or(ids[0])` the sides of five nodes
/// take 250 instructions, and 207 so.
fn after(ids: &[u64], i: usize) -> u64
    requires { i < length ids.now }
    ensures { result ≡ get_or ids.now (i + 1) (get_or ids.now 0 separator) }
{
    if i + 1 < ids.len() {
        ids[i + 1]
    } else {
        ids[0]
    }
}
