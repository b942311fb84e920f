//! The checks that every input passes first: refusals 1 to 4, in that order.
ghost use Rattle.std.specs.Prelude.{◌≡◌, false, ◌<◌};
ghost use Rattle.base.specs.Checks.{block_fits, block_refusal, element_fits, element_refusal, holds_separator, input_refusal};
ghost use Rattle.base.specs.Inner.Numbers.{KindUnless, RefusedBy, number_of};

use super::kinds::Kind;
use super::refusals::Refusal;

/// The kind of one element, if its list meets none of the refusals 1 to 4. Every operation on one element begins with
/// it, and is faster where it is taken in.
#[inline(always)]
#[tactic(auto, unfolding(crate::specs::Checks::element_refusal, crate::specs::Checks::input_refusal))]
pub fn check_element(kind: u64, ids: &[u64]) -> Result<Kind, Refusal>
    ensures { KindUnless (element_refusal kind ids.now) kind result }
{
    let kind = Kind::try_from(kind)?;
    check_ids(
        kind,
        ids,
        Kind::ELEMENT_LIMIT,
        element_fits(kind, ids.len()),
    )?;
    Ok(kind)
}

/// Whether the node count is right for one element of the kind.
#[tactic(auto, unfolding(crate::specs::Checks::element_fits))]
pub fn element_fits(kind: Kind, n: usize) -> bool
    ensures { result ≡ element_fits (number_of kind) n }
{
    match kind.nodes() {
        Some(nodes) => n == nodes,
        None => kind == Kind::Phed || 0 < n,
    }
}

/// The kind of a block, if its list meets none of the refusals 1 to 4.
#[tactic(auto, unfolding(crate::specs::Checks::block_refusal, crate::specs::Checks::input_refusal))]
pub fn check_block(kind: u64, ids: &[u64]) -> Result<Kind, Refusal>
    ensures { KindUnless (block_refusal kind ids.now) kind result }
{
    let kind = Kind::try_from(kind)?;
    check_ids(kind, ids, Kind::BLOCK_LIMIT, block_fits(kind, ids.len()))?;
    Ok(kind)
}

/// Whether the node count is right for a block of the kind. It stays beside `element_fits`: the two differ in a test
/// each, which a parameter for both would only name again.
#[tactic(auto, unfolding(crate::specs::Checks::block_fits))]
fn block_fits(kind: Kind, n: usize) -> bool
    ensures { result ≡ block_fits (number_of kind) n }
{
    match kind.nodes() {
        Some(nodes) => n % nodes == 0,
        None => true,
    }
}

/// What the two share: the limit and the verdict on the node count differ.
#[inline(always)]
#[tactic(auto, unfolding(crate::specs::Checks::input_refusal, crate::specs::Checks::strays))]
fn check_ids(kind: Kind, ids: &[u64], limit: usize, fits: bool) -> Result<(), Refusal>
    ensures { RefusedBy (input_refusal limit fits (number_of kind) ids.now) result }
{
    if limit < ids.len() {
        return Err(Refusal::TooManyEntries);
    }
    if !fits {
        return Err(Refusal::WrongNodeCount);
    }
    if kind != Kind::Phed && holds_separator(ids) {
        return Err(Refusal::StraySeparator);
    }
    Ok(())
}

const HIGHEST_BIT: u64 = 0x8000_0000_0000_0000;

/// How many ids are joined at a time: more than a cell has, so that a cell's ids are compared at once.
const PART: usize = 64;

/// Whether a separator stands in the list.
fn holds_separator(ids: &[u64]) -> bool
    ensures { result ≡ holds_separator ids.now }
{
    if PART <= ids.len() {
        return long_holds_separator(ids);
    }
    finds_separator(ids)
}

/// The same for a long list. A separator has the highest bit, which small ids lack, and to join the bits of ids takes half
/// the instructions of comparing each: so they are compared only from the first part on in which one has it. It stays out
/// of its callers, most of whose lists are short.
#[inline(never)]
fn long_holds_separator(ids: &[u64]) -> bool
    ensures { result ≡ holds_separator ids.now }
{
    let mut rest = ids;
    while let Some((part, behind)) = rest.split_first_chunk::<PART>() {
        if HIGHEST_BIT <= all_bits(part) {
            return finds_separator(rest);
        }
        rest = behind;
    }
    finds_separator(rest)
}

/// The same by comparing. Like the loop below it reads all ids with no early end, so that it has no branch to mispredict
/// and works on several ids at a time.
fn finds_separator(ids: &[u64]) -> bool
    ensures { result ≡ holds_separator ids.now }
{
    let mut found = false;
    for id in ids {
        found |= *id == Kind::SEPARATOR;
    }
    found
}

/// All bits of all ids.
fn all_bits(ids: &[u64]) -> u64
    ensures { result < 9223372036854775808 → holds_separator ids.now ≡ false }
{
    let mut bits = 0;
    for id in ids {
        bits |= *id;
    }
    bits
}
