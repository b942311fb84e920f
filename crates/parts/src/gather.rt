//! The writers over the front of a lent slice, which refuse where it is too short: a list, and the ids at a row
//! whose corners are all there, but for colons.
ghost use Rattle.std.specs.Prelude.{◌≡◌, true, ◌-◌, ◌≤◌, get_or, length};
ghost use Rattle.base.specs.Gather.{pick, undigit};
ghost use Rattle.base.specs.Kinds.{separator};
ghost use Rattle.base.specs.Outcome.{overwrite};
ghost use Rattle.parts.specs.Inner.Fit.{fit, fits};
ghost use Rattle.parts.specs.Inner.Room.{IfRoom};

use base::kinds::Kind;
use base::lent::copy;
use base::refusals::Refusal;

/// The ids at a row over the front of out, if there is room.
#[tactic(auto, using(crate::proofs::Fitting::row_lengths))]
pub fn write_row<T: Copy>(given: T, ids: &[u64], row: &[u8], out: &mut [u64]) -> Result<T, Refusal>
    requires { fits (length ids.now) row.now ≡ true }
    ensures { IfRoom given (pick ids.now (undigit row.now)) out.old result out.new }
{
    if out.len() < row.len() {
        return Err(Refusal::ShortOutput);
    }
    gather_within(ids, row, out);
    Ok(given)
}

/// A list over the front of out, if there is room.
pub fn write_copy<T: Copy>(given: T, list: &[u64], out: &mut [u64]) -> Result<T, Refusal>
    ensures { IfRoom given list.now out.old result out.new }
{
    if out.len() < list.len() {
        return Err(Refusal::ShortOutput);
    }
    copy(list, out);
    Ok(given)
}

/// The ids at a row over the front of out, as `base::lent::gather_digits` writes them. Nothing is compared with the
/// lengths, so that a row which the compiler knows becomes one load and one store for each digit.
/// That the row fits is asked of each caller: the compiler knows the row as an argument, and a struct of ids and row would
/// be made at each call, which is no plainer.
fn gather_within(ids: &[u64], row: &[u8], out: &mut [u64])
    requires row_in_bounds { length row.now ≤ length out.old }
    requires row_value { fits (length ids.now) row.now ≡ true }
    ensures { out.new ≡ overwrite (pick ids.now (undigit row.now)) out.old }
{
    for (place, digit) in row.iter().enumerate() {
        out[place] = node_within(ids, *digit);
    }
}

/// The id at the corner of a digit, or the separator at the colon. A digit is widened before 48 is taken off: with
/// `digit - b'0'` the rows of a poly form stay loops, and a wedge takes 491 instructions for 183.
fn node_within(ids: &[u64], digit: u8) -> u64
    requires { fit (length ids.now) digit ≡ true }
    ensures { result ≡ get_or ids.now (digit - 48) separator }
{
    if digit == b':' {
        return Kind::SEPARATOR;
    }
    ids[usize::from(digit) - 48]
}
