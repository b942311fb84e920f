//! The writers over the front of a lent slice; what lies behind the answer stays.
ghost use Rattle.std.specs.Prelude.{◌≡◌, ◌-◌, ◌≤◌, get_or, length};
ghost use Rattle.base.specs.Gather.{pick, undigit};
ghost use Rattle.base.specs.Kinds.{separator};
ghost use Rattle.base.specs.Outcome.{overwrite};

use super::kinds::Kind;

/// The list over the front of out.
/// Not `copy_from_slice`, which calls `memmove`: an archive for C needs no more of its host than `memcpy` and `memset`.
pub fn copy(list: &[u64], out: &mut [u64])
    requires { length list.now ≤ length out.old }
    ensures { out.new ≡ overwrite list.now out.old }
{
    for (at, id) in list.iter().enumerate() {
        out[at] = *id;
    }
}

/// The ids at a row of corners, written as digits, over the front of out.
pub fn gather_digits(ids: &[u64], row: &[u8], out: &mut [u64])
    requires { length row.now ≤ length out.old }
    ensures { out.new ≡ overwrite (pick ids.now (undigit row.now)) out.old }
{
    for (at, digit) in row.iter().enumerate() {
        out[at] = node(ids, corner_of(*digit));
    }
}

/// The id at a corner; a corner past the last node stands for the separator.
/// The spec gives the separator for a corner that is lacking, so this is no `Option`.
pub fn node(ids: &[u64], corner: usize) -> u64
    ensures { result ≡ get_or ids.now corner separator }
{
    ids.get(corner).copied().unwrap_or(Kind::SEPARATOR)
}

/// The corner that a digit of ASCII stands for. The colon, which follows 9, stands for corner 10.
fn corner_of(digit: u8) -> usize
    ensures { result ≡ digit - 48 }
{
    usize::from(digit.saturating_sub(b'0'))
}
