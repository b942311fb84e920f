//! Where the smallest id stands, and which diagonal of a quad holds it.
ghost use Rattle.std.specs.Prelude.{◌≡◌, [], ◌∷◌, ◌+◌, ◌<◌, ◌≤◌, length};
ghost use Rattle.base.specs.Gather.{pick, undigit};
ghost use Rattle.cuts.specs.Smallest.{first_diagonal, smallest_pos};
ghost use Rattle.simplexes.specs.Inner.Lesser.{entry_of, lesser_of};

use base::lent::{gather_digits, node};

/// The first position of the smallest id; 0 in an empty list.
// `min_by_key` over places and ids would say no more plainly that the first of equal ids counts.
/// The spec says 0 for an empty list; `min_by_key` would carry an `Option` for it, which is no plainer.
pub fn smallest(ids: &[u64]) -> usize
    ensures { result ≡ smallest_pos ids.now }
{
    let mut best = 0;
    let mut least = node(ids, 0);
    for (i, id) in ids.iter().enumerate() {
        if *id < least {
            best = i;
            least = *id;
        }
    }
    best
}

/// An id and its place.
#[derive(Clone, Copy)]
pub struct Least {
    pub place: usize,
    pub id: u64,
}

/// The first position of the smallest of a brick's eight ids. The ids are compared in pairs, so that no comparison waits for
/// all before it and none becomes a jump.
// One function for eight and six would have to halve a const parameter, which can't be written.
pub fn smallest_of_eight(ids: &[u64; 8]) -> usize
    ensures { (result ≡ smallest_pos ids.now) × (result < 8) }
{
    lesser(least_of_four(ids, 0), least_of_four(ids, 4)).place
}

/// The same of a wedge's six.
pub fn smallest_of_six(ids: &[u64; 6]) -> usize
    ensures { (result ≡ smallest_pos ids.now) × (result < 6) }
{
    lesser(least_of_four(ids, 0), least_of_two(ids, 4)).place
}

fn least_of_four(ids: &[u64], at: usize) -> Least
    requires { at + 4 ≤ length ids.now }
    ensures { result ≡ lesser_of (lesser_of (entry_of ids.now at) (entry_of ids.now (at + 1))) (lesser_of (entry_of ids.now (at + 2)) (entry_of ids.now (at + 2 + 1))) }
{
    lesser(least_of_two(ids, at), least_of_two(ids, at + 2))
}

fn least_of_two(ids: &[u64], at: usize) -> Least
    requires { at + 2 ≤ length ids.now }
    ensures { result ≡ lesser_of (entry_of ids.now at) (entry_of ids.now (at + 1)) }
{
    lesser(entry(ids, at), entry(ids, at + 1))
}

fn entry(ids: &[u64], place: usize) -> Least
    requires { place < length ids.now }
    ensures { result ≡ entry_of ids.now place }
{
    Least {
        place,
        id: ids[place],
    }
}

/// The lesser of two, the first on a tie.
// A derived order would compare the places too, where the ids are equal: a second comparison for each.
#[tactic(auto, unfolding(crate::specs::Inner::Lesser::lesser_of))]
fn lesser(first: Least, second: Least) -> Least
    ensures { result ≡ lesser_of first second }
{
    if second.id < first.id { second } else { first }
}

/// Whether the smallest id at a quad's four corners stands on the quad's first diagonal.
// A corner may be lacking here, so `solids::gather`, which tests nothing, does not serve.
pub fn first_diagonal(ids: &[u64], quad: &[u8; 4]) -> bool
    ensures { result ≡ first_diagonal (pick ids.now (undigit quad.now)) }
{
    let mut four = [0u64; 4];
    gather_digits(ids, quad, &mut four);
    on_first(four[0], four[1], four[2], four[3])
}

/// Whether the smallest of four ids is a or c. On a tie the first place counts, so b goes before c. Each test
/// is by <, whose outcome the processor has in one step where <= takes it two.
pub fn on_first(a: u64, b: u64, c: u64, d: u64) -> bool
    ensures { result ≡ first_diagonal (a ∷ b ∷ c ∷ d ∷ []) }
{
    (!(b < a) & !(d < a)) | (!(d < c) & (c < b))
}
