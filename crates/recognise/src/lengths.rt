//! The lengths of a PHED's faces, and the nodes of those of one length.
ghost use Rattle.std.specs.Prelude.{◌≡◌, length};
ghost use Rattle.base.specs.Inner.Numbers.{some_unless_zero};
ghost use Rattle.faces.specs.Faces.{faces};
ghost use Rattle.recognise.specs.Recognise.{nodes_in, other_length, tally};

use faces::Faces;

/// How many faces have n nodes.
pub fn tally(ids: &[u64], n: usize) -> usize
    ensures { result ≡ tally n (faces ids.now) }
{
    let mut found = 0;
    for face in Faces::of(ids) {
        found += usize::from(face.len() == n);
    }
    found
}

/// The length of the first face that has neither a nor b nodes.
pub fn other_length(ids: &[u64], a: usize, b: usize) -> Option<usize>
    ensures { result ≡ some_unless_zero (other_length a b (faces ids.now)) }
{
    for face in Faces::of(ids) {
        if face.len() != a && face.len() != b {
            return Some(face.len());
        }
    }
    None
}

/// The nodes of the faces that have n, one face after another: they are N in all.
pub fn nodes_in<const N: usize>(ids: &[u64], n: usize) -> [u64; N]
    requires { length (nodes_in n (faces ids.now)) ≡ N }
    ensures { result ≡ nodes_in n (faces ids.now) }
{
    let mut nodes = [0; N];
    let out = &mut nodes[..];
    let mut filled = 0;
    for face in Faces::of(ids) {
        if face.len() == n {
            out[filled..filled + n].copy_from_slice(face);
            filled += n;
        }
    }
    nodes
}
