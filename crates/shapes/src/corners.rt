//! The corners of quads that stand one after another in an array of nodes.
ghost use Rattle.std.specs.Prelude.{◌≡◌, ◌<◌};
ghost use Rattle.shapes.specs.Seek.{corner};

use base::lent::node;

/// Corner j of quad k, going round. The array's length is part of its type, so the compiler sees which reads
/// stay within.
/// The bound of k stands in each function that reads a quad: a struct around one number would be made at each call, which is
/// no plainer.
pub fn corner<const N: usize>(quads: &[u64; N], k: usize, j: usize) -> u64
    requires { k < 8 }
    ensures { result ≡ corner quads.now k j }
{
    node(quads, 4 * k + j % 4)
}
