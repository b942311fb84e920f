//! Whether the faces of a cell close to a surface, from its nodes one face after another. A node goes
//! by the number of its first place, so an edge is one small number, and a table counts how often each
//! is met. Two nodes have the same number exactly when they are the same, so the surface is closed
//! exactly when every edge's number is met twice.
ghost use Rattle.std.specs.Prelude.{◌≡◌, ◌<◌, ◌≤◌, length};
ghost use Rattle.surfaces.specs.Inner.Numbers.{closed_by, Coded, Counted, Few, each_twice, Numbered, pair, place_of, Small, Within};

/// A place for each two numbers below 24: no cell has more nodes on its faces than six quads.
const PAIRS: usize = 768;

/// Whether every edge occurs exactly twice, where next has the place of each node's next one.
pub fn closes<const N: usize>(nodes: &[u64; N], next: &[usize; N]) -> bool
    requires few { length nodes.now ≤ 24 }
    requires within { Within next.now (length nodes.now) }
    ensures { result ≡ closed_by nodes.now next.now }
{
    let edges = number_edges(&number_nodes(nodes), next);
    all_twice(&edges, &count(&edges))
}

/// Each node's number.
/// What it ensures the next step requires: a struct around one array, with a ghost field, would only move the clause.
fn number_nodes<const N: usize>(nodes: &[u64; N]) -> [usize; N]
    requires { length nodes.now ≤ 24 }
    ensures { Numbered nodes.now result × Small result }
{
    let mut numbers = [0; N];
    for (i, x) in nodes.iter().enumerate() {
        numbers[i] = number_of(nodes, *x);
    }
    numbers
}

/// The first place of a node.
fn number_of(nodes: &[u64], x: u64) -> usize
    ensures { result ≡ place_of nodes.now x }
{
    nodes
        .iter()
        .position(|node| *node == x)
        .unwrap_or(nodes.len())
}

/// The number of the edge from each place.
fn number_edges<const N: usize>(numbers: &[usize; N], next: &[usize; N]) -> [usize; N]
    requires small { Small numbers.now }
    requires within { Within next.now (length numbers.now) }
    ensures { Coded numbers.now next.now result × Few result }
{
    let mut edges = [0; N];
    for (i, number) in numbers.iter().enumerate() {
        edges[i] = pair(*number, numbers[next[i]]);
    }
    edges
}

/// The number of the edge between the nodes of two numbers, in either direction.
fn pair(a: usize, b: usize) -> usize
    requires { (a < 24) × (b < 24) }
    ensures { (result ≡ pair a b) × (result < 768) }
{
    32 * a.min(b) + a.max(b)
}

/// How often each number of an edge is met.
fn count<const N: usize>(edges: &[usize; N]) -> [u8; PAIRS]
    requires { (length edges.now ≤ 24) × Few edges.now }
    ensures { Counted edges.now result }
{
    let mut counts = [0; PAIRS];
    for edge in edges {
        counts[*edge] += 1;
    }
    counts
}

/// Whether the number of every edge is met twice.
fn all_twice<const N: usize>(edges: &[usize; N], counts: &[u8; PAIRS]) -> bool
    requires { Few edges.now × Counted edges.now counts.now }
    ensures { result ≡ each_twice edges.now 0 (length edges.now) }
{
    for edge in edges {
        if counts[*edge] != 2 {
            return false;
        }
    }
    true
}
