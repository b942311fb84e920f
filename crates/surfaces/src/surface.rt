//! Whether faces close to a surface: every undirected edge of their cycles occurs exactly twice. The
//! edges are read off the caller's list, none are kept. It is enough to look behind each edge: if none
//! occurs there more than once, each occurs twice exactly when half of the edges do.
ghost use Rattle.std.specs.Prelude.{◌≡◌, ◌<◌, length};
ghost use Rattle.base.specs.Kinds.{separator};
ghost use Rattle.faces.specs.Edges.{closed, count, edge, same};
ghost use Rattle.faces.specs.Faces.{faces};
ghost use Rattle.surfaces.specs.Inner.Places.{edges_from, follower, head, later_at, NextEnd};

use base::kinds::Kind;
use base::lent::node;

/// Whether every edge occurs exactly twice.
/// Not `numbers::closes`, which wants a cell's nodes in an array: a list may be of any length, and nothing is copied.
pub fn is_closed(ids: &[u64]) -> bool
    ensures { result ≡ closed (faces ids.now) }
{
    let mut edges = 0;
    let mut pairs = 0;
    for (i, id) in ids.iter().enumerate() {
        let later = occurs_later(ids, i);
        if 1 < later {
            return false;
        }
        edges += usize::from(*id != Kind::SEPARATOR);
        pairs += later;
    }
    edges == pairs + pairs
}

/// How often the edge that starts at a place occurs behind it. None starts at a separator.
fn occurs_later(ids: &[u64], i: usize) -> usize
    requires { i < length ids.now }
    ensures { result ≡ later_at ids.now i }
{
    let from = node(ids, i);
    if from == Kind::SEPARATOR {
        return 0;
    }
    occurrences(ids, i + 1, from, follower(ids, i))
}

/// How often the edge between a and b occurs from a place on, in either direction. A face that runs
/// it twice counts twice.
fn occurrences(ids: &[u64], mut at: usize, a: u64, b: u64) -> usize
    requires { (a ≡ separator → ⊥) × (b ≡ separator → ⊥) }
    ensures { result ≡ count (edge a b) (edges_from ids.now at) }
{
    let mut found = 0;
    while let Some(i) = next_end(ids, at, a, b) {
        found += usize::from(same(a, b, node(ids, i), follower(ids, i)));
        at = i + 1;
    }
    found
}

/// The first place from a place on that holds a or b: no edge between them starts before it. Most
/// places hold neither, so this loop does nothing else: one loop that also counts took half as long again.
fn next_end(ids: &[u64], at: usize, a: u64, b: u64) -> Option<usize>
    ensures { NextEnd ids.now at a b result }
{
    for i in at..ids.len() {
        if (ids[i] == a) | (ids[i] == b) {
            return Some(i);
        }
    }
    None
}

/// Whether a to b and x to y are the same edge, in either direction. All four comparisons are made: a
/// branch among them would be hard to foresee.
pub fn same(a: u64, b: u64, x: u64, y: u64) -> bool
    ensures { result ≡ same (edge a b) (edge x y) }
{
    ((a == x) & (b == y)) | ((a == y) & (b == x))
}

/// The node that follows the one at a place in its face.
fn follower(ids: &[u64], i: usize) -> u64
    requires { i < length ids.now }
    ensures { result ≡ follower ids.now i }
{
    let next = node(ids, i + 1);
    if next == Kind::SEPARATOR {
        return head(ids, i);
    }
    next
}

/// The first node of the face that holds a place: faces are short, so it is looked up backwards.
fn head(ids: &[u64], i: usize) -> u64
    ensures { result ≡ head ids.now i }
{
    for k in (0..i).rev() {
        if node(ids, k) == Kind::SEPARATOR {
            return node(ids, k + 1);
        }
    }
    node(ids, 0)
}
