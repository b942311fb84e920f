//! The faces of a PHED, read one after another from the caller's list.
#![tactic(auto)]

ghost use Rattle.std.specs.Prelude.{◌≡◌, ◌+◌, drop, false, length, true};
ghost use Rattle.std.specs.Iterator.{YieldsFirstRef, item_count};
ghost use Rattle.faces.specs.Faces.{faces};
ghost use Rattle.faces.specs.Inner.Walk.{left, next_face, span};

use base::kinds::Kind;

/// The faces that are left in a list, each a part of it.
#[derive(Clone, Copy)]
pub struct Faces<'a> {
    pub ids: &'a [u64],
}

impl<'a> Faces<'a> {
    pub fn of(ids: &'a [u64]) -> Faces<'a>
        ensures { left result ≡ faces ids.entry.now }
    {
        Faces { ids }
    }
}

impl<'a> Iterator for Faces<'a> {
    type Item = &'a [u64];

    ghost next_gives = { YieldsFirstRef left };

    ghost remaining = { item_count left };

    fn next(&mut self) -> Option<&'a [u64]> {
        let Face { start, end } = next_face(self.ids, 0);
        if start == end {
            return None;
        }
        let (passed, after) = self.ids.split_at(end);
        let (_, face) = passed.split_at(start);
        self.ids = after;
        Some(face)
    }
}

/// Where a face stands in a list: from start up to, and not with, end. Equal numbers are no face.
#[derive(Clone, Copy, Debug, PartialEq, Eq)]
pub struct Face {
    pub start: usize,
    pub end: usize,
}

/// The next face at or after a place of a list, behind the separators there.
pub fn next_face(ids: &[u64], at: usize) -> Face
    ensures { result ≡ next_face ids.now at }
{
    let start = past(ids, at, true);
    let end = past(ids, start, false);
    Face { start, end }
}

/// Where the separators, or else the ids, that stand from a place on end.
fn past(ids: &[u64], at: usize, separators: bool) -> usize
    ensures { result ≡ at + span separators (drop at ids.now) }
{
    let (_, rest) = ids.split_at(at.min(ids.len()));
    at + run(rest, separators)
}

/// How many separators, or else how many ids, stand at the front. A flag says which: a closure for each would
/// stand in place of one word.
fn run(ids: &[u64], separators: bool) -> usize
    ensures { result ≡ span separators ids.now }
{
    for (i, id) in ids.iter().enumerate() {
        if (*id == Kind::SEPARATOR) != separators {
            return i;
        }
    }
    ids.len()
}
