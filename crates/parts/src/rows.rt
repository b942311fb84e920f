//! The sub-entities of a kind, by codimension: most are the ids at a row of corner digits.
//!
//! Each arm calls the writer with its own row, so that the compiler knows the row where it takes the writer in.
//! It was measured: a table from a kind to its row, and one writer behind it, read each digit at run time, and take
//! 360 instructions for a brick where this takes 189. There is one function for each codimension: a match over both
//! numbers would have the same arms, and be no plainer. Nor would a struct of a kind and its ids be, with the node
//! count for an invariant: one place would make it, and these three take it apart.
#![tactic(auto, unfolding(crate::specs::Subentities::codim_refusal, crate::specs::Subentities::depth, crate::specs::Subentities::entities, crate::specs::Tables::table_of, base::specs::Kinds::nodes_of))]

ghost use Rattle.std.specs.Prelude.{◌≡◌, false, true, eqb, length};
ghost use Rattle.base.specs.Gather.{pick, undigit};
ghost use Rattle.base.specs.Inner.Numbers.{number_of, refusal_number};
ghost use Rattle.base.specs.Outcome.{Permits, settle_one};
ghost use Rattle.parts.specs.Inner.Fit.{HasNodes, fits};
ghost use Rattle.parts.specs.Inner.Lent.{alike_written, by_kind};
ghost use Rattle.parts.specs.Subentities.{codim_refusal, refused_parts};
ghost use Rattle.parts.specs.Inner.Answers.{parts_answer_of};

use super::gather::{write_copy, write_row};
use super::polygon::pgon_sides;
use super::subentities::Written;
use base::kinds::Kind;
use base::refusals::{Given, Refusal};

/// Codimension 1: the ends of a segment, the sides of a face, the faces of a cell. Those of a PHED are not by a
/// row, and have ends.
#[inline(always)]
pub fn first_parts(kind: Kind, ids: &[u64], out: &mut [u64]) -> Result<Written, Refusal>
    requires nodes { HasNodes (number_of kind) ids.now }
    requires other { eqb (number_of kind) 19 ≡ false }
    ensures { Permits (by_kind (number_of kind) 1 ids.now out.old) (parts_answer_of result) out.new }
{
    match kind {
        Kind::Seg2 | Kind::Seg3 | Kind::Seg4 => of_kind(Kind::Vertex, 2, ids, b"01", out),
        Kind::Tri3 => of_kind(Kind::Seg2, 3, ids, b"011220", out),
        Kind::Tri6 | Kind::Tri7 => of_kind(Kind::Seg3, 3, ids, b"013124205", out),
        Kind::Quad4 => of_kind(Kind::Seg2, 4, ids, b"01122330", out),
        Kind::Tet4 => of_kind(Kind::Tri3, 4, ids, b"013123203021", out),
        Kind::Wedge6 => {
            let written = Written {
                first: Given {
                    kind: Kind::Tri3,
                    count: 2,
                },
                second: Some(Given {
                    kind: Kind::Quad4,
                    count: 3,
                }),
            };
            write_row(written, ids, b"021345014312542035", out)
        },
        Kind::Hex8 => of_kind(Kind::Quad4, 6, ids, b"032145670154237612653047", out),
        Kind::Pgon => pgon_sides(ids, out),
        _ => Err(lacking(kind, 1)),
    }
}

/// Codimension 2: the vertices of a face, the edges of a cell.
pub fn second_parts(kind: Kind, ids: &[u64], out: &mut [u64]) -> Result<Written, Refusal>
    requires { HasNodes (number_of kind) ids.now }
    ensures { Permits (by_kind (number_of kind) 2 ids.now out.old) (parts_answer_of result) out.new }
{
    match kind {
        Kind::Tri3 | Kind::Tri6 | Kind::Tri7 => of_kind(Kind::Vertex, 3, ids, b"012", out),
        Kind::Quad4 => of_kind(Kind::Vertex, 4, ids, b"0123", out),
        Kind::Tet4 => of_kind(Kind::Seg2, 6, ids, b"010203121323", out),
        Kind::Wedge6 => of_kind(Kind::Seg2, 9, ids, b"010203121425343545", out),
        Kind::Hex8 => of_kind(Kind::Seg2, 12, ids, b"010304121523263745475667", out),
        Kind::Pgon => write_copy(Written::alike(Kind::Vertex, ids.len()), ids, out),
        _ => Err(lacking(kind, 2)),
    }
}

/// Codimension 3: the vertices of a cell.
pub fn third_parts(kind: Kind, ids: &[u64], out: &mut [u64]) -> Result<Written, Refusal>
    requires { HasNodes (number_of kind) ids.now }
    ensures { Permits (by_kind (number_of kind) 3 ids.now out.old) (parts_answer_of result) out.new }
{
    match kind {
        Kind::Tet4 => of_kind(Kind::Vertex, 4, ids, b"0123", out),
        Kind::Wedge6 => of_kind(Kind::Vertex, 6, ids, b"012345", out),
        Kind::Hex8 => of_kind(Kind::Vertex, 8, ids, b"01234567", out),
        _ => Err(lacking(kind, 3)),
    }
}

/// Why a kind has no sub-entities at a codimension: there is no such codimension above 3, nor for a kind that
/// has others, and else there is no rule. That a PHED has faces counts for nothing.
pub fn lacking(kind: Kind, codim: u64) -> Refusal
    requires { codim_refusal (number_of kind) codim ≡ 0 → ⊥ }
    ensures { codim_refusal (number_of kind) codim ≡ refusal_number result }
{
    if 3 < codim {
        return Refusal::NoSuchCodimension;
    }
    match kind {
        Kind::Seg2
        | Kind::Seg3
        | Kind::Seg4
        | Kind::Tri3
        | Kind::Tri6
        | Kind::Tri7
        | Kind::Quad4
        | Kind::Tet4
        | Kind::Wedge6
        | Kind::Hex8
        | Kind::Pgon => Refusal::NoSuchCodimension,
        _ => Refusal::NoRule,
    }
}

/// Sub-entities of one kind.
fn of_kind(
    kind: Kind,
    count: usize,
    ids: &[u64],
    row: &[u8],
    out: &mut [u64],
) -> Result<Written, Refusal>
    requires { fits (length ids.now) row.now ≡ true }
    ensures { Permits (settle_one refused_parts 0 (parts_answer_of (Ok (alike_written kind count))) (pick ids.now (undigit row.now)) out.old) (parts_answer_of result) out.new }
{
    write_row(Written::alike(kind, count), ids, row, out)
}
