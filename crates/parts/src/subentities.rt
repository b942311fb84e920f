//! The sub-entities of an element at a codimension.
ghost use Rattle.std.specs.Prelude.{◌≡◌};
ghost use Rattle.base.specs.Inner.Numbers.{refusal_number};
ghost use Rattle.base.specs.Outcome.{Permits};
ghost use Rattle.parts.specs.Subentities.{refused_parts, subentities_outcome};
ghost use Rattle.parts.specs.Inner.Answers.{parts_answer_of};
ghost use Rattle.parts.specs.Inner.Lent.{alike_written};

use super::phed::phed_parts;
use super::rows::{first_parts, lacking, second_parts, third_parts};
use base::checks::check_element;
use base::kinds::Kind;
use base::refusals::{Given, Refusal};

/// What `subentities` wrote: sub-entities of one kind, and behind them, for the faces of a WEDGE6, those of
/// another.
#[derive(Clone, Copy, Debug, PartialEq, Eq)]
pub struct Written {
    pub first: Given,
    pub second: Option<Given>,
}

impl Written {
    /// Sub-entities of one kind.
    pub fn alike(kind: Kind, count: usize) -> Written
        ensures { result ≡ alike_written kind count }
    {
        Written {
            first: Given { kind, count },
            second: None,
        }
    }
}

/// What the C interface answers: the refusal, 0 if there is none, and the kind and count of what was
/// written, with a second pair for the faces of a WEDGE6; all 0 in a refusal.
#[repr(C)]
#[derive(Clone, Copy, Debug, Default, PartialEq, Eq)]
pub struct Parts {
    pub refusal: u64,
    pub kind: u64,
    pub count: u64,
    pub kind2: u64,
    pub count2: u64,
}

impl From<Refusal> for Parts {
    ghost from_gives = { λ refusal parts. parts ≡ refused_parts (refusal_number refusal) };

    fn from(refusal: Refusal) -> Parts {
        Parts {
            refusal: refusal.number(),
            ..Parts::default()
        }
    }
}

impl From<Result<Written, Refusal>> for Parts {
    ghost from_gives = { λ result parts. parts ≡ parts_answer_of result };

    fn from(outcome: Result<Written, Refusal>) -> Parts {
        match outcome {
            Ok(written) => {
                let (kind2, count2) = match written.second {
                    Some(second) => (second.kind.number(), second.count as u64),
                    None => (0, 0),
                };
                Parts {
                    refusal: 0,
                    kind: written.first.kind.number(),
                    count: written.first.count as u64,
                    kind2,
                    count2,
                }
            },
            Err(refusal) => refusal.into(),
        }
    }
}

/// The sub-entities' ids over the front of out, one sub-entity after another. The codimension says how far
/// below the element they lie; with none, 1 is meant. The faces of a PHED differ in length: where each ends
/// goes over the front of ends, which other kinds leave alone.
///
/// The C interface has an entry point for an absent codimension and one for a number. The compiler takes this
/// into both, so that no answer is copied on the way, and tests no codimension in the first.
#[inline(always)]
pub fn subentities(
    kind: u64,
    codim: Option<u64>,
    ids: &[u64],
    out: &mut [u64],
    ends: &mut [u64],
) -> Result<Written, Refusal>
    ensures { Permits (subentities_outcome kind codim ids.now (out.old, ends.old)) (parts_answer_of result) (out.new, ends.new) }
{
    let kind = check_element(kind, ids)?;
    let codim = codim.unwrap_or(1);
    match codim {
        1 => match kind {
            Kind::Phed => phed_parts(ids, out, ends),
            _ => first_parts(kind, ids, out),
        },
        2 => second_parts(kind, ids, out),
        3 => third_parts(kind, ids, out),
        _ => Err(lacking(kind, codim)),
    }
}
