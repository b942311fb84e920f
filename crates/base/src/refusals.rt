//! Why an operation refuses, what it gives, and the answer that carries either to C.
ghost use Rattle.std.specs.Prelude.{◌≡◌};
ghost use Rattle.base.specs.Inner.Numbers.{answer_of, count_answer_of, refusal_number};
ghost use Rattle.base.specs.Outcome.{refused};

use super::kinds::Kind;

/// Why an operation refuses; as a number it is what the C interface says. Where several conditions hold, the
/// refusal given is the first in the order 21, 1, 2, 3, 4, 20, 5, 6, 19, then 8 to 18 as the rules meet them, 7 last.
#[derive(Clone, Copy, Debug, PartialEq, Eq)]
pub enum Refusal {
    /// The kind is not 1 to 19.
    UnknownKind = 1,
    /// More entries than the limit.
    TooManyEntries = 2,
    /// The node count is wrong for the kind, or a block is no multiple of it.
    WrongNodeCount = 3,
    /// A separator in a kind other than PHED.
    StraySeparator = 4,
    /// The codimension is above 3, or not in the table of a kind that has one.
    NoSuchCodimension = 5,
    /// The operation has no rule for this kind.
    NoRule = 6,
    /// A lent output is shorter than the answer.
    ShortOutput = 7,
    /// A PHED with no face.
    NoFace = 8,
    /// A PLINE not of 2 nodes, or a PGON not of 3 or 4.
    NoSuchPoly = 9,
    /// Faces of three or more lengths.
    ThreeFaceLengths = 10,
    /// Faces of two lengths, but not two triangles and three quads.
    NoWedgeFaces = 11,
    /// No quad runs from the first triangle's second node to its first.
    NoQuadAtEdge = 12,
    /// The node found is not in the second triangle.
    NotInSecondTriangle = 13,
    /// One face length, and some edge not there exactly twice.
    OpenSurface = 14,
    /// Closed, but not 4 triangles or 6 quads.
    NoSuchSurface = 15,
    // 16 is never given: four triangles of a closed surface have a fourth node.
    /// No face opposite the first.
    NoOppositeFace = 17,
    /// No side face at a bottom edge.
    NoSideFace = 18,
    /// A needed id has no point.
    NoPoint = 19,
    /// The dimension is not 2 or 3, or the point list is no multiple of it.
    WrongPoints = 20,
    /// An input record is cut short, of a length odd to the format, or too long.
    BadRecord = 21,
}

impl Refusal {
    /// The number of the refusal.
    pub fn number(self) -> u64
        ensures { result ≡ refusal_number self }
    {
        self as u64
    }
}

/// What an operation wrote over the front of what it was lent: the kind of it, and how many.
#[derive(Clone, Copy, Debug, PartialEq, Eq)]
pub struct Given {
    pub kind: Kind,
    pub count: usize,
}

/// What the C interface answers: the refusal, 0 if there is none, and the kind and count of what was
/// written, both 0 in a refusal.
#[repr(C)]
#[derive(Clone, Copy, Debug, Default, PartialEq, Eq)]
pub struct Answer {
    pub refusal: u64,
    pub kind: u64,
    pub count: u64,
}

impl From<Refusal> for Answer {
    ghost from_gives = { λ refusal answer. answer ≡ refused (refusal_number refusal) };

    fn from(refusal: Refusal) -> Answer {
        Answer {
            refusal: refusal.number(),
            ..Answer::default()
        }
    }
}

impl From<Result<Given, Refusal>> for Answer {
    ghost from_gives = { λ outcome answer. answer ≡ answer_of outcome };

    fn from(outcome: Result<Given, Refusal>) -> Answer {
        match outcome {
            Ok(given) => Answer {
                kind: given.kind.number(),
                count: given.count as u64,
                ..Answer::default()
            },
            Err(refusal) => refusal.into(),
        }
    }
}

/// A count of what has no kind. Two conversions stand here, since what is given is of two types.
impl From<Result<usize, Refusal>> for Answer {
    ghost from_gives = { λ outcome answer. answer ≡ count_answer_of outcome };

    fn from(outcome: Result<usize, Refusal>) -> Answer {
        match outcome {
            Ok(count) => Answer {
                count: count as u64,
                ..Answer::default()
            },
            Err(refusal) => refusal.into(),
        }
    }
}
