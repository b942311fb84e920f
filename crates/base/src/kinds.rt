//! The kinds of element, with the node counts and limits that belong to them.
ghost use Rattle.std.specs.Prelude.{◌≡◌};
ghost use Rattle.base.specs.Kinds.{nodes_of};
ghost use Rattle.base.specs.Inner.Numbers.{IsOfKind, number_of, some_unless_zero};

use super::refusals::Refusal;

/// A kind of element; as a number it is what the C interface and the records say.
#[derive(Clone, Copy, Debug, PartialEq, Eq)]
pub enum Kind {
    Vertex = 1,
    Seg2 = 2,
    Seg3 = 3,
    Seg4 = 4,
    Tri3 = 5,
    Tri6 = 6,
    Tri7 = 7,
    Quad4 = 8,
    Quad8 = 9,
    Quad9 = 10,
    Tet4 = 11,
    Tet10 = 12,
    Wedge6 = 13,
    Wedge15 = 14,
    Hex8 = 15,
    Hex21 = 16,
    Pline = 17,
    Pgon = 18,
    Phed = 19,
}

impl Kind {
    pub const VERTEX_NODES: usize = 1;

    pub const SEG2_NODES: usize = 2;

    pub const SEG3_NODES: usize = 3;

    pub const SEG4_NODES: usize = 4;

    pub const TRI3_NODES: usize = 3;

    pub const TRI6_NODES: usize = 6;

    pub const TRI7_NODES: usize = 7;

    pub const QUAD4_NODES: usize = 4;

    pub const QUAD8_NODES: usize = 8;

    pub const QUAD9_NODES: usize = 9;

    pub const TET4_NODES: usize = 4;

    pub const TET10_NODES: usize = 10;

    pub const WEDGE6_NODES: usize = 6;

    pub const WEDGE15_NODES: usize = 15;

    pub const HEX8_NODES: usize = 8;

    pub const HEX21_NODES: usize = 21;

    /// Stands between the faces of a PHED; no id.
    pub const SEPARATOR: u64 = 0xffff_ffff_ffff_ffff;
    /// The most entries of one element, separators counted.
    pub const ELEMENT_LIMIT: usize = 4096;
    /// The most ids of a block.
    pub const BLOCK_LIMIT: usize = 65536;

    /// The number of the kind.
    pub fn number(self) -> u64
        ensures { result ≡ number_of self }
    {
        self as u64
    }

    /// How many nodes an element of the kind has, where the kind fixes it.
    #[tactic(auto, unfolding(crate::specs::Kinds::nodes_of))]
    pub fn nodes(self) -> Option<usize>
        ensures { result ≡ some_unless_zero (nodes_of (number_of self)) }
    {
        match self {
            Kind::Vertex => Some(Kind::VERTEX_NODES),
            Kind::Seg2 => Some(Kind::SEG2_NODES),
            Kind::Seg3 => Some(Kind::SEG3_NODES),
            Kind::Seg4 => Some(Kind::SEG4_NODES),
            Kind::Tri3 => Some(Kind::TRI3_NODES),
            Kind::Tri6 => Some(Kind::TRI6_NODES),
            Kind::Tri7 => Some(Kind::TRI7_NODES),
            Kind::Quad4 => Some(Kind::QUAD4_NODES),
            Kind::Quad8 => Some(Kind::QUAD8_NODES),
            Kind::Quad9 => Some(Kind::QUAD9_NODES),
            Kind::Tet4 => Some(Kind::TET4_NODES),
            Kind::Tet10 => Some(Kind::TET10_NODES),
            Kind::Wedge6 => Some(Kind::WEDGE6_NODES),
            Kind::Wedge15 => Some(Kind::WEDGE15_NODES),
            Kind::Hex8 => Some(Kind::HEX8_NODES),
            Kind::Hex21 => Some(Kind::HEX21_NODES),
            Kind::Pline | Kind::Pgon | Kind::Phed => None,
        }
    }
}

impl TryFrom<u64> for Kind {
    type Error = Refusal;

    ghost try_from_gives = { IsOfKind };

    /// The kind of a number, or refusal 1.
    fn try_from(number: u64) -> Result<Kind, Refusal> {
        match number {
            1 => Ok(Kind::Vertex),
            2 => Ok(Kind::Seg2),
            3 => Ok(Kind::Seg3),
            4 => Ok(Kind::Seg4),
            5 => Ok(Kind::Tri3),
            6 => Ok(Kind::Tri6),
            7 => Ok(Kind::Tri7),
            8 => Ok(Kind::Quad4),
            9 => Ok(Kind::Quad8),
            10 => Ok(Kind::Quad9),
            11 => Ok(Kind::Tet4),
            12 => Ok(Kind::Tet10),
            13 => Ok(Kind::Wedge6),
            14 => Ok(Kind::Wedge15),
            15 => Ok(Kind::Hex8),
            16 => Ok(Kind::Hex21),
            17 => Ok(Kind::Pline),
            18 => Ok(Kind::Pgon),
            19 => Ok(Kind::Phed),
            _ => Err(Refusal::UnknownKind),
        }
    }
}
