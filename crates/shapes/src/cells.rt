//! A recognised cell.
ghost use Rattle.std.specs.Prelude.{◌≡◌};
ghost use Rattle.base.specs.Inner.Numbers.{number_of};
ghost use Rattle.shapes.specs.Inner.Made.{kind_of, nodes_of};

use base::kinds::Kind;

/// A cell of one of the kinds that fill space, with its nodes.
#[derive(Clone, Copy, Debug, PartialEq, Eq)]
pub enum Cell {
    Tet4([u64; Kind::TET4_NODES]),
    Wedge6([u64; Kind::WEDGE6_NODES]),
    Hex8([u64; Kind::HEX8_NODES]),
}

impl Cell {
    /// The kind of the cell.
    pub fn kind(&self) -> Kind
        ensures { number_of result ≡ kind_of self.now }
    {
        match self {
            Cell::Tet4(_) => Kind::Tet4,
            Cell::Wedge6(_) => Kind::Wedge6,
            Cell::Hex8(_) => Kind::Hex8,
        }
    }

    /// Its nodes, as many as the kind has.
    pub fn nodes(&self) -> &[u64]
        ensures { result.now ≡ nodes_of self.now }
    {
        match self {
            Cell::Tet4(nodes) => nodes,
            Cell::Wedge6(nodes) => nodes,
            Cell::Hex8(nodes) => nodes,
        }
    }
}
