//! A PHED as the cell that its faces make.
ghost use Rattle.std.specs.Prelude.{◌≡◌};
ghost use Rattle.faces.specs.Faces.{faces};
ghost use Rattle.recognise.specs.Recognise.{from_phed, mixed, regular};
ghost use Rattle.shapes.specs.Inner.Made.{cell_of};

use super::laid::{is_laid_brick, is_laid_tet, is_laid_wedge, laid_brick, laid_tet, laid_wedge};
use super::lengths::{nodes_in, other_length, tally};
use base::kinds::Kind;
use base::refusals::Refusal;
use shapes::brick::brick;
use shapes::cells::Cell;
use shapes::tet::tet;
use shapes::wedge::wedge;
use surfaces::surface::is_closed;

/// The cell that the faces make. The usual lists are told apart first.
pub fn recognise(ids: &[u64]) -> Result<Cell, Refusal>
    ensures { cell_of result ≡ from_phed ids.now }
{
    if is_laid_tet(ids) {
        return laid_tet(ids);
    }
    if is_laid_brick(ids) {
        return laid_brick(ids);
    }
    if is_laid_wedge(ids) {
        return laid_wedge(ids);
    }
    by_lengths(ids)
}

/// The same for any list: 8 if there is no face, 10 if they are of three lengths or more.
fn by_lengths(ids: &[u64]) -> Result<Cell, Refusal>
    ensures { cell_of result ≡ from_phed ids.now }
{
    let Some(first) = other_length(ids, 0, 0) else {
        return Err(Refusal::NoFace);
    };
    let Some(second) = other_length(ids, first, first) else {
        return regular(ids);
    };
    match other_length(ids, first, second) {
        None => mixed(ids),
        Some(_) => Err(Refusal::ThreeFaceLengths),
    }
}

/// Faces of one length: a closed surface of four triangles or six quads.
fn regular(ids: &[u64]) -> Result<Cell, Refusal>
    ensures { cell_of result ≡ regular (faces ids.now) }
{
    if !is_closed(ids) {
        return Err(Refusal::OpenSurface);
    }
    if tally(ids, Kind::TRI3_NODES) == 4 {
        return Ok(tet(&nodes_in(ids, Kind::TRI3_NODES)));
    }
    if tally(ids, Kind::QUAD4_NODES) == 6 {
        return brick(&nodes_in(ids, Kind::QUAD4_NODES));
    }
    Err(Refusal::NoSuchSurface)
}

/// Faces of two lengths: two triangles and three quads.
fn mixed(ids: &[u64]) -> Result<Cell, Refusal>
    ensures { cell_of result ≡ mixed (faces ids.now) }
{
    if tally(ids, Kind::TRI3_NODES) != 2 || tally(ids, Kind::QUAD4_NODES) != 3 {
        return Err(Refusal::NoWedgeFaces);
    }
    wedge(
        &nodes_in(ids, Kind::TRI3_NODES),
        &nodes_in(ids, Kind::QUAD4_NODES),
    )
}
