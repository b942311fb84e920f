//! The cell that faces of known lengths make: four triangles, six quads, or two triangles and three
//! quads, by their nodes.
#![tactic(auto)]

pub mod brick;
pub mod cells;
mod corners;
pub mod tet;
pub mod wedge;
