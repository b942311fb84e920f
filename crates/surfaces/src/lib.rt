//! Whether faces close to a surface: from the list of a PHED, or from the nodes of a cell's faces.
#![tactic(auto)]

pub mod numbers;
pub mod surface;
