//! The parts of an element: its sub-entities by codimension, and its poly form.
#![tactic(auto)]

mod gather;
mod phed;
pub mod poly;
mod polygon;
mod rows;
pub mod subentities;
