//! The tables by which wedges and bricks are cut. The specs say what the cut of a cell is, and the proofs that cuts
//! leave no slit.
#![tactic(auto)]

pub mod tables;
