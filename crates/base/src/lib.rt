//! The vocabulary that every layer shares: kinds, refusals, answers, the checks of an input, and the
//! two writers over the front of a lent slice.
#![tactic(auto)]

pub mod checks;
pub mod kinds;
pub mod lent;
pub mod refusals;
