//! Records of the splitting program: ids as bytes, a record at a place in bytes, and the text of an
//! answer.
#![tactic(auto)]

pub mod frame;
pub mod text;
pub mod wire;
