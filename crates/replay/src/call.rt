//! The operations, each called as a host calls it.
use super::head::Head;
use base::refusals::{Given, Refusal};
use blocks::split_block;
use parts::poly::to_poly;
use parts::subentities::{Parts, Written, subentities};
use recognise::from_poly;
use simplexes::to_simplexes;
use winding::reorient;

/// An operation; as a number it is what a stored call says.
#[derive(Clone, Copy, PartialEq, Eq)]
pub enum Operation {
    /// With the codimension absent.
    Subentities = 1,
    /// At a codimension.
    SubentitiesOf = 2,
    ToPoly = 3,
    FromPoly = 4,
    ToSimplexes = 5,
    Reorient = 6,
    SplitBlock = 7,
}

impl TryFrom<u16> for Operation {
    type Error = u16;

    /// The operation of a number, or the number.
    fn try_from(number: u16) -> Result<Operation, u16> {
        match number {
            1 => Ok(Operation::Subentities),
            2 => Ok(Operation::SubentitiesOf),
            3 => Ok(Operation::ToPoly),
            4 => Ok(Operation::FromPoly),
            5 => Ok(Operation::ToSimplexes),
            6 => Ok(Operation::Reorient),
            7 => Ok(Operation::SplitBlock),
            _ => Err(number),
        }
    }
}

impl Head {
    /// What the operation answers, if there is one.
    pub fn call(
        &self,
        ids: &[u64],
        points: &[f64],
        out: &mut [u64],
        ends: &mut [u64],
    ) -> Option<Parts> {
        let kind = self.kind;
        Some(match self.operation? {
            Operation::Subentities => subentities(kind, None, ids, out, ends).into(),
            Operation::SubentitiesOf => {
                subentities(kind, Some(self.parameter), ids, out, ends).into()
            },
            Operation::ToPoly => one_pair(to_poly(kind, ids, out)),
            Operation::FromPoly => one_pair(from_poly(kind, ids, out)),
            Operation::ToSimplexes => one_pair(to_simplexes(kind, ids, out)),
            Operation::Reorient => one_pair(reorient(kind, ids, self.parameter, points, out)),
            Operation::SplitBlock => one_pair(split_block(kind, ids, out)),
        })
    }
}

/// The answer to C of an operation that gives one kind.
fn one_pair(outcome: Result<Given, Refusal>) -> Parts {
    outcome
        .map(|given| Written::alike(given.kind, given.count))
        .into()
}
