//! The head of a stored call: sixteen 2-byte numbers, of which the last four say nothing to it.
ghost use Rattle.std.specs.Prelude.{◌≤◌};

use super::call::Operation;
use super::words::LONGEST;
use parts::subentities::Parts;

#[derive(Clone, Copy)]
pub struct Head {
    pub operation: Option<Operation>,
    pub kind: u64,
    /// The codimension or the dimension, where there is one. What is stored is passed as it is: a number that is no kind
    /// or no dimension is a call too.
    pub parameter: u64,
    /// How many of each follow.
    pub ids: usize,
    pub points: usize,
    pub out: usize,
    pub ends: usize,
    pub answer: Parts,
    ghost short: { (ids ≤ 4200) × (points ≤ 4200) × (out ≤ 4200) × (ends ≤ 4200) },
}

impl Head {
    pub fn of(bytes: &[u8; 32]) -> Head {
        let [
            operation,
            kind,
            parameter,
            ids,
            points,
            out,
            ends,
            refusal,
            first_kind,
            first_count,
            second_kind,
            second_count,
            _,
            _,
            _,
            _,
        ] = numbers(bytes);
        Head {
            operation: Operation::try_from(operation).ok(),
            kind: u64::from(kind),
            parameter: u64::from(parameter),
            ids: length_of(ids),
            points: length_of(points),
            out: length_of(out),
            ends: length_of(ends),
            answer: Parts {
                refusal: u64::from(refusal),
                kind: u64::from(first_kind),
                count: u64::from(first_count),
                kind2: u64::from(second_kind),
                count2: u64::from(second_count),
            },
        }
    }
}

fn numbers(bytes: &[u8; 32]) -> [u16; 16] {
    let mut numbers = [0u16; 16];
    let (pairs, _) = bytes.as_chunks::<2>();
    for (number, pair) in numbers.iter_mut().zip(pairs) {
        *number = u16::from_le_bytes(*pair);
    }
    numbers
}

/// The length of a stored list, or 0 if it is above the limit.
/// Such a head is counted and compared with an empty list: an `Option` would want a way of its own there, which is no plainer.
fn length_of(number: u16) -> usize
    ensures { result ≤ 4200 }
{
    let length = usize::from(number);
    if length <= LONGEST { length } else { 0 }
}
