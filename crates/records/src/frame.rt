//! A record at a place in bytes.
ghost use Rattle.std.specs.Prelude.{◌≡◌};
ghost use Rattle.records.specs.Frame.{frame_at, odd_length};

use super::wire;

/// What stands at a place in bytes. The spec tells four cases apart, which an `Option` or a `Result` does not.
#[derive(Clone, Copy, Debug, PartialEq, Eq)]
pub enum Frame {
    /// A record: its kind, where its ids start, how many they are, which the spec tells and no caller here reads, and where
    /// the next record begins. The kind
    /// is the record's own number, which may be that of none.
    Whole {
        kind: u64,
        start: usize,
        count: usize,
        next: usize,
    },
    /// Nothing: the bytes end before the record's first.
    End,
    /// A record whose bytes end too early, in its length or behind it. Refused by 21 if no more come.
    Cut,
    /// A length that no record has, whatever comes behind it. Refused by 21.
    Odd,
}

impl Frame {
    /// The bytes that hold a record's length, which counts those behind them.
    pub const LENGTH: usize = 4;
    /// The bytes that hold its kind; its ids follow.
    pub const KIND: usize = 2;
    /// The greatest length: a kind and 4,096 ids.
    pub const LONGEST: usize = 32770;
}

/// The record that begins at a place.
pub fn frame_at(bytes: &[u8], at: usize) -> Frame
    ensures { result ≡ frame_at bytes.now at }
{
    if bytes.len() <= at {
        return Frame::End;
    }
    let Some((length, behind)) = bytes[at..].split_first_chunk::<{ Frame::LENGTH }>() else {
        return Frame::Cut;
    };
    let len = u32::from_le_bytes(*length) as usize;
    if odd_length(len) {
        return Frame::Odd;
    }
    if behind.len() < len {
        return Frame::Cut;
    }
    let body = at + Frame::LENGTH;
    Frame::Whole {
        kind: u64::from(u16::from_le_bytes([behind[0], behind[1]])),
        start: body + Frame::KIND,
        count: (len - Frame::KIND) / wire::ID,
        next: body + len,
    }
}

/// Whether no record has this length.
#[tactic(auto, unfolding(crate::specs::Frame::odd_length))]
fn odd_length(len: usize) -> bool
    ensures { result ≡ odd_length len }
{
    len < Frame::KIND || Frame::LONGEST < len || (len - Frame::KIND) % wire::ID != 0
}
