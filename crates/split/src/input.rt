//! The standard input, a buffer at a time.
ghost use Rattle.std.specs.Prelude.{◌≡◌, ◌-◌, ◌<◌, ◌≤◌, IsTrue, slice_range, take};
ghost use Rattle.records.specs.Frame.{frame_at};

use super::BUFFER;
use records::frame::{Frame, frame_at};
use std::io::{Read, Stdin};

/// The standard input, and the bytes that are read from it and not used yet.
#[derive(Drop)]
pub struct Input<'a> {
    pub stdin: Stdin,
    pub bytes: &'a mut [u8; BUFFER],
    /// Where the bytes in hand begin and end.
    pub from: usize,
    pub to: usize,
    ghost ordered: { from ≤ to },
    ghost within: { to ≤ 65536 },
}

impl Input<'_> {
    ghost use Rattle.split.specs.Inner.Hand.{InHand, Kept};

    /// The record that comes next, for which is read what is missing.
    pub fn frame(&mut self) -> Frame
        ensures in_hand { InHand self.new result }
        ensures kept { Kept self.old self.new }
    {
        // How often it has to read is not known before.
        loop {
            let frame = self.look();
            match frame {
                Frame::End | Frame::Cut if self.refill() => (),
                _ => return frame,
            }
        }
    }

    /// The bytes from a place to another.
    pub fn part(&self, start: usize, end: usize) -> &[u8]
        requires ordered { start ≤ end }
        requires within { end ≤ 65536 }
        ensures { result.now ≡ slice_range self.now.bytes.now start end }
    {
        let bytes = &*self.bytes;
        &bytes[start..end]
    }

    /// What stands at the bytes in hand.
    fn look(&self) -> Frame
        ensures { result ≡ frame_at (take self.now.to self.now.bytes.now) self.now.from }
    {
        frame_at(&self.bytes[..self.to], self.from)
    }

    /// The bytes in hand to the front, and one read behind them; false at the end of the input, or where the read fails.
    fn refill(&mut self) -> bool
        ensures more { IsTrue result → self.old.to - self.old.from < self.new.to - self.new.from }
        ensures kept { Kept self.old self.new }
    {
        let hand = self.from..self.to;
        let kept = hand.len();
        let mut stdin = self.stdin;
        let bytes = &mut *self.bytes;
        // Bytes that are at the front already stay: a record that comes byte by byte would be moved at each read.
        if 0 < hand.start {
            bytes.copy_within(hand, 0);
        }
        let got = stdin.read(&mut bytes[kept..]).unwrap_or(0);
        self.from = 0;
        self.to = kept + got;
        0 < got
    }
}
