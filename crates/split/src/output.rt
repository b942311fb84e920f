//! The standard output, a buffer at a time.
ghost use Rattle.std.specs.Prelude.{◌≡◌, ◌/◌, ◌%◌, ◌≤◌, OnOk, length};
ghost use Rattle.records.specs.Inner.Writer.{HasRoom};

use super::BUFFER;
use super::cells::put_split;
use base::refusals::Refusal;
use records::text::Writer;
use std::io;
use std::io::{Print, Stdout};

/// The standard output, and the text that is not written to it yet.
#[derive(Drop)]
pub struct Output<'a> {
    pub stdout: Stdout,
    pub text: Writer<'a>,
    ghost roomy: { length text.out.now ≡ 65536 },
    ghost within: { text.at ≤ 65536 },
}

impl Output<'_> {
    /// The longest text of a record: a header line of 63 bytes and six lines of 105.
    const LONGEST_TEXT: usize = 693;
    /// The text is written out where it is longer than this.
    const FULL: usize = BUFFER - Output::LONGEST_TEXT;

    /// A whole record gets its text.
    pub fn put_split(
        &mut self,
        number: u64,
        kind: u64,
        bytes: &[u8],
        ids: &mut [u64],
    ) -> io::Result<()>
        requires whole { length bytes.now % 8 ≡ 0 }
        requires fits { length bytes.now / 8 ≤ length ids.old }
    {
        self.make_room()?;
        put_split(&mut self.text, number, kind, bytes, ids);
        Ok(())
    }

    /// A record that is cut short or odd gets its line.
    #[tactic(auto, unfolding(base::specs::Kinds::nodes_of))]
    pub fn refuse(&mut self, number: u64) -> io::Result<()> {
        self.make_room()?;
        self.text.put_record(number, Refusal::BadRecord.into(), &[]);
        Ok(())
    }

    /// The last line, and all that is not written yet.
    pub fn finish(&mut self, begun: u64) -> io::Result<()> {
        self.make_room()?;
        self.text.put_end(begun);
        self.flush()
    }

    /// Writes the text out where that of a record might not fit any more.
    fn make_room(&mut self) -> io::Result<()>
        ensures { OnOk result (HasRoom 693 self.new.text) }
    {
        if Output::FULL < self.text.at {
            self.flush()?;
        }
        Ok(())
    }

    /// Writes the text out.
    fn flush(&mut self) -> io::Result<()>
        ensures { self.new.text.at ≡ 0 }
    {
        let stdout = self.stdout;
        let written = stdout.write_all(self.text.written());
        self.text.at = 0;
        written
    }
}
