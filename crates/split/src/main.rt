//! Reads records on standard input and prints the simplexes of each, then how many records began.
#![tactic(auto)]

use records::frame::Frame;
use std::io;

mod cells;
mod input;
mod output;

use input::Input;
use output::Output;
use records::text::Writer;

/// The bytes of either buffer; a record and the text of a record fit twice over.
const BUFFER: usize = 65536;

fn main(rt: HostRuntime) {
    let mut bytes = [0u8; BUFFER];
    let mut text = [0u8; BUFFER];
    let mut input = Input {
        stdin: rt.stdin(),
        bytes: &mut bytes,
        from: 0,
        to: 0,
    };
    let mut output = Output {
        stdout: rt.stdout(),
        text: Writer {
            out: &mut text,
            at: 0,
        },
    };
    // An output that takes no more bytes can be told nothing.
    let _ = run(&mut input, &mut output);
}

/// Each record's text, then the last line; an error where the output takes no more bytes. A proved loop has to
/// end, and nothing says that the input does, so the records are counted up to a number that no run reaches.
fn run(input: &mut Input, output: &mut Output) -> io::Result<()> {
    // The ids of the longest record.
    let mut ids = [0u64; 4096];
    for begun in 0..u64::MAX {
        match input.frame() {
            Frame::Whole {
                kind,
                start,
                count: _,
                next,
            } => {
                output.put_split(begun, kind, input.part(start, next), &mut ids)?;
                input.from = next;
            },
            Frame::End => return output.finish(begun),
            Frame::Cut | Frame::Odd => {
                output.refuse(begun)?;
                return output.finish(begun + 1);
            },
        }
    }
    output.finish(u64::MAX)
}
