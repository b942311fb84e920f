//! The text of an answer, into a lent buffer from a place on.
ghost use Rattle.std.specs.Prelude.{◌≡◌, [], ◌∷◌, ◌+◌, ◌*◌, ◌≤◌, length, take};
ghost use Rattle.base.specs.Kinds.{nodes_of};
ghost use Rattle.records.specs.Inner.Writer.{HasRoom, Wrote};
ghost use Rattle.records.specs.Text.{decimal, end_text, line, places, record_text, simplex_lines, spaced, spelled};

use base::kinds::Kind;
use base::refusals::Answer;

/// A text that is written over a lent buffer. How much room a text takes differs, so it stands in each contract.
#[derive(Drop)]
pub struct Writer<'a> {
    /// The buffer.
    pub out: &'a mut [u8],
    /// Where the next byte goes.
    pub at: usize,
}

impl Writer<'_> {
    /// The bytes before the next.
    pub fn written(&self) -> &[u8]
        requires { self.now.at ≤ length self.now.out.now }
        ensures { result.now ≡ take self.now.at self.now.out.now }
    {
        let out = &*self.out;
        &out[..self.at]
    }

    /// A record's text: its header line, then a line for each simplex that the answer counts in ids. A
    /// simplex has at most four nodes, so that a line has at most 105 bytes.
    pub fn put_record(&mut self, number: u64, answer: Answer, ids: &[u64])
        requires kind_bound { nodes_of answer.kind ≤ 4 }
        requires kind_in_bounds { answer.count * nodes_of answer.kind ≤ length ids.now }
        requires count_in_bounds { HasRoom (63 + 105 * answer.count) self.old }
        ensures { Wrote (record_text number answer ids.now) (63 + 105 * answer.count) self.old self.new }
    {
        self.put_line(number, &[answer.refusal, answer.count]);
        self.put_simplexes(answer.kind, answer.count, ids);
    }

    /// The last line of all: the records begun.
    pub fn put_end(&mut self, begun: u64)
        requires { HasRoom 25 self.old }
        ensures { Wrote (end_text begun) 25 self.old self.new }
    {
        self.put_bytes(b"end");
        self.put_spaced(begun);
        self.put_bytes(b"\n");
    }

    /// A line for each of the first simplexes.
    fn put_simplexes(&mut self, kind: u64, count: u64, ids: &[u64])
        requires kind_bound { nodes_of kind ≤ 4 }
        requires kind_in_bounds { count * nodes_of kind ≤ length ids.now }
        requires count_in_bounds { HasRoom (105 * count) self.old }
        ensures { Wrote (simplex_lines kind ids.now count) (105 * count) self.old self.new }
    {
        let nodes = nodes_in(kind);
        for i in 0..count {
            let from = i as usize * nodes;
            self.put_line(kind, &ids[from..from + nodes]);
        }
    }

    /// A line of numbers.
    fn put_line(&mut self, first: u64, others: &[u64])
        requires { HasRoom (21 + 21 * length others.now) self.old }
        ensures { Wrote (line first others.now) (21 + 21 * length others.now) self.old self.new }
    {
        self.put_number(first);
        for number in others {
            self.put_spaced(*number);
        }
        self.put_bytes(b"\n");
    }

    /// A blank and a number.
    fn put_spaced(&mut self, number: u64)
        requires { HasRoom 21 self.old }
        ensures { Wrote (spaced (number ∷ [])) 21 self.old self.new }
    {
        self.put_bytes(b" ");
        self.put_number(number);
    }

    /// A number in decimal. By hand, as the library's `write!` may fail, and the contract says how much room a number takes.
    fn put_number(&mut self, number: u64)
        requires { HasRoom 20 self.old }
        ensures { Wrote (decimal number) 20 self.old self.new }
    {
        let start = self.at;
        let end = start + places(number);
        spell(number, &mut self.out[start..end]);
        self.at = end;
    }

    /// Bytes as they are.
    fn put_bytes(&mut self, bytes: &[u8])
        requires { HasRoom (length bytes.now) self.old }
        ensures { Wrote bytes.now (length bytes.now) self.old self.new }
    {
        let start = self.at;
        let end = start + bytes.len();
        self.out[start..end].copy_from_slice(bytes);
        self.at = end;
    }
}

/// How many nodes a line has. The kind is that of an answer as C has it: one that fixes no node count, or a number
/// that is no kind, has lines of its number alone.
fn nodes_in(kind: u64) -> usize
    ensures { result ≡ nodes_of kind }
{
    match Kind::try_from(kind) {
        Ok(kind) => kind.nodes().unwrap_or(0),
        Err(_) => 0,
    }
}

/// How many digits a number has.
fn places(number: u64) -> usize
    ensures { (result ≡ places number) × (result ≤ 20) }
{
    number.max(1).ilog10() as usize + 1
}

/// The last digits of a number, as many as there are bytes, from the last to the first.
/// By place: of bytes that are lent for writing back to front the library says only how many there are.
fn spell(number: u64, bytes: &mut [u8])
    ensures { bytes.new ≡ spelled (length bytes.old) number }
{
    let mut rest = number;
    for i in (0..bytes.len()).rev() {
        bytes[i] = b'0' + (rest % 10) as u8;
        rest /= 10;
    }
}
