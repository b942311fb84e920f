//! The split of the cell that one record holds, from the record's bytes.
ghost use Rattle.std.specs.Prelude.{◌≡◌, ◌/◌, ◌%◌, ◌<◌, ◌≤◌, length};
ghost use Rattle.base.specs.Checks.{holds_separator};
ghost use Rattle.base.specs.Inner.Numbers.{answer_of, refusal_number};
ghost use Rattle.base.specs.Outcome.{Permits};
ghost use Rattle.records.specs.Wire.{ids_in};
ghost use Rattle.cuts.specs.Split.{split_refusal, to_simplexes};
ghost use Rattle.tallyspool.specs.Record.{split_record};

use base::kinds::Kind;
use base::refusals::{Given, Refusal};
use records::frame::{Frame, frame_at};
use records::wire::{ID, read_ids};
use simplexes::to_simplexes;

/// The simplexes of a record's cell over the front of out. It refuses with 21 unless the bytes are
/// one whole record, and else as `to_simplexes`.
#[tactic(auto, unfolding(crate::specs::Record::split_record))]
pub fn split_record(bytes: &[u8], out: &mut [u64]) -> Result<Given, Refusal>
    ensures { Permits (split_record bytes.now out.old) (answer_of result) out.new }
{
    match frame_at(bytes, 0) {
        Frame::Whole {
            kind,
            start,
            next,
            ..
        } if next == bytes.len() => split_bytes(kind, &bytes[start..next], out),
        _ => Err(Refusal::BadRecord),
    }
}

/// The same from the kind and the bytes of the ids. No kind that has a rule has more nodes than a
/// HEX21, so that more ids than that need no room: they are refused where they lie. Fewer are read without fail.
/// The kind is the record's own number, as in `Frame`.
fn split_bytes(kind: u64, bytes: &[u8], out: &mut [u64]) -> Result<Given, Refusal>
    requires { (length bytes.now % 8 ≡ 0) × (length bytes.now ≤ 32768) }
    ensures { Permits (to_simplexes kind (ids_in (length bytes.now / 8) bytes.now) out.old) (answer_of result) out.new }
{
    if Kind::HEX21_NODES < bytes.len() / ID {
        return Err(long_refusal(kind, bytes));
    }
    let mut ids = [0u64; Kind::HEX21_NODES];
    let count = read_ids(bytes, &mut ids).unwrap();
    to_simplexes(kind, &ids[..count], out)
}

/// The first refusal that more ids than any fixed kind has meet: there is always one.
#[tactic(auto, using(crate::proofs::Long::long_unknown, records::proofs::Bytes::length_ids))]
fn long_refusal(kind: u64, bytes: &[u8]) -> Refusal
    requires { (21 < length bytes.now / 8) × (length bytes.now ≤ 32768) }
    ensures { refusal_number result ≡ split_refusal kind (ids_in (length bytes.now / 8) bytes.now) }
{
    let Ok(kind) = Kind::try_from(kind) else {
        return Refusal::UnknownKind;
    };
    if kind.nodes().is_some() {
        return Refusal::WrongNodeCount;
    }
    if kind != Kind::Phed && holds_separator(bytes) {
        return Refusal::StraySeparator;
    }
    Refusal::NoRule
}

/// Whether a separator stands among the ids that the bytes hold, which are not copied out to be checked as ids are. It
/// reads all with no early end, as base does.
fn holds_separator(bytes: &[u8]) -> bool
    ensures { result ≡ holds_separator (ids_in (length bytes.now / 8) bytes.now) }
{
    let (ids, _) = bytes.as_chunks::<ID>();
    let mut found = false;
    for id in ids {
        found |= u64::from_le_bytes(*id) == Kind::SEPARATOR;
    }
    found
}
