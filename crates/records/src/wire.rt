//! Numbers and ids as little-endian bytes.
ghost use Rattle.base.specs.Inner.Numbers.{count_answer_of};
ghost use Rattle.base.specs.Outcome.{Permits};
ghost use Rattle.records.specs.Wire.{read_outcome, write_outcome};

use base::refusals::Refusal;

/// An id takes so many bytes.
pub const ID: usize = 8;

/// The ids that the bytes hold, over the front of out, and how many there are. Refused by 21 if the
/// bytes are no multiple of 8, and by 7 if out is shorter than the ids.
pub fn read_ids(bytes: &[u8], out: &mut [u64]) -> Result<usize, Refusal>
    ensures { Permits (read_outcome bytes.now out.old) (count_answer_of result) out.new }
{
    let (ids, rest) = bytes.as_chunks::<ID>();
    if !rest.is_empty() {
        return Err(Refusal::BadRecord);
    }
    if out.len() < ids.len() {
        return Err(Refusal::ShortOutput);
    }
    for (at, id) in ids.iter().enumerate() {
        out[at] = u64::from_le_bytes(*id);
    }
    Ok(ids.len())
}

/// The ids as bytes over the front of out, and how many bytes there are. Refused by 7 if out is
/// shorter than that.
pub fn write_ids(ids: &[u64], out: &mut [u8]) -> Result<usize, Refusal>
    ensures { Permits (write_outcome ids.now out.old) (count_answer_of result) out.new }
{
    if out.len() / ID < ids.len() {
        return Err(Refusal::ShortOutput);
    }
    // By place, since the library says of chunks that are lent for writing only how many there are.
    for (at, id) in ids.iter().enumerate() {
        let place = ID * at;
        out[place..place + ID].copy_from_slice(&id.to_le_bytes());
    }
    Ok(ID * ids.len())
}
