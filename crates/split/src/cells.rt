//! The text of a record's split.
ghost use Rattle.std.specs.Prelude.{◌≡◌, ◌/◌, ◌%◌, ◌≤◌, length};
ghost use Rattle.records.specs.Inner.Writer.{HasRoom, Wrote};
ghost use Rattle.split.specs.Text.{cell_text, split_text};

use records::text::Writer;
use records::wire::read_ids;
use simplexes::to_simplexes;

/// The text of a record's split, from the bytes of its ids. The kind is the record's own number, which may be
/// that of none.
/// The bytes are whole ids, as `Frame` says of a record's.
pub fn put_split(text: &mut Writer, number: u64, kind: u64, bytes: &[u8], ids: &mut [u64])
    requires whole { length bytes.now % 8 ≡ 0 }
    requires fits { length bytes.now / 8 ≤ length ids.old }
    requires room { HasRoom 693 text.old }
    ensures { Wrote (split_text number kind bytes.now) 693 text.old text.new }
{
    let count = read_ids(bytes, ids).unwrap();
    put_cell(text, number, kind, &ids[..count]);
}

/// The text of a cell's split.
fn put_cell(text: &mut Writer, number: u64, kind: u64, ids: &[u64])
    requires { HasRoom 693 text.old }
    ensures { Wrote (cell_text number kind ids.now) 693 text.old text.new }
{
    let mut simplexes = [0u64; 24];
    let outcome = to_simplexes(kind, ids, &mut simplexes);
    text.put_record(number, outcome.into(), &simplexes);
}
