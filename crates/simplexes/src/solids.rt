//! Bricks and wedges cut by a row of a table: what a block does for each of its cells.
ghost use Rattle.std.specs.Prelude.{◌≡◌, ◌*◌, ◌-◌, ◌<◌, ◌≤◌, get_or, length, set, take};
ghost use Rattle.base.specs.Gather.{pick, undigit};
ghost use Rattle.base.specs.Outcome.{overwrite};
ghost use Rattle.cuts.specs.Inner.Strings.{Within, wedge_place};
ghost use Rattle.cuts.specs.Split.{hex_cut, renumbered, simplexes, wedge_cut};
ghost use Rattle.cuts.specs.Table.{hex_place};
ghost use Rattle.simplexes.specs.Inner.Written.{Ahead, Written};

use super::cells::hex_case;
use super::smallest::{on_first, smallest_of_eight, smallest_of_six};
use cuts::tables::{self, HEX_CASES, row_count};

/// The row of the brick's table that a brick is cut by.
pub fn hex_row(ids: &[u64; 8]) -> usize
    ensures { (result ≡ hex_place ids.now) × (result < 64) }
{
    let place = smallest_of_eight(ids);
    let cell = gather(ids, &tables::renumberings()[place]);
    place * HEX_CASES + hex_case(&cell)
}

/// A brick's tetrahedra by its row, over the front of out, and their number.
pub fn write_hex_row(row: usize, ids: &[u64; 8], out: &mut [u64]) -> usize
    requires row_value { row ≡ hex_place ids.now }
    requires ids_in_bounds { length (simplexes 4 (hex_cut ids.now)) ≤ length out.old }
    ensures { Written 4 (hex_cut ids.now) out.old result out.new }
{
    let count = row_count(row);
    put(ids, &tables::hex_table()[row], count, out);
    count
}

// Beside the writer above and not one function with it: their contracts share no part.
/// The same with all six tetrahedra of the row, of which the last is filler where five count: their number
/// cannot be guessed, and so there is no branch on it. The next brick goes over the filler.
pub fn write_hex_ahead(row: usize, ids: &[u64; 8], out: &mut [u64]) -> usize
    requires row_value { row ≡ hex_place ids.now }
    requires in_bounds { 24 ≤ length out.old }
    ensures value { result ≡ length (hex_cut ids.now).rows }
    ensures ahead { Ahead (simplexes 4 (hex_cut ids.now)) out.old out.new }
{
    put(ids, &tables::hex_table()[row], HEX_ROWS, out);
    row_count(row)
}

/// How many tetrahedra a row of the brick's table has room for.
const HEX_ROWS: usize = 6;

/// The row of the wedge's table that a wedge is cut by.
pub fn wedge_row(ids: &[u64; 6]) -> usize
    ensures { (result ≡ wedge_place ids.now) × (result < 12) }
{
    let place = smallest_of_six(ids);
    let [a, b, c, d] = gather(ids, &tables::wedge_quads()[place]);
    place * 2 + usize::from(!on_first(a, b, c, d))
}

/// A wedge's three tetrahedra by its row, over the front of out.
pub fn write_wedge_row(row: usize, ids: &[u64; 6], out: &mut [u64])
    requires row_value { row ≡ wedge_place ids.now }
    requires ids_in_bounds { length (simplexes 4 (wedge_cut ids.now)) ≤ length out.old }
    ensures { out.new ≡ overwrite (simplexes 4 (wedge_cut ids.now)) out.old }
{
    put(ids, &tables::wedge_table()[row], 3, out);
}

/// The ids at the corners of a string. Every corner is there, so nothing is tested.
/// That the digits are corners is not in the type of a table, so it is asked of each caller.
pub fn gather<const N: usize>(ids: &[u64], string: &[u8; N]) -> [u64; N]
    requires { Within (length ids.now) string.now }
    ensures { result ≡ pick ids.now (undigit string.now) }
{
    let mut picked = [0u64; N];
    for (i, digit) in string.iter().enumerate() {
        picked[i] = ids[corner_of(*digit)];
    }
    picked
}

/// The ids at the first corners of a string over the front of out, four at a time.
// base's `gather_digits` tests each corner and each end; here both are known, and a test a tetrahedron is left.
pub fn put(ids: &[u64], string: &[u8], fours: usize, out: &mut [u64])
    requires { (fours * 4 ≤ length string.now) × (fours * 4 ≤ length out.old) × Within (length ids.now) string.now }
    ensures { out.new ≡ overwrite (take (fours * 4) (pick ids.now (undigit string.now))) out.old }
{
    for i in 0..fours {
        let at = i * 4;
        put_one(ids, string, at, out);
        put_one(ids, string, at + 1, out);
        put_one(ids, string, at + 2, out);
        put_one(ids, string, at + 3, out);
    }
}

/// The id at one corner of a string, in its place.
fn put_one(ids: &[u64], string: &[u8], at: usize, out: &mut [u64])
    requires { (at < length string.now) × (at < length out.old) × Within (length ids.now) string.now }
    ensures { out.new ≡ set out.old at (get_or (pick ids.now (undigit string.now)) at 0) }
{
    out[at] = ids[corner_of(string[at])];
}

/// The corner that a digit of ASCII stands for. The difference of two wide numbers goes into the address
/// that is read.
/// Not the one of `base`, which takes any byte and stops at 0: here every byte is a digit.
fn corner_of(digit: u8) -> usize
    requires { 48 ≤ digit }
    ensures { result ≡ digit - 48 }
{
    usize::from(digit) - 48
}
