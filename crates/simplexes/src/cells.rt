//! The one-cell writer: the simplexes of a cell over the front of a lent slice.
ghost use Rattle.std.specs.Prelude.{◌≡◌, ◌<◌, ◌≤◌, eqb};
ghost use Rattle.base.specs.Gather.{corners, pick, undigit};
ghost use Rattle.base.specs.Inner.Numbers.{answer_of, number_of};
ghost use Rattle.base.specs.Outcome.{Permits, settle};
ghost use Rattle.cuts.specs.Rows.{quad_rows, seg_rows};
ghost use Rattle.cuts.specs.Smallest.{first_diagonal, smallest_pos};
ghost use Rattle.cuts.specs.Split.{hex_case, hex_cut, renumbered, split_count, wedge_cut};
ghost use Rattle.simplexes.specs.Inner.Written.{CutInto, SplitInto};

use super::smallest::{first_diagonal, on_first, smallest, smallest_of_eight};
use super::solids;
use base::kinds::Kind;
use base::lent::gather_digits;
use base::refusals::{Given, Refusal};
use cuts::tables;

/// The simplexes of one cell over the front of out. It refuses with 6 where there is no rule, then 7.
pub(crate) fn write_cell(kind: Kind, ids: &[u64], out: &mut [u64]) -> Result<Given, Refusal>
    ensures { SplitInto (number_of kind) ids.now out.old result out.new }
{
    match kind {
        Kind::Vertex => write_row(Kind::Vertex, 1, ids, b"0", out),
        Kind::Seg2 | Kind::Seg3 | Kind::Seg4 => {
            write_row(Kind::Seg2, 1, ids, &seg_corners(ids), out)
        }
        Kind::Tri3 | Kind::Tri6 | Kind::Tri7 => write_row(Kind::Tri3, 1, ids, b"012", out),
        Kind::Quad4 | Kind::Quad8 | Kind::Quad9 => {
            write_row(Kind::Tri3, 2, ids, &quad_corners(ids), out)
        }
        Kind::Tet4 | Kind::Tet10 => write_row(Kind::Tet4, 1, ids, b"0123", out),
        Kind::Wedge6 | Kind::Wedge15 => write_wedge(ids, out),
        Kind::Hex8 | Kind::Hex21 => write_hex(ids, out),
        Kind::Pline | Kind::Pgon | Kind::Phed => Err(Refusal::NoRule),
    }
}

/// The simplexes of a kind at a row of corners, if they find room.
/// Corners may be lacking here, so it gathers by `gather_digits`, which the writer of `parts` does not.
fn write_row(
    kind: Kind,
    count: usize,
    ids: &[u64],
    row: &[u8],
    out: &mut [u64],
) -> Result<Given, Refusal>
    ensures { Permits (settle 0 (number_of kind) count (pick ids.now (undigit row.now)) out.old) (answer_of result) out.new }
{
    if out.len() < row.len() {
        return Err(Refusal::ShortOutput);
    }
    gather_digits(ids, row, out);
    Ok(Given { kind, count })
}

/// The brick in two steps: renumbered so that its smallest comes first, then cut by its case. The first
/// eight rows of the table are those of the cases.
/// One brick goes by the row of its case; the rows of 64 serve blocks, where the next is found ahead.
fn write_hex(ids: &[u64], out: &mut [u64]) -> Result<Given, Refusal>
    ensures { CutInto 11 (hex_cut ids.now) out.old result out.new }
{
    let kind = Kind::Tet4;
    let cell = renumber(ids);
    let case = hex_case(&cell);
    let count = tables::case_count(case);
    if out.len() < count * Kind::TET4_NODES {
        return Err(Refusal::ShortOutput);
    }
    solids::put(&cell, &tables::hex_table()[case], count, out);
    Ok(Given { kind, count })
}

/// How many tetrahedra a brick is cut into. It goes the plain way, so that `renumber` has one caller, into
/// which the compiler takes it.
pub fn count_hex(ids: &[u64]) -> usize
    ensures { (result ≡ split_count 15 ids.now) × (result ≤ 6) }
{
    tables::case_count(hex_case(&renumber_any(ids)))
}

/// The ids of a brick, renumbered by the place of its smallest.
/// A brick of eight ids lacks no corner, so nothing is tested.
fn renumber(ids: &[u64]) -> [u64; 8]
    ensures { result ≡ renumbered ids.now }
{
    match ids.as_array::<8>() {
        Some(ids) => {
            let place = smallest_of_eight(ids);
            solids::gather(ids, &tables::renumberings()[place])
        }
        None => renumber_any(ids),
    }
}

/// The same where there are mid-side nodes, which are searched too, or corners are lacking.
// `solids::gather` tests no corner, so it does not serve here.
fn renumber_any(ids: &[u64]) -> [u64; 8]
    ensures { result ≡ renumbered ids.now }
{
    let place = smallest(ids).min(Kind::HEX8_NODES - 1);
    let mut cell = [0u64; 8];
    gather_digits(ids, &tables::renumberings()[place], &mut cell);
    cell
}

/// The case of a renumbered brick: the first diagonals of 4567, 1265 and 2376 count 0, the second 1.
pub fn hex_case(cell: &[u64; 8]) -> usize
    ensures { (result ≡ hex_case cell.now) × (result < 8) }
{
    let on46 = on_first(cell[4], cell[5], cell[6], cell[7]);
    let on16 = on_first(cell[1], cell[2], cell[6], cell[5]);
    let on27 = on_first(cell[2], cell[3], cell[7], cell[6]);
    usize::from(!on46) * 4 + usize::from(!on16) * 2 + usize::from(!on27)
}

/// The wedge by its row.
fn write_wedge(ids: &[u64], out: &mut [u64]) -> Result<Given, Refusal>
    ensures { CutInto 11 (wedge_cut ids.now) out.old result out.new }
{
    if out.len() < WEDGE_IDS {
        return Err(Refusal::ShortOutput);
    }
    match ids.as_array::<6>() {
        Some(ids) => solids::write_wedge_row(solids::wedge_row(ids), ids, out),
        None => gather_digits(ids, wedge_corners(ids), out),
    }
    Ok(Given {
        kind: Kind::Tet4,
        count: 3,
    })
}

/// How many ids the three tetrahedra of a wedge take.
const WEDGE_IDS: usize = 12;

/// The corners of a wedge with mid-side nodes, which are searched too, or of one that lacks corners: by the
/// smallest, then by the diagonal of the quad that is left. A smallest past the corners counts as the last.
fn wedge_corners(ids: &[u64]) -> &'static [u8; 12]
    ensures { undigit result.now ≡ corners 4 (wedge_cut ids.now).rows }
{
    let place = smallest(ids).min(Kind::WEDGE6_NODES - 1);
    let first = first_diagonal(ids, &tables::wedge_quads()[place]);
    &tables::wedge_table()[place * 2 + usize::from(!first)]
}

/// The quad's corners: by the place of the smallest of all its nodes.
fn quad_corners(ids: &[u64]) -> [u8; 6]
    ensures { undigit result ≡ corners 3 (quad_rows (first_diagonal ids.now)) }
{
    match smallest(ids) {
        1 | 3 => *b"013231",
        _ => *b"023012",
    }
}

/// The segment's corners: 01 if the smallest of all its nodes stands at 0, else 10.
fn seg_corners(ids: &[u64]) -> [u8; 2]
    ensures { undigit result ≡ corners 2 (seg_rows (eqb (smallest_pos ids.now) 0)) }
{
    if smallest(ids) == 0 { *b"01" } else { *b"10" }
}
