//! Blocks of cells of one kind, split cell by cell into one lent output.
#![tactic(auto)]

ghost use Rattle.std.specs.Prelude.{◌≡◌, ◌%◌, ◌≤◌, leb, length};
ghost use Rattle.base.specs.Checks.{block_refusal};
ghost use Rattle.base.specs.Inner.Numbers.{answer_of, number_of};
ghost use Rattle.base.specs.Outcome.{Permits, overwrite};
ghost use Rattle.cuts.specs.Demand3.{splits};
ghost use Rattle.blocks.specs.Blocks.{cells_of, counts, split_block};
ghost use Rattle.blocks.specs.Inner.Filled.{Filled, Splits, cells_by, tets_of};

use base::checks::check_block;
use base::kinds::Kind;
use base::lent::copy;
use base::refusals::{Given, Refusal};
use simplexes::cells::count_hex;
use simplexes::solids::{hex_row, wedge_row, write_hex_ahead, write_hex_row, write_wedge_row};

/// The tetrahedra of a block of TET4, WEDGE6 or HEX8 over the front of out, cell after cell. It
/// refuses with 1 to 4, then 6 for another kind, then 7 if out is shorter than what is to be written.
#[tactic(auto, unfolding(crate::specs::Blocks::split_block, crate::specs::Blocks::split_block_refusal, base::specs::Outcome::settle, base::specs::Outcome::settle_one, base::specs::Outcome::decide))]
pub fn split_block(kind: u64, ids: &[u64], out: &mut [u64]) -> Result<Given, Refusal>
    ensures { Permits (split_block kind ids.now out.old) (answer_of result) out.new }
{
    let solid = check_block(kind, ids)?;
    let count = split_cells(solid, ids, out)?;
    Ok(Given {
        kind: Kind::Tet4,
        count,
    })
}

/// The same for a block that passes the checks; what it gives is the number of tetrahedra.
fn split_cells(kind: Kind, ids: &[u64], out: &mut [u64]) -> Result<usize, Refusal>
    requires { block_refusal (number_of kind) ids.now ≡ 0 }
    ensures { Permits (split_block (number_of kind) ids.now out.old) (tets_of result) out.new }
{
    match kind {
        Kind::Tet4 => split_tets(ids, out),
        Kind::Wedge6 => split_wedges(ids.as_chunks::<6>().0, out),
        Kind::Hex8 => split_bricks(ids.as_chunks::<8>().0, out),
        _ => Err(Refusal::NoRule),
    }
}

/// Tetrahedra stay as they are.
fn split_tets(ids: &[u64], out: &mut [u64]) -> Result<usize, Refusal>
    requires { length ids.now % 4 ≡ 0 }
    ensures { Splits (cells_of 11 ids.now) out.old result out.new }
{
    if out.len() < ids.len() {
        return Err(Refusal::ShortOutput);
    }
    copy(ids, out);
    Ok(ids.len() / Kind::TET4_NODES)
}

/// Wedges fall into three tetrahedra each.
fn split_wedges(wedges: &[[u64; 6]], out: &mut [u64]) -> Result<usize, Refusal>
    ensures { Splits (cells_by 13 wedges.now) out.old result out.new }
{
    if out.len() / WEDGE6_IDS < wedges.len() {
        return Err(Refusal::ShortOutput);
    }
    write_wedges(wedges, out);
    Ok(wedges.len() * 3)
}

/// Bricks fall into five or six.
fn split_bricks(bricks: &[[u64; 8]], out: &mut [u64]) -> Result<usize, Refusal>
    ensures { Splits (cells_by 15 bricks.now) out.old result out.new }
{
    if has_room(bricks, out.len() / TET4_IDS) {
        return Ok(write_bricks(bricks, out));
    }
    Err(Refusal::ShortOutput)
}

/// How many ids the tetrahedra of one cell take.
const TET4_IDS: usize = 4;

const WEDGE6_IDS: usize = 12;

/// How many tetrahedra a brick is cut into at most.
const MOST_TETS: usize = 6;

/// Whether there is room for the tetrahedra of bricks, which are counted only where six each do not fit.
fn has_room(bricks: &[[u64; 8]], room: usize) -> bool
    ensures { result ≡ leb (counts (cells_by 15 bricks.now)) room }
{
    if bricks.len() <= room / MOST_TETS {
        return true;
    }
    // A `try_fold` over what is left would say the same in a closure, no plainer.
    let mut left = room;
    for brick in bricks {
        let count = count_hex(brick);
        if left < count {
            return false;
        }
        left -= count;
    }
    true
}

/// The tetrahedra of bricks over the front of out, and their number. The row of the next brick but one is
/// found beside the writing of this one, so that no brick waits for its row. Behind every brick but the last,
/// filler may be written that the next goes over.
fn write_bricks(bricks: &[[u64; 8]], out: &mut [u64]) -> usize
    requires { length (splits (cells_by 15 bricks.now)) ≤ length out.old }
    ensures { Filled (cells_by 15 bricks.now) out.old result out.new }
{
    let Some(last) = bricks.len().checked_sub(1) else {
        return 0;
    };
    let mut row = hex_row(&bricks[0]);
    let mut next_row = hex_row(&bricks[last.min(1)]);
    let mut at = 0;
    // By place, since two bricks are read in a turn: the one that is written and the one two further on.
    for i in 0..last {
        let count = write_hex_ahead(row, &bricks[i], &mut out[at..]);
        row = next_row;
        next_row = hex_row(&bricks[last.min(i + 2)]);
        at += count * TET4_IDS;
    }
    at / TET4_IDS + write_hex_row(row, &bricks[last], &mut out[at..])
}

/// The same for wedges, three tetrahedra each. The next wedge's row is found before this one is written.
fn write_wedges(wedges: &[[u64; 6]], out: &mut [u64])
    requires { length (splits (cells_by 13 wedges.now)) ≤ length out.old }
    ensures { out.new ≡ overwrite (splits (cells_by 13 wedges.now)) out.old }
{
    let Some(last) = wedges.len().checked_sub(1) else {
        return;
    };
    let mut row = wedge_row(&wedges[0]);
    // By place, since two wedges are read in a turn.
    for i in 0..last {
        let next_row = wedge_row(&wedges[i + 1]);
        write_wedge_row(row, &wedges[i], &mut out[i * WEDGE6_IDS..]);
        row = next_row;
    }
    write_wedge_row(row, &wedges[last], &mut out[last * WEDGE6_IDS..]);
}
