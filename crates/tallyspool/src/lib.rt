//! The C interface: one entry point for each operation, with the operation's own contract. A slice
//! crosses as a pointer and a count; include/tallyspool.h says what a host owes. Kinds, refusals, codimensions
//! and dimensions cross as numbers, and a kind and its ids as two arguments, so the operations behind take them so.
#![tactic(auto)]

ghost use Rattle.base.specs.Outcome.{Permits};
ghost use Rattle.blocks.specs.Blocks.{split_block};
ghost use Rattle.parts.specs.Poly.{to_poly};
ghost use Rattle.parts.specs.Subentities.{subentities_outcome};
ghost use Rattle.std.specs.Prelude.{None, Some};
ghost use Rattle.recognise.specs.FromPoly.{from_poly};
ghost use Rattle.records.specs.Wire.{read_outcome, write_outcome};
ghost use Rattle.cuts.specs.Split.{to_simplexes};
ghost use Rattle.winding.specs.Reorient.{reorient_outcome};
ghost use Rattle.tallyspool.specs.Record.{split_record};

use base::refusals::Answer;
use parts::subentities::Parts;

mod record;

/// The sub-entities with the codimension absent, which means 1.
#[unsafe(no_mangle)]
pub extern "C" fn ts_subentities(kind: u64, ids: &[u64], out: &mut [u64], ends: &mut [u64]) -> Parts
    ensures { Permits (subentities_outcome kind None ids.now (out.old, ends.old)) result (out.new, ends.new) }
{
    parts::subentities::subentities(kind, None, ids, out, ends).into()
}

/// The sub-entities at a codimension.
#[unsafe(no_mangle)]
pub extern "C" fn ts_subentities_of(
    kind: u64,
    codim: u64,
    ids: &[u64],
    out: &mut [u64],
    ends: &mut [u64],
) -> Parts
    ensures { Permits (subentities_outcome kind (Some codim) ids.now (out.old, ends.old)) result (out.new, ends.new) }
{
    parts::subentities::subentities(kind, Some(codim), ids, out, ends).into()
}

/// The poly form.
#[unsafe(no_mangle)]
pub extern "C" fn ts_to_poly(kind: u64, ids: &[u64], out: &mut [u64]) -> Answer
    ensures { Permits (to_poly kind ids.now out.old) result out.new }
{
    parts::poly::to_poly(kind, ids, out).into()
}

/// The fixed kind that an element of a poly kind is.
#[unsafe(no_mangle)]
pub extern "C" fn ts_from_poly(kind: u64, ids: &[u64], out: &mut [u64]) -> Answer
    ensures { Permits (from_poly kind ids.now out.old) result out.new }
{
    recognise::from_poly(kind, ids, out).into()
}

/// The simplexes of one cell.
#[unsafe(no_mangle)]
pub extern "C" fn ts_to_simplexes(kind: u64, ids: &[u64], out: &mut [u64]) -> Answer
    ensures { Permits (to_simplexes kind ids.now out.old) result out.new }
{
    simplexes::to_simplexes(kind, ids, out).into()
}

/// The element wound.
#[unsafe(no_mangle)]
pub extern "C" fn ts_reorient(
    kind: u64,
    ids: &[u64],
    dimension: u64,
    points: &[f64],
    out: &mut [u64],
) -> Answer
    ensures { Permits (reorient_outcome kind ids.now dimension points.now out.old) result out.new }
{
    winding::reorient(kind, ids, dimension, points, out).into()
}

/// The tetrahedra of a block of cells.
#[unsafe(no_mangle)]
pub extern "C" fn ts_split_block(kind: u64, ids: &[u64], out: &mut [u64]) -> Answer
    ensures { Permits (split_block kind ids.now out.old) result out.new }
{
    blocks::split_block(kind, ids, out).into()
}

/// The ids that little-endian bytes hold.
#[unsafe(no_mangle)]
pub extern "C" fn ts_read_ids(bytes: &[u8], out: &mut [u64]) -> Answer
    ensures { Permits (read_outcome bytes.now out.old) result out.new }
{
    records::wire::read_ids(bytes, out).into()
}

/// The ids as little-endian bytes.
#[unsafe(no_mangle)]
pub extern "C" fn ts_write_ids(ids: &[u64], out: &mut [u8]) -> Answer
    ensures { Permits (write_outcome ids.now out.old) result out.new }
{
    records::wire::write_ids(ids, out).into()
}

/// The simplexes of the cell that one record holds.
#[unsafe(no_mangle)]
pub extern "C" fn ts_split_record(bytes: &[u8], out: &mut [u64]) -> Answer
    ensures { Permits (split_record bytes.now out.old) result out.new }
{
    record::split_record(bytes, out).into()
}
