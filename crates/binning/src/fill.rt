//! The parts of a batch, filled in one pass over its pieces.
ghost use Rattle.std.specs.Prelude.{◌≡◌, ◌+◌, ◌*◌, ◌<◌, ◌≤◌, true, length, OnOk};
ghost use Rattle.cull_base.specs.Piece.{box_of};
ghost use Rattle.binning.specs.Axis.{IsRangeWithin};
ghost use Rattle.binning.specs.Bins.{bin_span_of, has_tiles};
ghost use Rattle.binning.specs.Cut.{bin_count_of};
ghost use Rattle.binning.specs.Pushed.{PushedWhere, GotIndices, is_met, is_bin_in_row, is_reached};

use crate::axis::BinRange;
use crate::grid::{Grid, Reach};
use crate::part::BinPart;
use cull_base::{FrameList, Memory, ScreenTri};

// Adds an index to the parts of the bins in one row and some columns that have tiles.
#[inline(always)]
fn push_in_row(
    parts: &mut [BinPart],
    grid: &Grid,
    columns: BinRange,
    row: u32,
    index: u32,
) -> Result<(), Memory>
    requires parts { length parts.old ≡ bin_count_of grid.now.cut }
    requires columns { IsRangeWithin grid.now.cut.columns columns.first columns.end }
    requires row { row < grid.now.cut.rows }
    ensures { let reached = is_bin_in_row grid.now row columns.first columns.end in
        OnOk result (PushedWhere reached index parts.old parts.new) }
{
    let first = row * grid.columns();
    for column in columns.first..columns.end {
        if grid.has_tiles(column, row) {
            parts[(first + column) as usize].push(index)?;
        }
    }
    Ok(())
}

// Adds an index to the parts of the bins in some rows and columns that have tiles.
#[inline(always)]
fn push_in_rows(parts: &mut [BinPart], grid: &Grid, reach: Reach, index: u32) -> Result<(), Memory>
    requires parts { length parts.old ≡ bin_count_of grid.now.cut }
    requires columns { IsRangeWithin grid.now.cut.columns reach.columns.first reach.columns.end }
    requires rows { IsRangeWithin grid.now.cut.rows reach.rows.first reach.rows.end }
    ensures { OnOk result (PushedWhere (is_reached grid.now reach) index parts.old parts.new) }
{
    for row in reach.rows.first..reach.rows.end {
        push_in_row(parts, grid, reach.columns, row, index)?;
    }
    Ok(())
}

// Adds an index to the part of the one bin in some rows and columns, which has tiles: as in rows and columns of many.
#[inline(always)]
fn push_in_one(parts: &mut [BinPart], grid: &Grid, reach: Reach, index: u32) -> Result<(), Memory>
    requires parts { length parts.old ≡ bin_count_of grid.now.cut }
    requires columns { IsRangeWithin grid.now.cut.columns reach.columns.first reach.columns.end }
    requires rows { IsRangeWithin grid.now.cut.rows reach.rows.first reach.rows.end }
    requires one_column { reach.columns.end ≡ reach.columns.first + 1 }
    requires one_row { reach.rows.end ≡ reach.rows.first + 1 }
    requires has_tiles { has_tiles (bin_span_of grid.now.size grid.now.cut
        (reach.rows.first * grid.now.cut.columns + reach.columns.first)) ≡ true }
    ensures { OnOk result (PushedWhere (is_reached grid.now reach) index parts.old parts.new) }
{
    parts[grid.bin_at(reach.columns.first, reach.rows.first) as usize].push(index)
}

// Adds a piece to the parts of the bins that its box meets: most pieces meet one.
#[inline(always)]
fn push_piece(parts: &mut [BinPart], grid: &Grid, tri: &ScreenTri, index: u32) -> Result<(), Memory>
    requires parts { length parts.old ≡ bin_count_of grid.now.cut }
    ensures { OnOk result (PushedWhere (is_met grid.now (box_of tri.now)) index parts.old parts.new) }
{
    let reach = grid.reached(tri);
    if reach.is_one() {
        push_in_one(parts, grid, reach, index)
    } else {
        push_in_rows(parts, grid, reach, index)
    }
}

/// Adds to the parts the pieces of a list from one index to before another. Conditions: there is one part for each bin,
/// the grid is of the list's screen, and the indices are the list's.
pub(crate) fn fill(
    parts: &mut [BinPart],
    grid: &Grid,
    list: &FrameList,
    from: u32,
    to: u32,
) -> Result<(), Memory>
    requires parts { length parts.old ≡ bin_count_of grid.now.cut }
    requires size { grid.now.size ≡ list.now.list.size }
    requires order { from ≤ to }
    requires within { to ≤ length list.now.list.members }
    ensures { OnOk result (GotIndices list.now.list grid.now.cut from to parts.old parts.new) }
{
    for index in from..to {
        push_piece(parts, grid, list.get(index), index)?;
    }
    Ok(())
}
