//! A screen's bins along both axes.
ghost use Rattle.std.specs.Prelude.{◌≡◌, ℕ, ◌+◌, ◌*◌, ◌<◌, ◌≤◌, true, ◌&&◌, nat_eq};
ghost use Rattle.cull_base.specs.Piece.{box_of};
ghost use Rattle.binning.specs.Axis.{IsRangeWithin};
ghost use Rattle.binning.specs.Bins.{bin_span_of, has_tiles};
ghost use Rattle.binning.specs.Cut.{IsCut, bin_count_of};
ghost use Rattle.binning.specs.Pushed.{is_met, is_reached};

use crate::axis::{Axis, BinRange};
use crate::cut::Cut;
use crate::tiles::{TILE_HEIGHT, TILE_WIDTH, first_tile, last_tile, misses};
use cull_base::{Extent, ScreenTri, Size};
use std::marker::Model;

/// The bins of a screen.
#[derive(Drop)]
pub(crate) struct Grid {
    size: Size,
    cut: Cut,
    across: Axis,
    down: Axis,
    // no bin is without tiles
    is_full: bool,
}

impl Model for Grid {
    ghost use Rattle.binning.specs.Grid.{CutScreen, IsGrid};

    ghost Value = { CutScreen };

    ghost view = { λ g. record { size = g.size; cut = g.cut } };

    ghost invariant = { λ g. IsGrid g.size g.cut g.across.bins g.across.tiles g.down.bins g.down.tiles g.is_full };
}

/// The bins in some columns and rows.
#[derive(Clone, Copy)]
pub(crate) struct Reach {
    pub(crate) columns: BinRange,
    pub(crate) rows: BinRange,
}

const NO_BINS: Reach = Reach {
    columns: BinRange { first: 0, end: 0 },
    rows: BinRange { first: 0, end: 0 },
};

impl Reach {
    /// Whether it is one bin. Condition: no first is past 8.
    #[inline(always)]
    pub(crate) fn is_one(self) -> bool
        requires columns { self.columns.first ≤ 8 }
        requires rows { self.rows.first ≤ 8 }
        ensures { result
            ≡ (nat_eq self.columns.end (self.columns.first + 1) && nat_eq self.rows.end (self.rows.first + 1)) }
    {
        self.columns.end == self.columns.first + 1 && self.rows.end == self.rows.first + 1
    }
}

impl Grid {
    pub(crate) fn of(size: Size, cut: &Cut) -> Grid
        ensures size { result.size ≡ size }
        ensures cut { result.cut ≡ cut.now }
    {
        // accessors tell what is held of a size and of a cut
        let _width = size.width();
        let _columns = cut.columns();
        let across = Axis::across(size, cut);
        let down = Axis::down(size, cut);
        Grid {
            size,
            cut: *cut,
            across,
            down,
            is_full: across.bins <= across.tiles && down.bins <= down.tiles,
        }
    }

    /// How many bins stand in a row.
    #[inline(always)]
    pub(crate) fn columns(&self) -> u32
        ensures value { result ≡ self.now.cut.columns }
        ensures valid { IsCut self.now.cut.columns self.now.cut.rows }
    {
        self.across.bins
    }

    /// Whether a bin has tiles. Condition: the column and the row are below the cut's.
    #[inline(always)]
    pub(crate) fn has_tiles(&self, column: u32, row: u32) -> bool
        requires column { column < self.now.cut.columns }
        requires row { row < self.now.cut.rows }
        ensures { result ≡ has_tiles (bin_span_of self.now.size self.now.cut (row * self.now.cut.columns + column)) }
    {
        self.is_full || self.across.has_tile(column) && self.down.has_tile(row)
    }

    /// The number of the bin at a column and a row. Condition: both are below the cut's.
    #[inline(always)]
    pub(crate) fn bin_at(&self, column: u32, row: u32) -> u32
        requires column { column < self.now.cut.columns }
        requires row { row < self.now.cut.rows }
        ensures value { result ≡ row * self.now.cut.columns + column }
        ensures within { result < bin_count_of self.now.cut }
    {
        row * self.columns() + column
    }

    /// The bins that a piece's box meets, and between them maybe some that have no tiles: the first has.
    #[inline(always)]
    pub(crate) fn reached(&self, tri: &ScreenTri) -> Reach
        ensures valid { IsCut self.now.cut.columns self.now.cut.rows }
        ensures bins { (b : ℕ) → b < bin_count_of self.now.cut
            → is_reached self.now result b ≡ is_met self.now (box_of tri.now) b }
        ensures first { result.columns.first < result.columns.end
            → has_tiles (bin_span_of self.now.size self.now.cut
            (result.rows.first * self.now.cut.columns + result.columns.first)) ≡ true }
        ensures column_range { IsRangeWithin self.now.cut.columns result.columns.first result.columns.end }
        ensures row_range { IsRangeWithin self.now.cut.rows result.rows.first result.rows.end }
    {
        let (width, height) = (self.size.width(), self.size.height());
        let x = Extent::of_three(&tri.x());
        let y = Extent::of_three(&tri.y());
        if misses(x, width) || misses(y, height) {
            return NO_BINS;
        }
        let (left, right) = (first_tile(x, TILE_WIDTH), last_tile(x, width, TILE_WIDTH));
        let (top, bottom) = (
            first_tile(y, TILE_HEIGHT),
            last_tile(y, height, TILE_HEIGHT),
        );
        Reach {
            columns: self.across.reached(left, right),
            rows: self.down.reached(top, bottom),
        }
    }
}
