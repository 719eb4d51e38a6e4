//! One axis of the screen: its tiles, cut into bins.
ghost use Rattle.std.specs.Prelude.{◌≡◌, ◌+◌, ◌<◌, ◌≤◌, true};
ghost use Rattle.cull_base.specs.Screen.{tile_columns_of, tile_rows_of};
ghost use Rattle.binning.specs.Axis.{IsCutAxis, IsRangeWithin, IsStepOf, ReachesAlong, bin_along, first_along, has_tile_along};

use crate::cut::Cut;
use cull_base::Size;

/// Steps are counted in parts of this: a power of two that keeps every bin exact.
const WHOLE: u32 = 0x10_0000;

/// So many tiles along an axis, cut into so many bins.
#[derive(Clone, Copy)]
pub(crate) struct Axis {
    pub(crate) bins: u32,
    pub(crate) tiles: u32,
    // how many bins, times WHOLE, a tile is wide, rounded up: a tile's bin by a multiplication
    step: u32,
    ghost stepped: { IsStepOf bins tiles step },
}

/// Bins along an axis, from a first to before an end.
#[derive(Clone, Copy)]
pub(crate) struct BinRange {
    pub(crate) first: u32,
    pub(crate) end: u32,
}

impl Axis {
    // Condition: 1 to 8 bins, 1 to 256 tiles.
    #[inline(always)]
    fn new(bins: u32, tiles: u32) -> Axis
        requires { IsCutAxis bins tiles }
        ensures bins { result.bins ≡ bins }
        ensures tiles { result.tiles ≡ tiles }
    {
        Axis {
            bins,
            tiles,
            step: bins * WHOLE.div_ceil(tiles),
        }
    }

    /// The columns of a screen.
    #[inline(always)]
    pub(crate) fn across(size: Size, cut: &Cut) -> Axis
        ensures bins { result.bins ≡ cut.now.columns }
        ensures tiles { result.tiles ≡ tile_columns_of size }
    {
        Axis::new(cut.columns(), size.tile_columns())
    }

    /// The rows of a screen.
    #[inline(always)]
    pub(crate) fn down(size: Size, cut: &Cut) -> Axis
        ensures bins { result.bins ≡ cut.now.rows }
        ensures tiles { result.tiles ≡ tile_rows_of size }
    {
        Axis::new(cut.rows(), size.tile_rows())
    }

    /// The bin of a tile. Condition: the tile is below their number.
    #[inline(always)]
    pub(crate) fn bin_of(self, tile: u32) -> u32
        requires { tile < self.tiles }
        ensures value { result ≡ bin_along self.bins self.tiles tile }
        ensures within { result < self.bins }
    {
        tile * self.step / WHOLE
    }

    /// The first tile of a bin, at which the bin before ends. Condition: the bin is at most their number.
    #[inline(always)]
    pub(crate) fn first_tile(self, bin: u32) -> u32
        requires { bin ≤ self.bins }
        ensures value { result ≡ first_along self.bins self.tiles bin }
        ensures within { result ≤ self.tiles }
    {
        (bin * self.tiles).div_ceil(self.bins)
    }

    /// Whether a bin has a tile. Condition: it is below their number.
    #[inline(always)]
    pub(crate) fn has_tile(self, bin: u32) -> bool
        requires { bin < self.bins }
        ensures { result ≡ has_tile_along self.bins self.tiles bin }
    {
        self.first_tile(bin) < self.first_tile(bin + 1)
    }

    /// The bins that have a tile from a first to a last, and between them maybe some that have none at all.
    /// Conditions: the first isn't past the last, and the last is below the number of tiles.
    #[inline(always)]
    pub(crate) fn reached(self, first: u32, last: u32) -> BinRange
        requires order { first ≤ last }
        requires within { last < self.tiles }
        ensures reached { ReachesAlong self.bins self.tiles first (last + 1) result.first result.end }
        ensures range { IsRangeWithin self.bins result.first result.end }
        ensures first { has_tile_along self.bins self.tiles result.first ≡ true }
    {
        BinRange {
            first: self.bin_of(first),
            end: self.bin_of(last) + 1,
        }
    }
}
