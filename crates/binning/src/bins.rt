//! The bins of a screen: which tiles stand in each, and their pixels.
ghost use Rattle.std.specs.Prelude.{◌≡◌, ℤ, ◌<◌, ◌↔◌};
ghost use Rattle.cull_base.specs.Rectangle.{HasPixel, no_pixels};
ghost use Rattle.cull_base.specs.Screen.{tile_count_of};
ghost use Rattle.cull_base.specs.Span.{IsSpan};
ghost use Rattle.binning.specs.Bins.{HasNoTile, HasTilesOfBin, IsInTileOfBin, bin_of, bin_rect_of, bin_span_of};
ghost use Rattle.binning.specs.Bins.{has_tiles, span_rect_of, spread_of};
ghost use Rattle.binning.specs.Cut.{bin_count_of};

use crate::axis::Axis;
use crate::cut::Cut;
use cull_base::{NO_PIXELS, Rect, Size, TileSpan};

/// The bin in which a tile stands. Condition: the tile is below the count.
pub fn bin_of_tile(size: Size, cut: &Cut, tile: u32) -> u32
    requires { tile < tile_count_of size }
    ensures value { result ≡ bin_of size cut.now tile }
    ensures within { result < bin_count_of cut.now }
{
    let place = size.tile_at(tile);
    let column = Axis::across(size, cut).bin_of(u32::from(place.column));
    let row = Axis::down(size, cut).bin_of(u32::from(place.row));
    row * cut.columns() + column
}

/// The tiles of a bin, by column and row. Condition: the bin is below the bins.
pub fn bin_span(size: Size, cut: &Cut, bin: u32) -> TileSpan
    requires { bin < bin_count_of cut.now }
    ensures value { result ≡ bin_span_of size cut.now bin }
    ensures tiles { HasTilesOfBin result size cut.now bin }
    ensures span { IsSpan size result }
{
    // an accessor tells what is held of a size
    let _width = size.width();
    let across = Axis::across(size, cut);
    let down = Axis::down(size, cut);
    let column = bin % cut.columns();
    let row = bin / cut.columns();
    TileSpan {
        first_column: across.first_tile(column),
        end_column: across.first_tile(column + 1),
        first_row: down.first_tile(row),
        end_row: down.first_tile(row + 1),
    }
}

#[inline(always)]
fn has_tiles(span: &TileSpan) -> bool
    ensures { result ≡ has_tiles span.now }
{
    span.first_column < span.end_column && span.first_row < span.end_row
}

// From the first corner of one rectangle to the second of another.
fn spread(first: &Rect, last: &Rect) -> Rect
    ensures { result ≡ spread_of first.now last.now }
{
    Rect {
        x0: first.x0,
        y0: first.y0,
        x1: last.x1,
        y1: last.y1,
    }
}

// The pixels of the tiles of a span; (0, 0, 0, 0) where it has none.
fn span_rect(size: Size, span: &TileSpan) -> Rect
    requires { IsSpan size span.now }
    ensures { result ≡ span_rect_of size span.now }
{
    if has_tiles(span) {
        let columns = size.tile_columns();
        spread(
            &size.tile_rect(span.first_row * columns + span.first_column),
            &size.tile_rect((span.end_row - 1) * columns + (span.end_column - 1)),
        )
    } else {
        NO_PIXELS
    }
}

/// The pixels of a bin's tiles; (0, 0, 0, 0) for a bin without tiles. Condition: the bin is below the bins.
pub fn bin_rect(size: Size, cut: &Cut, bin: u32) -> Rect
    requires { bin < bin_count_of cut.now }
    ensures value { result ≡ bin_rect_of size cut.now bin }
    ensures pixels { (x y : ℤ) → HasPixel result x y ↔ IsInTileOfBin size cut.now bin x y }
    ensures none { HasNoTile size cut.now bin → result ≡ no_pixels }
{
    // accessors tell what is held of a size and of a cut
    let _width = size.width();
    let _columns = cut.columns();
    span_rect(size, &bin_span(size, cut, bin))
}
