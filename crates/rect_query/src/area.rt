//! The pixels of the screen that a rectangle has, and whether their samples hide a nearness. Only the tiles and
//! subtiles that it meets are looked at.
ghost use Rattle.std.specs.Prelude.{◌≡◌, ℕ, ◌+◌, ◌*◌, ◌/◌, ◌%◌, ◌<◌, ◌≤◌, ◌^◌, true, cond, map, IsTrue, ◌↔◌};
ghost use Rattle.std.specs.List.{range_with_len};
ghost use Rattle.std.specs.Simd.Lanes.{mask_l};
ghost use Rattle.cull_base.specs.Screen.{IsSize, screen_of};
ghost use Rattle.cull_base.specs.Rectangle.{meets};
ghost use Rattle.cull_base.specs.Span.{is_between};
ghost use Rattle.cull_base.specs.State.{has, samples_of, hides};
ghost use Rattle.masked_update.specs.TileOf.{sub_at};
ghost use Rattle.rect_query.specs.Area.{IsIn, IsArea, IsAreaOf, HoldsArea, is_sample_in};
ghost use Rattle.rect_query.specs.Area.{SubHides, SubRowHides, TileHides, TileRowHides, HidesArea};

use cull_base::arithmetic::pixel_of;
use cull_base::{Rect, Size};
use masked_update::{SubTile, TileState, TileView};

/// Pixels of the screen, from the first corner to before the second; there is at least one.
#[derive(Clone, Copy)]
pub struct Area {
    x0: u32,
    y0: u32,
    x1: u32,
    y1: u32,
}

// Of eight numbered places from the first on, those from one to before an end, as bits.
#[inline(always)]
fn bits_between(first: u32, from: u32, end: u32) -> u32
    requires { from ≤ end }
    ensures value { result ≡ mask_l (map (λ k. is_between from end (first + k)) (range_with_len 0 8)) }
    ensures byte { result < 256 }
{
    let lowest = from.saturating_sub(first).min(8);
    let end = end.saturating_sub(first).min(8);
    (1 << end) - (1 << lowest)
}

impl Area {
    /// The pixels of a rectangle that are in the screen. Condition: there is one.
    pub fn of(rect: &Rect, size: Size) -> Area
        requires { meets rect.now (screen_of size) ≡ true }
        ensures pixels { IsAreaOf result rect.now size }
        ensures sized { IsSize size.width size.height }
    {
        // an accessor tells what is held of a size
        let _width = size.width();
        let common = rect.cut(&size.screen());
        Area {
            x0: pixel_of(common.x0),
            y0: pixel_of(common.y0),
            x1: pixel_of(common.x1),
            y1: pixel_of(common.y1),
        }
    }

    // The columns where row y of pixels is in the area.
    #[inline(always)]
    fn row(&self, y: u32, columns: u32) -> u32
        ensures { result ≡ cond (is_between self.now.y0 self.now.y1 y) columns 0 }
    {
        if self.y0 <= y && y < self.y1 {
            columns
        } else {
            0
        }
    }

    // The samples of the subtile in a column and a row that are in the area. Not inlined, since few subtiles need them.
    #[inline(never)]
    fn samples_in(&self, column: u32, row: u32) -> u32
        requires area { self.now.x0 ≤ self.now.x1 }
        requires column { column < 256 }
        requires row { row < 512 }
        ensures { (k : ℕ) → k < 32 → has (samples_of result) k ≡ is_sample_in self.now column row k }
    {
        let columns = bits_between(8 * column, self.x0, self.x1);
        let y = 4 * row;
        let upper = self.row(y, columns) + self.row(y + 1, columns) * 0x100;
        let lower = self.row(y + 2, columns) + self.row(y + 3, columns) * 0x100;
        upper + lower * 0x1_0000
    }
}

// Whether the area's samples in the subtile of a column and a row hide q. No mask is made where the reference does.
#[inline(always)]
fn is_subtile_hiding(sub: &SubTile, column: u32, row: u32, area: &Area, q: u32) -> bool
    requires area { area.now.x0 ≤ area.now.x1 }
    requires column { column < 256 }
    requires row { row < 512 }
    ensures { IsTrue result ↔ SubHides sub.now column row area.now q }
{
    q < sub.reference() || sub.hides(area.samples_in(column, row), q)
}

// The same for the subtiles of a tile in one row of subtiles.
fn is_row_of_tile_hiding(state: &TileState, column: u32, row: u32, area: &Area, q: u32) -> bool
    requires area { area.now.x0 ≤ area.now.x1 }
    requires column { column < 64 }
    requires row { row < 512 }
    ensures { IsTrue result ↔ SubRowHides state.now column row area.now q }
{
    let first = (column * 4).max(area.x0 / 8);
    let end = (column * 4 + 4).min(area.x1.div_ceil(8));
    for c in first..end {
        let sub = state.sub((row % 2 * 4 + c % 4) as u8);
        if !is_subtile_hiding(&sub, c, row, area, q) {
            return false;
        }
    }
    true
}

// The same for a tile. Not inlined, so that a walk over tiles whose references decide keeps its registers.
#[inline(never)]
fn are_subtiles_hiding(state: &TileState, column: u32, row: u32, area: &Area, q: u32) -> bool
    requires area { area.now.x0 ≤ area.now.x1 }
    requires column { column < 64 }
    requires row { row < 256 }
    ensures { IsTrue result ↔ TileHides state.now column row area.now q }
{
    let first = (row * 2).max(area.y0 / 4);
    let end = (row * 2 + 2).min(area.y1.div_ceil(4));
    for r in first..end {
        if !is_row_of_tile_hiding(state, column, r, area, q) {
            return false;
        }
    }
    true
}

// The same. No subtile is looked at where each reference hides q.
#[inline(always)]
fn is_tile_hiding<V: TileView>(
    view: &V,
    tile: u32,
    column: u32,
    row: u32,
    area: &Area,
    q: u32,
) -> bool
    requires area { area.now.x0 ≤ area.now.x1 }
    requires column { column < 64 }
    requires row { row < 256 }
    requires holds { V.held view.now tile ≡ true }
    ensures { IsTrue result ↔ TileHides (V.tile_of view.now tile) column row area.now q }
{
    q < view.least_reference(tile) || are_subtiles_hiding(&view.state(tile), column, row, area, q)
}

// The same for the tiles of a row.
fn is_row_hiding<V: TileView>(view: &V, size: Size, row: u32, area: &Area, q: u32) -> bool
    requires area { IsArea area.now size }
    requires first { area.now.y0 / 8 ≤ row }
    requires end { row * 8 < area.now.y1 }
    requires holds { HoldsArea (V.held view.now) size area.now }
    ensures { IsTrue result ↔ TileRowHides size (V.tile_of view.now) row area.now q }
{
    for column in area.x0 / 32..area.x1.div_ceil(32) {
        let tile = row * size.tile_columns() + column;
        if !is_tile_hiding(view, tile, column, row, area, q) {
            return false;
        }
    }
    true
}

/// Whether the sample of each pixel of an area hides q. Condition: the view holds each tile that has such a pixel.
pub fn is_area_hiding<V: TileView>(view: &V, size: Size, area: &Area, q: u32) -> bool
    requires area { IsArea area.now size }
    requires holds { HoldsArea (V.held view.now) size area.now }
    ensures { IsTrue result ↔ HidesArea size (V.tile_of view.now) area.now q }
{
    for row in area.y0 / 8..area.y1.div_ceil(8) {
        if !is_row_hiding(view, size, row, area, q) {
            return false;
        }
    }
    true
}
