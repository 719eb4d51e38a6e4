//! The subtiles of a tile that a rectangle reaches, computed from it and not searched for.
ghost use Rattle.std.specs.Prelude.{◌≡◌, ℕ, pos, ◌+◌, ◌-◌, ◌*◌, ◌/◌, ◌^◌, ◌<◌, ◌≤◌, ◌≤ℤ◌, ◌∷◌, [], cond, max, min};
ghost use Rattle.std.specs.Prelude.{slice_index, true};
ghost use Rattle.std.specs.Int.{int_min, int_max, div_ceil, bit_at};
ghost use Rattle.masked_update.specs.Inner.{GoesOn, IsInner};

use cull_base::{Rect, Size, Tile, TileSpan};
use std::simd::prelude::*;

/// Columns and rows of a screen's subtiles, each from a first to before an end; in the order in which they are computed
/// side by side.
#[derive(Clone, Copy)]
pub struct SubBox {
    pub size: Size,
    pub first_column: u32,
    pub first_row: u32,
    pub end_column: u32,
    pub end_row: u32,
}

/// Columns and rows of a tile's subtiles, each from a first to before an end.
#[derive(Clone, Copy)]
pub struct SubSpan {
    pub first_column: u32,
    pub end_column: u32,
    pub first_row: u32,
    pub end_row: u32,
}

/// Whether the screen has tiles in a column and in a row: those before them end before the screen does.
#[inline(always)]
pub(crate) fn goes_on(size: Size, column: u32, row: u32) -> bool
    ensures { result ≡ true → GoesOn size column row }
{
    column < size.tile_columns() && row < size.tile_rows()
}

// How many of a screen's columns and rows of pixels lie before a rectangle's first corner, and before its second.
#[inline(always)]
fn pixels_before(rect: &Rect, width: u16, height: u16) -> [u32; 4]
    ensures first_column { pos (slice_index result 0) ≡ int_min (int_max rect.now.x0 (pos 0)) (pos width) }
    ensures first_row { pos (slice_index result 1) ≡ int_min (int_max rect.now.y0 (pos 0)) (pos height) }
    ensures end_column { pos (slice_index result 2) ≡ int_min (int_max rect.now.x1 (pos 0)) (pos width) }
    ensures end_row { pos (slice_index result 3) ≡ int_min (int_max rect.now.y1 (pos 0)) (pos height) }
{
    let (columns, rows) = (i32::from(width), i32::from(height));
    let places = i32x4::from_array([rect.x0, rect.y0, rect.x1, rect.y1]);
    let counts = i32x4::from_array([columns, rows, columns, rows]);
    let held = places.simd_max(i32x4::splat(0)).simd_min(counts);
    held.cast::<u32>().to_array()
}

// The first subtiles that columns and rows of pixels reach, and the ends: pixels over 8 and 4, rounded down and up.
// Condition: the ends are below 2^16.
#[inline(always)]
fn subtiles(pixels: [u32; 4]) -> [u32; 4]
    requires end_column { slice_index pixels 2 < 2 ^ 16 }
    requires end_row { slice_index pixels 3 < 2 ^ 16 }
    ensures { result ≡ slice_index pixels 0 / 8 ∷ slice_index pixels 1 / 4
        ∷ div_ceil (slice_index pixels 2) 8 ∷ div_ceil (slice_index pixels 3) 4 ∷ [] }
{
    let rounded = u32x4::from_array(pixels).strict_add(u32x4::from_array([0, 0, 7, 3]));
    (rounded / u32x4::from_array([8, 4, 8, 4])).to_array()
}

// The tiles in which a first column and row of subtiles stand, and the first ones past an end of both.
#[inline(always)]
fn tiles(subs: [u32; 4]) -> [u32; 4]
    ensures { result ≡ slice_index subs 0 / 4 ∷ slice_index subs 1 / 2
        ∷ div_ceil (slice_index subs 2) 4 ∷ div_ceil (slice_index subs 3) 2 ∷ [] }
{
    let [left, top, right, bottom] = subs;
    let subs = u32x4::from_array([left, top, right, bottom]);
    let begun = (subs % u32x4::from_array([1, 1, 4, 2])).simd_min(u32x4::splat(1));
    let whole = subs / u32x4::from_array([4, 2, 4, 2]);
    whole.strict_add(begun).to_array()
}

// Two firsts, but not before a window's, and two ends, but not past its.
#[inline(always)]
fn in_window(tiles: [u32; 4], window: &TileSpan) -> [u32; 4]
    ensures { let w = window.now in result
        ≡ max (slice_index tiles 0) w.first_column ∷ max (slice_index tiles 1) w.first_row
        ∷ min (slice_index tiles 2) w.end_column ∷ min (slice_index tiles 3) w.end_row ∷ [] }
{
    let firsts = u32x4::from_array([window.first_column, window.first_row, 0, 0]);
    let ends = u32x4::from_array([u32::MAX, u32::MAX, window.end_column, window.end_row]);
    let tiles = u32x4::from_array(tiles);
    tiles.simd_max(firsts).simd_min(ends).to_array()
}

// How many of some lie past a start, and at most so many.
#[inline(always)]
fn past(number: u32, start: u32, most: u32) -> u32
    ensures { result ≡ min (number - start) most }
{
    number.saturating_sub(start).min(most)
}

/// The ones from a first bit to before an end. Conditions: the first isn't after the end, and the end is at most 8.
#[inline(always)]
pub(crate) fn ones_between(first: u32, end: u32) -> u32
    requires ordered { first ≤ end }
    requires within { end ≤ 8 }
    ensures value { result ≡ 2 ^ end - 2 ^ first }
    ensures small { result < 2 ^ end }
{
    (1 << end) - (1 << first)
}

impl SubBox {
    ghost use Rattle.masked_update.specs.Merged.{IsSubBox, span_at};
    ghost use Rattle.masked_update.specs.Reached.{reached_in};

    /// The subtiles on the screen that the rectangle reaches. Condition: no corner of the rectangle is before its
    /// first.
    #[inline(always)]
    pub fn of(rect: &Rect, size: Size) -> SubBox
        requires across { rect.now.x0 ≤ℤ rect.now.x1 }
        requires down { rect.now.y0 ≤ℤ rect.now.y1 }
        ensures reached { IsSubBox rect.now result }
        ensures size { result.size ≡ size }
    {
        let pixels = pixels_before(rect, size.width(), size.height());
        let [first_column, first_row, end_column, end_row] = subtiles(pixels);
        SubBox {
            size,
            first_column,
            first_row,
            end_column,
            end_row,
        }
    }

    /// The tiles of a window in which they stand. There may be none: a first may be past its end then.
    #[inline(always)]
    pub(crate) fn tiles_in(&self, window: &TileSpan) -> TileSpan
        ensures { result ≡ reached_in self.now window.now }
    {
        let reached = tiles([
            self.first_column,
            self.first_row,
            self.end_column,
            self.end_row,
        ]);
        let [first_column, first_row, end_column, end_row] = in_window(reached, window);
        TileSpan {
            first_column,
            end_column,
            first_row,
            end_row,
        }
    }

    /// Whether the tile at a place stands neither at the screen's right end nor at its lower end.
    #[inline(always)]
    pub(crate) fn is_inner(&self, place: Tile) -> bool
        ensures { result ≡ true → IsInner self.now.size place }
    {
        goes_on(
            self.size,
            u32::from(place.column) + 1,
            u32::from(place.row) + 1,
        )
    }

    /// Those of them in the tile at a place.
    #[inline(always)]
    pub fn in_tile(self, place: Tile) -> SubSpan
        ensures { result ≡ span_at self place }
    {
        let column = 4 * u32::from(place.column);
        let row = 2 * u32::from(place.row);
        SubSpan {
            first_column: past(self.first_column, column, 4),
            end_column: past(self.end_column, column, 4),
            first_row: past(self.first_row, row, 2),
            end_row: past(self.end_row, row, 2),
        }
    }
}

impl SubSpan {
    ghost use Rattle.masked_update.specs.Merged.{has_sub};

    /// The subtiles of the span, as bits.
    #[inline(always)]
    pub fn bits(self) -> u32
        requires columns { self.first_column ≤ self.end_column }
        requires rows { self.first_row ≤ self.end_row }
        requires columns_within { self.end_column ≤ 4 }
        requires rows_within { self.end_row ≤ 2 }
        ensures value { (j : ℕ) → j < 8 → bit_at result j ≡ cond (has_sub self j) 1 0 }
        ensures byte { result < 2 ^ 8 }
    {
        let columns = ones_between(self.first_column, self.end_column);
        let rows = ones_between(4 * self.first_row, 4 * self.end_row);
        // the same four bits in each of the two rows
        columns * 17 & rows
    }
}
