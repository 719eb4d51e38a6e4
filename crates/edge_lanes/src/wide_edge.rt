//! An edge of a piece of any size, by its values in 64 bits.
ghost use Rattle.std.specs.Prelude.{◌≡◌, ℕ, ℤ, pos, ◌^◌, ◌+◌, ◌*◌, ◌<◌, ◌+ℤ◌, ◌*ℤ◌, ◌≤ℤ◌, IsTrue, ◌↔◌, map};
ghost use Rattle.std.specs.Simd.Lanes.{mask_l};
ghost use Rattle.cull_base.specs.Piece.{IsCoordinate, point, each_sample};
ghost use Rattle.cull_base.specs.Bounds.{Bounded};
ghost use Rattle.edge_lanes.specs.Lanes.{columns, highest_of, is_not_negative, lowest_of, row_of};
ghost use Rattle.edge_lanes.specs.Lanes.{subtile_signs, subtile_step, subtile_steps};
ghost use Rattle.edge_lanes.specs.Lines.{IsEdge, candidates_of, inside_from, moved_to, tile_value};

use crate::arithmetic::{highest, lowest, opposite, pixel_step, shift, steps, total};
use crate::bias::first_value;
use cull_base::arithmetic::difference;
use cull_base::{Side, Tile};
use std::simd::prelude::*;

/// An edge over the screen. A sample is inside where the value there isn't negative.
#[derive(Clone, Copy)]
pub struct WideEdge {
    // at the sample of the first pixel
    start: i64,
    // what a pixel to the right adds, and one below
    column: i64,
    row: i64,
    ghost start_bounded: { Bounded (2 ^ 61 + 1) start },
    ghost column_bounded: { Bounded (2 ^ 34) column },
    ghost row_bounded: { Bounded (2 ^ 34) row },
}

// What subtile j of a tile adds to the value at the tile's first sample.
#[inline(always)]
fn subtile_step(column: i64, row: i64, j: u32) -> i64
    requires column { Bounded (2 ^ 34) column }
    requires row { Bounded (2 ^ 34) row }
    requires j { j < 8 }
    ensures value { result ≡ subtile_step column row j }
    ensures bounded { Bounded (2 ^ 46) result }
{
    total(steps(row, 4 * (j / 4)), steps(column, 8 * (j % 4)))
}

#[inline(always)]
fn subtile_steps(column: i64, row: i64) -> [i64; 8]
    requires column { Bounded (2 ^ 34) column }
    requires row { Bounded (2 ^ 34) row }
    ensures { result ≡ subtile_steps column row }
{
    [
        subtile_step(column, row, 0),
        subtile_step(column, row, 1),
        subtile_step(column, row, 2),
        subtile_step(column, row, 3),
        subtile_step(column, row, 4),
        subtile_step(column, row, 5),
        subtile_step(column, row, 6),
        subtile_step(column, row, 7),
    ]
}

// A value moved within a tile.
#[inline(always)]
fn move_by(start: i64, by: i64) -> i64
    requires start { Bounded (2 ^ 61 + 2 ^ 49) start }
    requires by { Bounded (2 ^ 46) by }
    ensures value { result ≡ start +ℤ by }
    ensures bounded { Bounded (2 ^ 62) result }
    ensures near { Bounded (2 ^ 61 + 2 ^ 47) start → Bounded (2 ^ 61 + 2 ^ 49) result }
{
    start + by
}

impl WideEdge {
    ghost use Rattle.edge_lanes.specs.Inside.{wide_line};

    /// The edge from a to b, in sixteenths of a pixel.
    pub fn of(ax: i32, ay: i32, bx: i32, by: i32, side: Side) -> WideEdge
        requires ax { IsCoordinate ax }
        requires ay { IsCoordinate ay }
        requires bx { IsCoordinate bx }
        requires by { IsCoordinate by }
        ensures { IsEdge (wide_line result) side (point ax ay) (point bx by) }
    {
        let across = difference(bx, ax);
        let down = difference(by, ay);
        WideEdge {
            start: first_value(ax, ay, bx, by, side),
            column: opposite(pixel_step(down)),
            row: pixel_step(across),
        }
    }

    /// The value at the first sample of a tile. Out of line, since nearly all pieces are narrow.
    #[inline(never)]
    pub fn tile_start(&self, tile: Tile) -> i64
        requires column { tile.column < 64 }
        requires row { tile.row < 256 }
        ensures value { result ≡ tile_value (wide_line self.now) tile }
        ensures bounded { Bounded (2 ^ 61 + 2 ^ 47) result }
    {
        shift(
            self.start,
            steps(self.column, 32 * u32::from(tile.column)),
            steps(self.row, 8 * u32::from(tile.row)),
        )
    }

    /// The value at the first sample of subtile j of a tile that begins with this value.
    #[inline(always)]
    pub fn subtile_start(&self, start: i64, j: u32) -> i64
        requires start { Bounded (2 ^ 61 + 2 ^ 47) start }
        requires j { j < 8 }
        ensures value { result ≡ moved_to (wide_line self.now) start j }
        ensures bounded { Bounded (2 ^ 61 + 2 ^ 49) result }
    {
        move_by(start, subtile_step(self.column, self.row, j))
    }

    // Bit j is set where this value isn't negative with what subtile j of a tile adds.
    #[inline(always)]
    fn subtile_signs(&self, value: i64) -> u64
        requires { Bounded (2 ^ 61 + 2 ^ 49) value }
        ensures { result ≡ subtile_signs self.now.column self.now.row value }
    {
        i64x8::splat(value)
            .strict_add(i64x8::from_array(subtile_steps(self.column, self.row)))
            .simd_ge(i64x8::splat(0))
            .to_bitmask()
    }

    /// The subtiles of a tile that begins with this value: bit j is clear where no sample of subtile j is inside.
    #[inline(always)]
    pub fn candidates(&self, start: i64) -> u64
        requires { Bounded (2 ^ 61 + 2 ^ 47) start }
        ensures { result ≡ candidates_of (wide_line self.now) start }
    {
        self.subtile_signs(move_by(start, highest(self.column, self.row)))
    }

    /// Whether each sample of such a subtile is inside.
    #[inline(always)]
    fn accepts_all(&self, start: i64) -> bool
        requires { Bounded (2 ^ 61 + 2 ^ 49) start }
        ensures { IsTrue result → pos 0 ≤ℤ (start +ℤ lowest_of self.now.column self.now.row) }
    {
        move_by(start, lowest(self.column, self.row)) >= 0
    }

    // Bit c is set where the value at column c isn't negative, in a row that begins with this value.
    #[inline(always)]
    fn columns(&self, start: i64) -> u64
        requires { Bounded (2 ^ 62) start }
        ensures { result ≡ mask_l (map (λ c. is_not_negative (start +ℤ (self.now.column *ℤ pos c))) columns) }
    {
        let offsets = i64x8::splat(self.column).strict_mul(i64x8::from_array([
            0, 1, 2, 3, 4, 5, 6, 7,
        ]));
        i64x8::splat(start)
            .strict_add(offsets)
            .simd_ge(i64x8::splat(0))
            .to_bitmask()
    }

    // The same for a row of a subtile that begins with this value.
    #[inline(always)]
    fn row_of(&self, start: i64, row: u32) -> u64
        requires start { Bounded (2 ^ 61 + 2 ^ 49) start }
        requires row { row < 4 }
        ensures value { result ≡ row_of (inside_from (wide_line self.now) start) row }
        ensures byte { result < 2 ^ 8 }
    {
        self.columns(move_by(start, steps(self.row, row)))
    }

    // The mask of a subtile that begins with this value, row by row.
    #[inline(always)]
    fn rows(&self, start: i64) -> u32
        requires { Bounded (2 ^ 61 + 2 ^ 49) start }
        ensures { result ≡ mask_l (each_sample (inside_from (wide_line self.now) start)) }
    {
        let upper = self.row_of(start, 0) + self.row_of(start, 1) * 256;
        let lower = self.row_of(start, 2) + self.row_of(start, 3) * 256;
        (upper + lower * 65536) as u32
    }

    /// The samples of a subtile that are inside this edge, where the subtile begins with this value.
    #[inline(always)]
    pub fn mask(&self, start: i64) -> u32
        requires { Bounded (2 ^ 61 + 2 ^ 49) start }
        ensures { result ≡ mask_l (each_sample (inside_from (wide_line self.now) start)) }
    {
        if self.accepts_all(start) {
            u32::MAX
        } else {
            self.rows(start)
        }
    }
}
