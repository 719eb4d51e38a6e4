//! An edge less than 2^20 sixteenths of a pixel long each way, by its values' sixteenths: a value moved by 16k isn't
//! negative exactly where its sixteenth, rounded down and moved by k, isn't.
ghost use Rattle.std.specs.Prelude.{◌≡◌, ℕ, ℤ, pos, ◌^◌, ◌+◌, ◌<◌, ◌+ℤ◌, ◌-ℤ◌, ◌*ℤ◌};
ghost use Rattle.std.specs.Int.{int_div_euclid};
ghost use Rattle.cull_base.specs.Piece.{IsCoordinate, point};
ghost use Rattle.cull_base.specs.Bounds.{Bounded};
ghost use Rattle.edge_lanes.specs.Lanes.{offsets_of, highest_of, lowest_of, subtile_step, subtile_steps, subtile_signs, row_of};
ghost use Rattle.edge_lanes.specs.Lines.{IsEdge, IsShort, candidates_of, clamped, counts_at, inside_from};
ghost use Rattle.edge_lanes.specs.Lines.{line, moved_to, tile_value, whole_of};

use crate::arithmetic::{shift, steps};
use crate::bias::first_value;
use crate::slant::Slant;
use cull_base::{Side, Tile};
use std::simd::prelude::*;

/// A tile's samples lie less than 2^26 from its first, so a value clamped to this size there keeps its sign at each.
const FAR: i64 = 0x4000_0000;

/// An edge over the screen. A sample is inside where the value there isn't negative.
#[derive(Clone, Copy)]
pub struct NarrowEdge {
    // at the sample of the first pixel
    start: i64,
    // what a pixel to the right adds, and one below
    column: i32,
    row: i32,
    // the most and the least that a sample of a subtile adds to its first
    highest: i32,
    lowest: i32,
    // what each of a tile's eight subtiles adds to the value at the tile's first sample
    subtiles: [i32; 8],
    // what each of eight columns adds
    columns: i32x8,
    ghost start_bounded: { Bounded (2 ^ 58) start },
    ghost column_bounded: { Bounded (2 ^ 20) column },
    ghost row_bounded: { Bounded (2 ^ 20) row },
    ghost is_highest: { highest ≡ highest_of column row },
    ghost is_lowest: { lowest ≡ lowest_of column row },
    ghost are_subtiles: { subtiles ≡ subtile_steps column row },
    ghost are_columns: { columns ≡ offsets_of column },
}

/// Which columns of each of a subtile's four rows are inside.
#[derive(Clone, Copy)]
pub struct Rows {
    pub first: u64,
    pub second: u64,
    pub third: u64,
    pub fourth: u64,
}

#[inline(always)]
pub(crate) fn step(a: i32, b: i32) -> i32
    requires a { IsCoordinate a }
    requires b { IsCoordinate b }
    ensures { result ≡ a -ℤ b }
{
    a - b
}

// A sixteenth of a value, rounded down.
#[inline(always)]
pub(crate) fn sixteenth(value: i64) -> i64
    requires { Bounded (2 ^ 61 + 1) value }
    ensures value { result ≡ int_div_euclid value (pos 16) }
    ensures bounded { Bounded (2 ^ 58) result }
{
    value >> 4
}

// A value in 31 bits, with its sign.
#[inline(always)]
fn near(value: i64) -> i32
    ensures value { result ≡ clamped value }
    ensures bounded { Bounded (2 ^ 30) result }
{
    value.clamp(-FAR, FAR) as i32
}

// A step taken so often, for a screen of at most 2048 pixels each way.
#[inline(always)]
fn narrow_steps(step: i32, count: u32) -> i64
    requires bounded { Bounded (2 ^ 20) step }
    requires few { count < 2 ^ 11 }
    ensures value { result ≡ step *ℤ pos count }
    ensures bounded { Bounded (2 ^ 45) result }
{
    steps(i64::from(step), count)
}

// The most and the least that a subtile's samples add.
#[inline(always)]
fn narrow_highest(column: i32, row: i32) -> i32
    requires column { Bounded (2 ^ 20) column }
    requires row { Bounded (2 ^ 20) row }
    ensures { result ≡ highest_of column row }
{
    (column * 7).max(0) + (row * 3).max(0)
}

#[inline(always)]
fn narrow_lowest(column: i32, row: i32) -> i32
    requires column { Bounded (2 ^ 20) column }
    requires row { Bounded (2 ^ 20) row }
    ensures { result ≡ lowest_of column row }
{
    (column * 7).min(0) + (row * 3).min(0)
}

// What each of a tile's eight subtiles adds.
#[inline(always)]
fn narrow_subtiles(column: i32, row: i32) -> [i32; 8]
    requires column { Bounded (2 ^ 20) column }
    requires row { Bounded (2 ^ 20) row }
    ensures { result ≡ subtile_steps column row }
{
    let down = i32x8::splat(row).strict_mul(i32x8::from_array([0, 0, 0, 0, 4, 4, 4, 4]));
    let across = i32x8::splat(column).strict_mul(i32x8::from_array([0, 8, 16, 24, 0, 8, 16, 24]));
    down.strict_add(across).to_array()
}

#[inline(always)]
fn from_steps(start: i64, column: i32, row: i32) -> NarrowEdge
    requires start { Bounded (2 ^ 58) start }
    requires column { Bounded (2 ^ 20) column }
    requires row { Bounded (2 ^ 20) row }
    ensures start { result.start ≡ start }
    ensures column { result.column ≡ column }
    ensures row { result.row ≡ row }
{
    NarrowEdge {
        start,
        column,
        row,
        highest: narrow_highest(column, row),
        lowest: narrow_lowest(column, row),
        subtiles: narrow_subtiles(column, row),
        columns: i32x8::splat(column).strict_mul(i32x8::from_array([0, 1, 2, 3, 4, 5, 6, 7])),
    }
}

impl NarrowEdge {
    ghost use Rattle.edge_lanes.specs.Inside.{narrow_line};

    /// The edge from a to b, in sixteenths of a pixel.
    #[inline(always)]
    pub fn of(ax: i32, ay: i32, bx: i32, by: i32, side: Side) -> NarrowEdge
        requires ax { IsCoordinate ax }
        requires ay { IsCoordinate ay }
        requires bx { IsCoordinate bx }
        requires by { IsCoordinate by }
        requires short { IsShort (point ax ay) (point bx by) }
        ensures { IsEdge (narrow_line result) side (point ax ay) (point bx by) }
    {
        from_steps(
            sixteenth(first_value(ax, ay, bx, by, side)),
            step(ay, by),
            step(bx, ax),
        )
    }

    /// The edge, or where it is level, one that has the same signs on a screen of 2048 by 2048 pixels.
    #[inline(always)]
    pub fn slant(&self) -> Slant
        ensures { (x y : ℕ) → x < 2 ^ 11 → y < 2 ^ 11
            → counts_at (line result.start result.column result.row) x y
            ≡ counts_at (narrow_line self.now) x y }
    {
        Slant::of(self.start, self.column, self.row)
    }

    /// The value at the first sample of a tile.
    #[inline(always)]
    pub fn tile_start(&self, tile: Tile) -> i32
        requires column { tile.column < 64 }
        requires row { tile.row < 256 }
        ensures value { result ≡ clamped (tile_value (narrow_line self.now) tile) }
        ensures bounded { Bounded (2 ^ 30) result }
    {
        near(shift(
            self.start,
            narrow_steps(self.column, 32 * u32::from(tile.column)),
            narrow_steps(self.row, 8 * u32::from(tile.row)),
        ))
    }

    /// The value at the first sample of subtile j of a tile that begins with this value.
    #[inline(always)]
    pub fn subtile_start(&self, start: i32, j: u32) -> i32
        requires start { Bounded (2 ^ 30) start }
        requires j { j < 8 }
        ensures value { result ≡ moved_to (narrow_line self.now) start j }
        ensures bounded { Bounded (2 ^ 30 + 2 ^ 25) result }
    {
        start + self.subtiles[j as usize]
    }

    // Bit j is set where this value isn't negative with what subtile j of a tile adds.
    #[inline(always)]
    fn subtile_signs(&self, value: i32) -> u64
        requires { Bounded (2 ^ 30 + 2 ^ 24) value }
        ensures { result ≡ subtile_signs self.now.column self.now.row value }
    {
        i32x8::splat(value)
            .strict_add(i32x8::from_array(self.subtiles))
            .simd_ge(i32x8::splat(0))
            .to_bitmask()
    }

    // The most that a subtile holds which begins with this value.
    #[inline(always)]
    fn with_highest(&self, start: i32) -> i32
        requires { Bounded (2 ^ 30) start }
        ensures value { result ≡ start +ℤ highest_of self.now.column self.now.row }
        ensures bounded { Bounded (2 ^ 30 + 2 ^ 24) result }
    {
        start + self.highest
    }

    // The least that a subtile holds which begins with this value.
    #[inline(always)]
    fn with_lowest(&self, start: i32) -> i32
        requires { Bounded (2 ^ 30) start }
        ensures value { result ≡ start +ℤ lowest_of self.now.column self.now.row }
        ensures bounded { Bounded (2 ^ 30 + 2 ^ 24) result }
    {
        start + self.lowest
    }

    /// The subtiles of a tile that begins with this value: bit j is clear where no sample of subtile j is inside.
    #[inline(always)]
    pub fn candidates(&self, start: i32) -> u64
        requires { Bounded (2 ^ 30) start }
        ensures { result ≡ candidates_of (narrow_line self.now) start }
    {
        self.subtile_signs(self.with_highest(start))
    }

    /// The subtiles of a tile that begins with this value: bit j is set only where each sample of subtile j is inside.
    #[inline(always)]
    pub fn whole(&self, start: i32) -> u64
        requires { Bounded (2 ^ 30) start }
        ensures { result ≡ whole_of (narrow_line self.now) start }
    {
        self.subtile_signs(self.with_lowest(start))
    }

    /// The samples of such a subtile that are inside, row by row.
    #[inline(always)]
    pub fn rows(&self, start: i32) -> Rows
        requires { Bounded (2 ^ 30 + 2 ^ 25) start }
        ensures first { result.first ≡ row_of (inside_from (narrow_line self.now) start) 0 }
        ensures second { result.second ≡ row_of (inside_from (narrow_line self.now) start) 1 }
        ensures third { result.third ≡ row_of (inside_from (narrow_line self.now) start) 2 }
        ensures fourth { result.fourth ≡ row_of (inside_from (narrow_line self.now) start) 3 }
    {
        let none = i32x8::splat(0);
        let row = i32x8::splat(self.row);
        let first = i32x8::splat(start).strict_add(self.columns);
        let second = first.strict_add(row);
        let third = second.strict_add(row);
        let fourth = third.strict_add(row);
        Rows {
            first: first.simd_ge(none).to_bitmask(),
            second: second.simd_ge(none).to_bitmask(),
            third: third.simd_ge(none).to_bitmask(),
            fourth: fourth.simd_ge(none).to_bitmask(),
        }
    }
}
