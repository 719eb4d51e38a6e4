//! The edges of a piece of a few pixels, which are asked only for the subtiles that its box reaches: nothing is divided.
ghost use Rattle.std.specs.Prelude.{◌≡◌, pos, bit_or, ◌-◌, ◌<◌, ◌^◌, ◌*◌, ◌-ℤ◌, ◌+ℤ◌, ◌*ℤ◌, IfSome, IsTrue};
ghost use Rattle.std.specs.Int.{int_div_euclid};
ghost use Rattle.std.specs.Simd.Lanes.{mask_l};
ghost use Rattle.cull_base.specs.Bounds.{Bounded};
ghost use Rattle.cull_base.specs.Piece.{covered, each_sample};
ghost use Rattle.cull_base.specs.State.{samples_of};
ghost use Rattle.cull_base.specs.declared.place.Sub.{Sub};
ghost use Rattle.edge_lanes.specs.Around.{AreBetween, AreBounded, AreClose, AreStarts, around, steps_around, steps_back};
ghost use Rattle.edge_lanes.specs.Lines.{inside_all};

use crate::narrow_edges::mask_of_rows;
use crate::small_edge::{SmallEdge, short};
use crate::small_lanes::{
    are_few, biases, held, moved, past, sixteenths, steps_around, steps_back, values,
};
use cull_base::{ScreenTri, Sub};
use std::simd::prelude::*;

/// The first vertex of such a piece lies less than this many sixteenths of a pixel from the corner of the screen each way.
const NEAR: i32 = 0x40_0000;

/// The edges of a piece, for the samples that it covers.
#[derive(Clone, Copy)]
pub struct SmallEdges {
    // the first vertex's pixel
    right: i32,
    below: i32,
    // the edges' values at its sample, and what a pixel to the right adds to each, and one below
    start: i32x4,
    column: i32x4,
    row: i32x4,
    first: SmallEdge,
    second: SmallEdge,
    third: SmallEdge,
    ghost right_bounded: { Bounded (2 ^ 18) right },
    ghost below_bounded: { Bounded (2 ^ 18) below },
    ghost start_bounded: { AreBounded (2 ^ 20) start },
    ghost are_columns: { column ≡ around first.column second.column third.column },
    ghost are_rows: { row ≡ around first.row second.row third.row },
}

// Whether a coordinate lies near the screen, as that of a piece that reaches it does.
#[inline(always)]
fn is_near(place: i32) -> bool
    ensures { IsTrue result → Bounded (2 ^ 22) place }
{
    -NEAR < place && place < NEAR
}

// Whether edges of these steps are short, from a vertex that lies near the screen.
#[inline(always)]
fn is_little(x: i32, y: i32, row: i32x4, column: i32x4) -> bool
    requires row { AreBounded (2 ^ 30) row }
    requires column { AreBounded (2 ^ 30) column }
    ensures x { IsTrue result → Bounded (2 ^ 22) x }
    ensures y { IsTrue result → Bounded (2 ^ 22) y }
    ensures row { IsTrue result → AreBounded (2 ^ 10) row }
    ensures column { IsTrue result → AreBounded (2 ^ 10) column }
{
    are_few(row, column) & is_near(x) & is_near(y)
}

// The pixel where a coordinate lies.
#[inline(always)]
fn pixel(place: i32) -> i32
    requires { Bounded (2 ^ 22) place }
    ensures value { result ≡ int_div_euclid place (pos 16) }
    ensures bounded { Bounded (2 ^ 18) result }
{
    place >> 4
}

// How far a pixel of the screen lies past another.
#[inline(always)]
fn pixels_past(number: u32, pixel: i32) -> i32
    requires number { number < 2 ^ 11 }
    requires pixel { Bounded (2 ^ 18) pixel }
    ensures value { result ≡ pos number -ℤ pixel }
    ensures bounded { Bounded (2 ^ 19) result }
{
    number as i32 - pixel
}

// Where the sample of a pixel stands.
#[inline(always)]
fn middle(pixel: i32) -> i32
    requires { Bounded (2 ^ 18) pixel }
    ensures { result ≡ (pos 16 *ℤ pixel) +ℤ pos 8 }
{
    16 * pixel + 8
}

#[inline(always)]
fn from_lanes(right: i32, below: i32, start: i32x4, column: i32x4, row: i32x4) -> SmallEdges
    requires right { Bounded (2 ^ 18) right }
    requires below { Bounded (2 ^ 18) below }
    requires start { AreBounded (2 ^ 20) start }
    requires column { AreBounded (2 ^ 10) column }
    requires row { AreBounded (2 ^ 10) row }
    ensures right { result.right ≡ right }
    ensures below { result.below ≡ below }
    ensures start { result.start ≡ start }
    ensures column { result.column ≡ column }
    ensures row { result.row ≡ row }
{
    let columns = column.to_array();
    let rows = row.to_array();
    SmallEdges {
        right,
        below,
        start,
        column,
        row,
        first: SmallEdge::of(columns[0], rows[0]),
        second: SmallEdge::of(columns[1], rows[1]),
        third: SmallEdge::of(columns[2], rows[2]),
    }
}

// The columns of a row that are outside one of three edges.
#[inline(always)]
fn in_any(first: u64, second: u64, third: u64) -> u64
    requires first { first < 2 ^ 8 }
    requires second { second < 2 ^ 8 }
    requires third { third < 2 ^ 8 }
    ensures value { result ≡ bit_or (bit_or first second) third }
    ensures byte { result < 2 ^ 8 }
{
    first | second | third
}

// The samples that aren't in a mask.
#[inline(always)]
fn others(mask: u32) -> u32
    ensures { result ≡ 4294967295 - mask }
{
    !mask
}

impl SmallEdges {
    ghost use Rattle.edge_lanes.specs.Inside.{inside_small, slopes, small_lines};

    // The edges between vertices at these coordinates.
    #[inline(always)]
    fn between(x: [i32; 3], y: [i32; 3], row: i32x4, column: i32x4) -> SmallEdges
        requires x { AreClose x }
        requires y { AreClose y }
        requires row { row ≡ steps_around x }
        requires column { column ≡ steps_back y }
        ensures { AreBetween (small_lines result) x y }
    {
        let right = pixel(x[0]);
        let below = pixel(y[0]);
        let there = values(row, column, past(middle(right), x), past(middle(below), y));
        let start = sixteenths(there, biases(row, column));
        from_lanes(right, below, start, column, row)
    }

    /// None where a side of the piece's box has 2^10 sixteenths of a pixel or more, or it lies far from the screen.
    #[inline(always)]
    pub fn of(tri: &ScreenTri) -> Option<SmallEdges>
        ensures { IfSome result (λ e. (u : Sub) → inside_small e u ≡ covered tri.now u) }
    {
        let x = tri.x();
        let y = tri.y();
        let row = steps_around(x);
        let column = steps_back(y);
        if is_little(x[0], y[0], row, column) {
            Some(SmallEdges::between(x, y, row, column))
        } else {
            None
        }
    }

    // The mask of a subtile that begins with these values.
    #[inline(always)]
    fn rows(&self, first: i16, second: i16, third: i16) -> u32
        requires first { Bounded (2 ^ 14) first }
        requires second { Bounded (2 ^ 14) second }
        requires third { Bounded (2 ^ 14) third }
        ensures { result ≡ mask_l (each_sample (inside_all (slopes self.now) first second third)) }
    {
        let a = self.first.outside(first);
        let b = self.second.outside(second);
        let c = self.third.outside(third);
        others(mask_of_rows(
            in_any(a.first, b.first, c.first),
            in_any(a.second, b.second, c.second),
            in_any(a.third, b.third, c.third),
            in_any(a.fourth, b.fourth, c.fourth),
        ))
    }

    // The values at the first sample of a subtile.
    #[inline(always)]
    fn starts(&self, sub: Sub) -> i32x4
        requires column { sub.column < 256 }
        requires row { sub.row < 512 }
        ensures value { AreStarts (small_lines self.now) sub result }
        ensures bounded { AreBounded (2 ^ 14) result }
    {
        let across = pixels_past(8 * u32::from(sub.column), self.right);
        let down = pixels_past(4 * u32::from(sub.row), self.below);
        held(moved(self.start, self.column, self.row, across, down))
    }

    /// The samples of a subtile that lie inside: bit 8r + c is column c of row r. Condition: the subtile lies within
    /// 2048 by 2048 pixels.
    #[inline(always)]
    pub fn mask(&self, sub: Sub) -> u32
        requires column { sub.column < 256 }
        requires row { sub.row < 512 }
        ensures { samples_of result ≡ inside_small self.now sub }
    {
        let starts = self.starts(sub).to_array();
        self.rows(short(starts[0]), short(starts[1]), short(starts[2]))
    }
}
