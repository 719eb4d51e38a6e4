//! Where an edge crosses the rows of samples: columns in fixed-point numbers, of 2^32 parts a pixel.
ghost use Rattle.std.specs.Prelude.{◌≡◌, ℕ, ℤ, pos, ◌^◌, ◌+◌, ◌*◌, ◌<◌, ◌+ℤ◌, ◌*ℤ◌};
ghost use Rattle.std.specs.Prelude.{replicate, slice_index, slice_index_or};
ghost use Rattle.std.specs.Int.{int_div_euclid};
ghost use Rattle.cull_base.specs.Bounds.{Bounded};
ghost use Rattle.cull_base.specs.Depth.{floor_of};
ghost use Rattle.edge_lanes.specs.Between.{IsLimit, column_at, held_column};
ghost use Rattle.edge_lanes.specs.Lanes.{offsets_of};

use crate::reciprocal::Reciprocal;
use crate::spans::Spans;
use crate::turned::Turned;
use std::simd::prelude::*;

/// The parts of a pixel.
const PIXEL: i64 = 0x1_0000_0000;

/// The steps of 2048 rows, each rounded down, fall short by less than this in all. It moves no sample to the other
/// side: a crossing that isn't a whole column lies at least 2^12 parts before the next one.
const SHORTFALL: i64 = 2048;

/// An edge, by the column where it crosses each row of samples of a screen of 2048 by 2048 pixels.
#[derive(Clone, Copy)]
pub struct Crossing {
    // in the first row, and what a row adds, in parts of a pixel
    pub start: i64,
    pub step: i64,
    // what each of eight rows adds
    pub rows: i64x8,
    // 0 where the samples before the crossing are inside, 2048 where those from it on are
    pub limit: u16,
    // the same for each of eight rows
    pub limits: u16x8,
    ghost start_bounded: { Bounded (2 ^ 62 + 2 ^ 12) start },
    ghost step_bounded: { Bounded (2 ^ 50) step },
    ghost are_rows: { rows ≡ offsets_of step },
    ghost is_limit: { IsLimit limit },
    ghost are_limits: { limits ≡ replicate 8 limit },
}

// So many pixels over a size, in parts, rounded down. The sign is no branch around the division.
#[inline(always)]
fn parts(pixels: i64, size: &Reciprocal) -> i64
    requires { Bounded (2 ^ 30) pixels }
    ensures { result ≡ floor_of (pixels *ℤ pos (2 ^ 32)) (pos size.now.number) }
{
    let numerator = pixels * PIXEL;
    let distance = if numerator < 0 {
        -1 - numerator
    } else {
        numerator
    };
    let whole = size.quotient(distance as u64) as i64;
    if numerator < 0 { -1 - whole } else { whole }
}

/// The last column that 16 bits hold, far beyond any screen.
const LAST: i32 = 0xFFFF;

// The column that so many parts lie in; the first where they lie before it, and the last that is held where they lie
// past that.
#[inline(always)]
fn column_of(parts: i64) -> u16
    ensures { pos result ≡ held_column (int_div_euclid parts (pos (2 ^ 32))) }
{
    ((parts >> 32) as i32).max(0).min(LAST) as u16
}

// Of eight.
#[inline(always)]
fn columns_of(parts: [i64; 8]) -> [u16; 8]
    ensures { (r : ℕ) → r < 8 → pos (slice_index result r)
        ≡ held_column (int_div_euclid (slice_index_or parts r (pos 0)) (pos (2 ^ 32))) }
{
    let [a, b, c, d, e, f, g, h] = parts;
    [
        column_of(a),
        column_of(b),
        column_of(c),
        column_of(d),
        column_of(e),
        column_of(f),
        column_of(g),
        column_of(h),
    ]
}

impl Crossing {
    ghost use Rattle.edge_lanes.specs.Crossings.{IsNear, crossed_at, is_beside};
    ghost use Rattle.edge_lanes.specs.Spans.{in_span};

    /// The crossings of an edge. Conditions: it is near, and the reciprocal is that of its size.
    #[inline(always)]
    pub fn of(edge: &Turned, size: &Reciprocal) -> Crossing
        requires near { IsNear edge.now }
        requires size { pos size.now.number ≡ edge.now.size }
        ensures crossed { (y : ℕ) → y < 2 ^ 11 → crossed_at result y
            ≡ column_at edge.now.start edge.now.row edge.now.size y }
        ensures limit { result.limit ≡ edge.now.limit }
    {
        let step = parts(edge.row, size);
        Crossing {
            start: parts(edge.start, size) + SHORTFALL,
            step,
            rows: i64x8::from_array([
                0,
                step,
                2 * step,
                3 * step,
                4 * step,
                5 * step,
                6 * step,
                7 * step,
            ]),
            limit: edge.limit,
            limits: u16x8::splat(edge.limit),
        }
    }

    // What a crossing is at in the first of a row of tiles' eight rows, in parts.
    #[inline(always)]
    fn first_parts(&self, row: u32) -> i64
        requires { row < 256 }
        ensures value { result ≡ self.now.start +ℤ (self.now.step *ℤ pos (8 * row)) }
        ensures bounded { Bounded (2 ^ 62 + 2 ^ 61) result }
    {
        self.start + self.step * i64::from(8 * row)
    }

    // What it is at in each of the eight rows.
    #[inline(always)]
    fn parts_by_row(&self, row: u32) -> [i64; 8]
        requires { row < 256 }
        ensures { (r : ℕ) → r < 8 → slice_index_or result r (pos 0)
            ≡ self.now.start +ℤ (self.now.step *ℤ pos (8 * row + r)) }
    {
        i64x8::splat(self.first_parts(row))
            .strict_add(self.rows)
            .to_array()
    }

    // The columns where the edge crosses the eight rows of a row of tiles, as 16 bits hold them.
    #[inline(always)]
    fn columns(&self, row: u32) -> [u16; 8]
        requires { row < 256 }
        ensures { (r : ℕ) → r < 8 → pos (slice_index result r)
            ≡ held_column (crossed_at self.now (8 * row + r)) }
    {
        columns_of(self.parts_by_row(row))
    }

    /// The columns inside the edge in each of the eight rows of a row of tiles. Condition: the row is below 256.
    #[inline(always)]
    pub fn spans(&self, row: u32) -> Spans
        requires { row < 256 }
        ensures { (r x : ℕ) → r < 8 → x < 2 ^ 11
            → in_span result r x ≡ is_beside self.now x (8 * row + r) }
    {
        let crossed = u16x8::from_array(self.columns(row));
        Spans {
            first: crossed.simd_min(self.limits),
            end: crossed.simd_max(self.limits),
        }
    }
}
