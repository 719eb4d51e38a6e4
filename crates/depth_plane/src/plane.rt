//! The plane of a piece's depth.
ghost use Rattle.std.specs.Prelude.{◌≡◌, ℕ, ℤ, pos, max, true, ◌<◌, ◌≤◌, ◌^◌, ◌<ℤ◌, IsTrue, ◌↔◌, ◌+◌, ◌*◌, ◌/◌, ◌%◌, slice_index, IfSome};
ghost use Rattle.cull_base.specs.Piece.{least_of, IsPiece, Piece, Point, sample, each_sample};
ghost use Rattle.std.specs.Int.{int_max};
ghost use Rattle.cull_base.specs.Depth.{floor_of, least_nearness, greatest_nearness, numerator, denominator, low_of, high_of};
ghost use Rattle.cull_base.specs.Bounds.{Bounded};
ghost use Rattle.cull_base.specs.declared.nearness.TheConstants.{HELD_TOP};
ghost use Rattle.depth_plane.specs.Corner.{best_of};
ghost use Rattle.depth_plane.specs.Plane.{IsHighBound, IsLowBound, IsNarrow, IsNearer, TellsNearerPiece};
ghost use Rattle.depth_plane.specs.Plane.{low_from, numerator_at, plane_of, point_of, sub_in};

use crate::corner::{
    End, SPAN_ACROSS, SPAN_DOWN, narrow_first, narrow_numerator, numerator_at, place_along,
};
use crate::floor_lanes::{FloorLanes, lanes_along};
use crate::quotient::{ceiling, cut_to_range, is_greater, narrow_floor};
use crate::vertices::Vertices;
use cull_base::{Divisor, Sample, ScreenTri, Sub, Tile};
use std::array;
use std::marker::Model;
use std::simd::prelude::*;

/// The depth of a piece at (x, y), in sixteenths of a pixel: `(across * x + down * y + level) / area`.
#[derive(Drop)]
pub struct Plane {
    across: i64,
    down: i64,
    level: i128,
    // the least numerator over the first subtile, where numerators over the screen fit 64 bits
    first: Option<i64>,
    area: Divisor,
    // what it rises by from a tile's first subtile to each, over the area, if that is neither too great nor too steep
    lanes: Option<FloorLanes>,
}

impl Model for Plane {
    ghost use Rattle.std.specs.Prelude.{pos, IfSome};
    ghost use Rattle.depth_plane.specs.Plane.{Coefficients, coefficients, IsPlane, IsNarrow, HasLanes};

    ghost Value = { Coefficients };

    ghost view = { λ p. coefficients p.across p.down p.level (pos p.area) };

    ghost invariant = { λ p.
        let c = coefficients p.across p.down p.level (pos p.area) in
        IsPlane c × IfSome p.first (IsNarrow c) × IfSome p.lanes (HasLanes c) };
}

// Where the sample of a pixel stands, in sixteenths of a pixel.
#[inline(always)]
fn place(pixel: u16) -> u32
    ensures value { result ≡ 16 * pixel + 8 }
    ensures small { result < 2 ^ 21 }
{
    16 * u32::from(pixel) + 8
}

// Subtile j of a tile.
#[inline(always)]
fn subtile(tile: Tile, j: u32) -> Sub
    requires column { tile.column < 64 }
    requires row { tile.row < 256 }
    requires j { j < 8 }
    ensures value { result ≡ sub_in tile j }
    ensures column { result.column < 256 }
    ensures row { result.row < 512 }
{
    let j = j as u16;
    Sub {
        column: 4 * tile.column + j % 4,
        row: 2 * tile.row + j / 4,
    }
}

impl Plane {
    /// At each point the plane's fraction is the piece's depth.
    #[inline(always)]
    pub fn of(tri: &ScreenTri) -> Plane
        ensures value { result ≡ plane_of tri.now }
        ensures numerator { (p : Point) → numerator_at result p ≡ numerator tri.now p }
        ensures denominator { result.area ≡ denominator tri.now }
        ensures positive { pos 0 <ℤ result.area }
    {
        let vertices = Vertices::of(tri);
        let across = vertices.across();
        let down = vertices.down();
        let area = vertices.area();
        let level = vertices.level(across, down, area);
        let divisor = Divisor::of(area.unsigned_abs());
        Plane {
            across,
            down,
            level,
            first: narrow_first(across, down, level),
            area: divisor,
            lanes: lanes_along(divisor, across, down),
        }
    }

    /// The low bound of a subtile: nearness, from 0 to the top that pieces hold, that no covered sample is below.
    /// Conditions: the plane is the piece's, and the subtile lies within 2048 by 2048 pixels.
    #[inline(always)]
    pub fn low(&self, tri: &ScreenTri, sub: Sub) -> u32
        requires plane { self.now ≡ plane_of tri.now }
        requires column { sub.column < 256 }
        requires row { sub.row < 512 }
        ensures value { result ≡ low_of tri.now sub }
        ensures within { result ≤ HELD_TOP }
        ensures below { IsLowBound tri.now sub result }
    {
        self.low_above(tri.least_nearness(), sub)
    }

    // The same as `floors`, in lanes, where numerators over the screen fit 64 bits and the plane is neither too great
    // nor too steep.
    #[inline(always)]
    fn floors_in_lanes(&self, tile: Tile) -> Option<[u32; 8]>
        requires column { tile.column < 64 }
        requires row { tile.row < 256 }
        ensures { IfSome result (λ floors. (j : ℕ) → j < 8 → slice_index floors j
            ≡ low_from self.now 0 (sub_in tile j)) }
    {
        let first = self.first?;
        let lanes = self.lanes.as_ref()?;
        Some(lanes.floors(self.narrow_least(first, subtile(tile, 0))))
    }

    // The same, one after the other.
    #[inline(never)]
    fn floors_in_turn(&self, tile: Tile) -> [u32; 8]
        requires column { tile.column < 64 }
        requires row { tile.row < 256 }
        ensures { (j : ℕ) → j < 8 → slice_index result j ≡ low_from self.now 0 (sub_in tile j) }
    {
        array::from_fn(|j| self.low_above(0, subtile(tile, j as u32)))
    }

    // The same, read from where that call has written them: so floors in lanes needn't be written there too.
    #[inline(always)]
    fn floors_read(&self, tile: Tile) -> [u32; 8]
        requires column { tile.column < 64 }
        requires row { tile.row < 256 }
        ensures { (j : ℕ) → j < 8 → slice_index result j ≡ low_from self.now 0 (sub_in tile j) }
    {
        u32x8::from_array(self.floors_in_turn(tile)).to_array()
    }

    /// The floors of the least depths over a tile's eight subtiles, from 0 to the top that pieces hold. The greater of
    /// such a floor and the piece's least nearness is the low bound. Condition: the tile lies within 2048 by 2048 pixels.
    #[inline(always)]
    pub fn floors(&self, tile: Tile) -> [u32; 8]
        requires column { tile.column < 64 }
        requires row { tile.row < 256 }
        ensures value { (j : ℕ) → j < 8 → slice_index result j ≡ low_from self.now 0 (sub_in tile j) }
        ensures within { (j : ℕ) → j < 8 → slice_index result j ≤ HELD_TOP }
        ensures raised { (x : Piece) → self.now ≡ plane_of x → IsPiece x
            → (j : ℕ) → j < 8 → max (least_nearness x) (slice_index result j) ≡ low_of x (sub_in tile j) }
    {
        match self.floors_in_lanes(tile) {
            Some(floors) => floors,
            None => self.floors_read(tile),
        }
    }

    // The low bound of a subtile, for a piece whose least nearness is this.
    #[inline(always)]
    fn low_above(&self, nearness: u32, sub: Sub) -> u32
        requires column { sub.column < 256 }
        requires row { sub.row < 512 }
        ensures { result ≡ low_from self.now nearness sub }
    {
        match self.first {
            Some(first) => narrow_floor(self.narrow_least(first, sub), &self.area, nearness),
            None => self.wide_low(nearness, sub),
        }
    }

    // The same by 128 bits.
    #[inline(never)]
    fn wide_low(&self, nearness: u32, sub: Sub) -> u32
        requires column { sub.column < 256 }
        requires row { sub.row < 512 }
        ensures { result ≡ low_from self.now nearness sub }
    {
        cut_to_range(self.floor_from(nearness, self.outermost(sub, End::Least)))
    }

    /// The high bound of a subtile: nearness, from 0 to the top that pieces hold, that no touched sample is above.
    /// Conditions as for `low`.
    pub fn high(&self, tri: &ScreenTri, sub: Sub) -> u32
        requires plane { self.now ≡ plane_of tri.now }
        requires column { sub.column < 256 }
        requires row { sub.row < 512 }
        ensures value { result ≡ high_of tri.now sub }
        ensures within { result ≤ HELD_TOP }
        ensures above { IsHighBound tri.now sub result }
    {
        let nearness = i128::from(tri.greatest_nearness());
        cut_to_range(nearness.min(ceiling(self.outermost(sub, End::Greatest), &self.area)))
    }

    // The floor of a numerator over the area, and no less than a nearness: where the fraction is no greater than that,
    // nothing is divided.
    #[inline(always)]
    fn floor_from(&self, nearness: u32, numerator: i128) -> i128
        requires { Bounded (2 ^ 88) numerator }
        ensures { result ≡ int_max (pos nearness) (floor_of numerator self.now.area) }
    {
        let least = i128::from(nearness);
        if numerator <= least * i128::from(self.area.number()) {
            least
        } else {
            least.max(self.area.wide_floor(numerator))
        }
    }

    // The numerator at a sample.
    #[inline(always)]
    fn at(&self, sample: Sample) -> i128
        ensures value { result ≡ numerator_at self.now (point_of sample) }
        ensures bounded { Bounded (2 ^ 88) result }
    {
        numerator_at(
            self.across,
            self.down,
            self.level,
            place(sample.px),
            place(sample.py),
        )
    }

    // The least or the greatest numerator over the 32 samples of a subtile.
    #[inline(always)]
    fn outermost(&self, sub: Sub, end: End) -> i128
        requires column { sub.column < 256 }
        requires row { sub.row < 512 }
        ensures value { result ≡ best_of end (each_sample (λ k. numerator_at self.now (sample sub k))) }
        ensures bounded { Bounded (2 ^ 88) result }
    {
        let x = place_along(self.across, place(8 * sub.column), SPAN_ACROSS, end);
        let y = place_along(self.down, place(4 * sub.row), SPAN_DOWN, end);
        numerator_at(self.across, self.down, self.level, x, y)
    }

    // The least of a narrow plane: what it is at the first subtile, and what it rises by from there.
    #[inline(always)]
    fn narrow_least(&self, first: i64, sub: Sub) -> i64
        requires first { IsNarrow self.now first }
        requires column { sub.column < 256 }
        requires row { sub.row < 512 }
        ensures value { result ≡ least_of (each_sample (λ k. numerator_at self.now (sample sub k))) }
        ensures bounded { Bounded (2 ^ 62 + 2 ^ 61 + 2 ^ 54) result }
    {
        let right = 128 * u32::from(sub.column);
        let below = 64 * u32::from(sub.row);
        narrow_numerator(self.across, self.down, first, right, below)
    }

    /// Whether this depth at the sample is strictly greater than the other's.
    pub fn nearer(&self, other: &Plane, sample: Sample) -> bool
        ensures value { IsTrue result ↔ IsNearer self.now other.now (point_of sample) }
        ensures pieces { TellsNearerPiece self.now other.now (point_of sample) result }
    {
        is_greater(self.at(sample), &self.area, other.at(sample), &other.area)
    }
}
