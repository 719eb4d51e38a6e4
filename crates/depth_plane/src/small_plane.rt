//! The plane of a piece of a few pixels, which is divided only in the subtiles that the piece covers.
ghost use Rattle.std.specs.Prelude.{◌≡◌, ℕ, ℤ, pos, ◌<◌, ◌≤◌, ◌^◌, ◌+◌, ◌+ℤ◌, ◌*ℤ◌, IfSome};
ghost use Rattle.cull_base.specs.Bounds.{Bounded};
ghost use Rattle.cull_base.specs.Piece.{Piece, least_of, sample, each_sample};
ghost use Rattle.cull_base.specs.Depth.{cut_to_range, floor_of, least_nearness, low_of};
ghost use Rattle.cull_base.specs.declared.nearness.TheConstants.{HELD_TOP};
ghost use Rattle.depth_plane.specs.Plane.{low_from, numerator_at, plane_of};
ghost use Rattle.std.specs.Int.{int_max};

use crate::corner::{narrow_first, narrow_numerator};
use crate::vertices::Vertices;
use cull_base::{HELD_TOP, ScreenTri, Sub};
use std::marker::Model;

/// An area is below this.
const GREATEST: u64 = 0x8000_0000;

/// A plane as `Plane`, whose numerators over the screen fit 64 bits.
#[derive(Drop)]
pub struct SmallPlane {
    across: i64,
    down: i64,
    level: i128,
    // the least numerator over the first subtile
    first: i64,
    area: u64,
}

impl Model for SmallPlane {
    ghost use Rattle.std.specs.Prelude.{pos, ◌<◌, ◌^◌};
    ghost use Rattle.depth_plane.specs.Plane.{Coefficients, coefficients, IsPlane, IsNarrow};

    ghost Value = { Coefficients };

    ghost view = { λ p. coefficients p.across p.down p.level (pos p.area) };

    ghost invariant = { λ p.
        let c = coefficients p.across p.down p.level (pos p.area) in
        IsPlane c × (IsNarrow c p.first × (p.area < 2 ^ 31)) };
}

// What a numerator rises above a nearness, in parts of an area.
#[inline(always)]
fn rise_above(nearness: u32, numerator: i64, area: u64) -> i64
    requires nearness { nearness ≤ HELD_TOP }
    requires numerator { Bounded (2 ^ 62 + 2 ^ 61 + 2 ^ 54) numerator }
    requires small { area < 2 ^ 31 }
    ensures { numerator ≡ (pos nearness *ℤ pos area) +ℤ result }
{
    numerator - i64::from(nearness) * area as i64
}

// The floor of a numerator over an area, no less than a nearness, cut to the range. Where it rises above that by less
// than the area, nothing is divided; and where it does by more, the quotient is mostly one of 32 bits.
#[inline(always)]
fn raised_floor(nearness: u32, numerator: i64, area: u64) -> u32
    requires nearness { nearness ≤ HELD_TOP }
    requires numerator { Bounded (2 ^ 62 + 2 ^ 61 + 2 ^ 54) numerator }
    requires positive { 0 < area }
    requires small { area < 2 ^ 31 }
    ensures value { result ≡ cut_to_range HELD_TOP (int_max (pos nearness) (floor_of numerator (pos area))) }
    ensures within { result ≤ HELD_TOP }
{
    let rise = rise_above(nearness, numerator, area);
    if rise < area as i64 {
        nearness
    } else {
        (u64::from(nearness) + rise as u64 / area).min(u64::from(HELD_TOP)) as u32
    }
}

impl SmallPlane {
    /// The piece's plane. None where a numerator or the area may be too great.
    #[inline(always)]
    pub fn of(tri: &ScreenTri) -> Option<SmallPlane>
        ensures { IfSome result (λ p. p ≡ plane_of tri.now) }
    {
        let vertices = Vertices::of(tri);
        let across = vertices.across();
        let down = vertices.down();
        let area = vertices.area();
        let level = vertices.level(across, down, area);
        let first = narrow_first(across, down, level)?;
        let area = area.unsigned_abs();
        if area >= GREATEST {
            return None;
        }
        Some(SmallPlane {
            across,
            down,
            level,
            first,
            area,
        })
    }

    // The least numerator over the 32 samples of a subtile.
    #[inline(always)]
    fn least(&self, sub: Sub) -> i64
        requires column { sub.column < 256 }
        requires row { sub.row < 512 }
        ensures value { result ≡ least_of (each_sample (λ k. numerator_at self.now (sample sub k))) }
        ensures bounded { Bounded (2 ^ 62 + 2 ^ 61 + 2 ^ 54) result }
    {
        let right = 128 * u32::from(sub.column);
        let below = 64 * u32::from(sub.row);
        narrow_numerator(self.across, self.down, self.first, right, below)
    }

    /// The low bound of a subtile, for a piece whose least nearness is this. Condition: the subtile lies within 2048 by
    /// 2048 pixels.
    #[inline(always)]
    pub fn bound(&self, sub: Sub, nearness: u32) -> u32
        requires column { sub.column < 256 }
        requires row { sub.row < 512 }
        requires nearness { nearness ≤ HELD_TOP }
        ensures value { result ≡ low_from self.now nearness sub }
        ensures within { result ≤ HELD_TOP }
        ensures low { (x : Piece) → self.now ≡ plane_of x → nearness ≡ least_nearness x → result ≡ low_of x sub }
    {
        raised_floor(nearness, self.least(sub), self.area)
    }
}
