//! Lines through two corners: their cross product.
ghost use Rattle.std.specs.Prelude.{◌≡◌, ℕ, ℤ, neg_ℤ, ◌+◌, ◌*◌, ◌^◌, ◌-ℤ◌, ◌*ℤ◌};
ghost use Rattle.cull_base.specs.Bounds.{Bounded};
ghost use Rattle.exact_clip.specs.Clip.{Clip};
ghost use Rattle.clip_lines.specs.Lines.{cross, StandsFor};
ghost use Rattle.clip_lines.specs.Parts.{of_corner, of_line, norm_of, IsSized, IsSumOf};

use crate::corner::Corner;
use cull_base::arithmetic::{minus, product};

/// The normal of the plane through the eye and two corners, in squares of their steps: each part of the exact one is at
/// most `off` away.
#[derive(Clone, Copy, Debug, PartialEq, Eq)]
pub struct Line {
    pub x: i64,
    pub y: i64,
    pub w: i64,
    pub off: u64,
}

// a d - b c
#[inline(always)]
fn cross_part(a: i64, b: i64, c: i64, d: i64) -> i64
    requires a { Bounded (2 ^ 30) a }
    requires b { Bounded (2 ^ 30) b }
    requires c { Bounded (2 ^ 30) c }
    requires d { Bounded (2 ^ 30) d }
    ensures value { result ≡ (a *ℤ d) -ℤ (b *ℤ c) }
    ensures bounded { Bounded (2 ^ 61) result }
{
    minus(product(a, d), product(b, c))
}

#[inline(always)]
fn opposite_part(part: i64) -> i64
    requires { Bounded (2 ^ 61) part }
    ensures value { result ≡ neg_ℤ part }
    ensures bounded { Bounded (2 ^ 61) result }
{
    -part
}

impl Line {
    /// From one corner to another. Condition: they are `Corner::of` points by one shift.
    #[inline(always)]
    pub fn through(p: &Corner, q: &Corner) -> Line
        requires p { IsSized (2 ^ 30) (of_corner p.now) }
        requires q { IsSized (2 ^ 30) (of_corner q.now) }
        ensures value { of_line result ≡ cross (of_corner p.now) (of_corner q.now) }
        ensures off { result.off ≡ (norm_of (of_corner p.now) + norm_of (of_corner q.now)) + 2 }
        ensures sized { IsSumOf 1 result }
        ensures stands { (scale : ℕ) (a b : Clip) → StandsFor scale 1 (of_corner p.now) a
            → StandsFor scale 1 (of_corner q.now) b
            → StandsFor (scale * scale) result.off (of_line result) (cross a b) }
    {
        Line {
            x: cross_part(p.y, p.w, q.y, q.w),
            y: cross_part(p.w, p.x, q.w, q.x),
            w: cross_part(p.x, p.y, q.x, q.y),
            off: p.norm() + q.norm() + 2,
        }
    }

    /// The same the other way round.
    #[inline(always)]
    pub fn opposite(&self) -> Line
        requires { IsSumOf 1 self.now }
        ensures sized { IsSumOf 1 result }
        ensures off { result.off ≡ self.now.off }
        ensures stands { (scale : ℕ) (a b : Clip) → StandsFor scale self.now.off (of_line self.now) (cross a b)
            → StandsFor scale result.off (of_line result) (cross b a) }
    {
        Line {
            x: opposite_part(self.x),
            y: opposite_part(self.y),
            w: opposite_part(self.w),
            off: self.off,
        }
    }
}
