//! A row of a camera, for eight vertices at once.
ghost use Rattle.std.specs.Prelude.{◌≡◌, ℕ, ℤ, pos, ◌+◌, ◌*◌, ◌<◌, ◌≤◌, ◌^◌, ◌+ℤ◌, ◌*ℤ◌, IfSome, length, slice_index_or};
ghost use Rattle.std.specs.Int.RustNames.{unsigned_abs};
ghost use Rattle.cull_base.specs.Bounds.{Bounded};
ghost use Rattle.point_lanes.specs.Rows.{AreBounded, coordinate_by};

use lane_numbers::high_halves;
use std::simd::prelude::*;

/// A row of a camera with small factors: three in parts of 65536, and then an offset.
#[derive(Clone, Copy)]
pub struct SmallRow {
    pub a: i32,
    pub b: i32,
    pub c: i32,
    pub offset: i32,
    ghost small: { unsigned_abs a + unsigned_abs b + unsigned_abs c < 2 ^ 22 },
    ghost near: { Bounded (2 ^ 24) offset },
}

/// The sizes of a row's factors sum to less than this.
const SMALL: u32 = 0x40_0000;

// Eight numbers, each so many times.
#[inline(always)]
fn times(factor: i32, numbers: [i32; 8]) -> [i64; 8]
    requires factor { Bounded (2 ^ 22) factor }
    requires numbers { AreBounded (2 ^ 24) numbers }
    ensures { (j : ℕ) → j < 8
        → slice_index_or result j (pos 0) ≡ factor *ℤ slice_index_or numbers j (pos 0) }
{
    let factors = i64x8::splat(i64::from(factor));
    let lanes = i32x8::from_array(numbers).cast::<i64>();
    factors.strict_mul(lanes).to_array()
}

// Sums of three, in parts of 2^-32 in place of 2^-16.
#[inline(always)]
fn sums_of(a: [i64; 8], b: [i64; 8], c: [i64; 8]) -> [i64; 8]
    requires a { AreBounded (2 ^ 46) a }
    requires b { AreBounded (2 ^ 46) b }
    requires c { AreBounded (2 ^ 46) c }
    requires sums { (j : ℕ) → j < 8 → Bounded (2 ^ 46) ((slice_index_or a j (pos 0)
        +ℤ slice_index_or b j (pos 0)) +ℤ slice_index_or c j (pos 0)) }
    ensures { (j : ℕ) → j < 8 → slice_index_or result j (pos 0) ≡ ((slice_index_or a j (pos 0)
        +ℤ slice_index_or b j (pos 0)) +ℤ slice_index_or c j (pos 0)) *ℤ pos 65536 }
{
    let two = i64x8::from_array(a).strict_add(i64x8::from_array(b));
    let sums = two.strict_add(i64x8::from_array(c));
    sums.strict_mul(i64x8::splat(65536)).to_array()
}

// Eight numbers, each so much greater.
#[inline(always)]
fn moved(numbers: i32x8, by: i32) -> [i32; 8]
    requires eight { length numbers ≡ 8 }
    requires numbers { AreBounded (2 ^ 30) numbers }
    requires by { Bounded (2 ^ 24) by }
    ensures { (j : ℕ) → j < 8 → slice_index_or result j (pos 0) ≡ slice_index_or numbers j (pos 0) +ℤ by }
{
    numbers.strict_add(i32x8::splat(by)).to_array()
}

impl SmallRow {
    /// None where the sizes of the factors sum to 2^22 or more. Condition: the numbers are at most 2^24 away from 0.
    pub fn of(a: i32, b: i32, c: i32, offset: i32) -> Option<SmallRow>
        requires a { Bounded (2 ^ 24) a }
        requires b { Bounded (2 ^ 24) b }
        requires c { Bounded (2 ^ 24) c }
        requires offset { Bounded (2 ^ 24) offset }
        ensures a { IfSome result (λ r. r.a ≡ a) }
        ensures b { IfSome result (λ r. r.b ≡ b) }
        ensures c { IfSome result (λ r. r.c ≡ c) }
        ensures offset { IfSome result (λ r. r.offset ≡ offset) }
    {
        let size = a.unsigned_abs() + b.unsigned_abs() + c.unsigned_abs();
        if size < SMALL {
            Some(SmallRow { a, b, c, offset })
        } else {
            None
        }
    }

    /// The coordinates that the row gives of eight vertices, each a floor and then the offset. Condition: the vertices'
    /// numbers are at most 2^24 away from 0.
    #[inline(always)]
    pub fn coordinates(&self, x: [i32; 8], y: [i32; 8], z: [i32; 8]) -> [i32; 8]
        requires x { AreBounded (2 ^ 24) x }
        requires y { AreBounded (2 ^ 24) y }
        requires z { AreBounded (2 ^ 24) z }
        ensures { (j : ℕ) → j < 8 → slice_index_or result j (pos 0)
            ≡ coordinate_by self.now.a self.now.b self.now.c self.now.offset
            (slice_index_or x j (pos 0)) (slice_index_or y j (pos 0)) (slice_index_or z j (pos 0)) }
    {
        let across = times(self.a, x);
        let down = times(self.b, y);
        let away = times(self.c, z);
        moved(high_halves(sums_of(across, down, away)), self.offset)
    }
}
