//! The places of eight vertices along an axis of the screen.
ghost use Rattle.std.specs.Prelude.{◌≡◌, ℕ, ℤ, pos, ◌+◌, ◌-◌, ◌*◌, ◌/◌, ◌%◌, ◌<◌, ◌≤◌, ◌^◌, ◌-ℤ◌, cond, nat_le, length};
ghost use Rattle.std.specs.Prelude.{slice_index, slice_index_or};
ghost use Rattle.std.specs.Int.{cast_signed, w32};
ghost use Rattle.point_lanes.specs.Places.{place_of};

use crate::divisors::Divisors;
use lane_numbers::mul_high;
use std::simd::prelude::*;

// Offsets over their divisors, in parts of 2^-24: never too great, and hardly too small.
#[inline(always)]
fn ratios_of(offsets: u32x8, divisors: &Divisors) -> u32x8
    requires { (j : ℕ) → j < 8 → slice_index_or offsets j 0 < 2 ^ 7 * slice_index_or divisors.now.numbers j 0 }
    ensures value { (j : ℕ) → j < 8 → slice_index_or result j 0 ≡ slice_index_or offsets j 0
        * (slice_index_or divisors.now.powers j 0 / 2 ^ 7) * slice_index_or divisors.now.reciprocals j 0 / 2 ^ 32 }
    ensures eight { length result ≡ 8 }
{
    let parts = divisors.powers >> u32x8::splat(7);
    let scaled = offsets.strict_mul(parts);
    mul_high(scaled, divisors.reciprocals)
}

// So many eighths of a pixel times eight ratios, rounded down.
#[inline(always)]
fn guesses_of(pixels: u16, ratios: u32x8) -> u32x8
    requires { pixels ≤ 2 ^ 11 }
    ensures value { (j : ℕ) → j < 8
        → slice_index_or result j 0 ≡ slice_index_or ratios j 0 * (2 ^ 20 * pixels) / 2 ^ 32 / 2 ^ 9 }
    ensures eight { length result ≡ 8 }
{
    let scale = 0x10_0000 * u32::from(pixels);
    mul_high(ratios, u32x8::splat(scale)) >> u32x8::splat(9)
}

// What guesses leave of the numerators of places. The products may wrap, what they leave doesn't.
#[inline(always)]
fn rests_of(pixels: u16, offsets: u32x8, numbers: u32x8, guesses: u32x8) -> u32x8
    requires pixels { pixels ≤ 2 ^ 11 }
    requires numbers { (j : ℕ) → j < 8 → slice_index_or numbers j 0 ≤ 2 ^ 24 }
    requires low { (j : ℕ) → j < 8 → 2 * (slice_index_or guesses j 0 * slice_index_or numbers j 0)
        ≤ 16 * pixels * slice_index_or offsets j 0 + slice_index_or numbers j 0 }
    requires high { (j : ℕ) → j < 8 → 16 * pixels * slice_index_or offsets j 0 + slice_index_or numbers j 0
        < 2 * (slice_index_or guesses j 0 * slice_index_or numbers j 0) + 2 ^ 32 }
    ensures value { (j : ℕ) → j < 8 → slice_index_or result j 0
        ≡ (16 * pixels * slice_index_or offsets j 0 + slice_index_or numbers j 0)
        - 2 * (slice_index_or guesses j 0 * slice_index_or numbers j 0) }
    ensures eight { length result ≡ 8 }
{
    let scale = 16 * u32::from(pixels);
    offsets * u32x8::splat(scale) + numbers - guesses * (numbers + numbers)
}

/// 1 where a rest is no less than its divisor, else 0.
#[inline(always)]
pub(crate) fn ones_from(divisors: u32x8, rests: u32x8) -> u32x8
    ensures value { (j : ℕ) → j < 8 → slice_index_or result j 0
        ≡ cond (nat_le (slice_index_or divisors j 0) (slice_index_or rests j 0)) 1 0 }
    ensures eight { length result ≡ 8 }
{
    rests
        .simd_ge(divisors)
        .select(u32x8::splat(1), u32x8::splat(0))
}

// The guesses, one greater where what is left is no less than twice the divisor.
#[inline(always)]
fn rounded(guesses: u32x8, rests: u32x8, numbers: u32x8) -> u32x8
    requires guesses { (j : ℕ) → j < 8 → slice_index_or guesses j 0 < 2 ^ 31 }
    requires numbers { (j : ℕ) → j < 8 → slice_index_or numbers j 0 ≤ 2 ^ 24 }
    ensures value { (j : ℕ) → j < 8 → slice_index_or result j 0 ≡ slice_index_or guesses j 0
        + cond (nat_le (2 * slice_index_or numbers j 0) (slice_index_or rests j 0)) 1 0 }
    ensures eight { length result ≡ 8 }
{
    let divisors = numbers.strict_add(numbers);
    guesses.strict_add(ones_from(divisors, rests))
}

// Numbers less what 63 halves of a screen measure.
#[inline(always)]
fn moved(pixels: u16, numbers: u32x8) -> [u32; 8]
    requires { pixels ≤ 2 ^ 11 }
    ensures { (j : ℕ) → j < 8
        → slice_index result j ≡ (slice_index_or numbers j 0 + (2 ^ 32 - 504 * pixels)) % 2 ^ 32 }
{
    let shift = 504 * u32::from(pixels);
    (numbers - u32x8::splat(shift)).to_array()
}

// The same with their signs.
#[inline(always)]
fn signed(numbers: [u32; 8]) -> [i32; 8]
    ensures { (j : ℕ) → j < 8 → slice_index_or result j (pos 0) ≡ cast_signed w32 (slice_index numbers j) }
{
    let [a, b, c, d, e, f, g, h] = numbers;
    [
        a.cast_signed(),
        b.cast_signed(),
        c.cast_signed(),
        d.cast_signed(),
        e.cast_signed(),
        f.cast_signed(),
        g.cast_signed(),
        h.cast_signed(),
    ]
}

impl Divisors {
    /// Where eight offsets stand along an axis of so many pixels, in sixteenths of a pixel: an offset of 63 times its
    /// divisor is at the first edge, of 65 times at the other. Conditions: at most 2048 pixels, and each offset is
    /// below 128 times its divisor.
    #[inline(always)]
    pub fn places(&self, pixels: u16, offsets: [u32; 8]) -> [i32; 8]
        requires pixels { pixels ≤ 2 ^ 11 }
        requires offsets { (j : ℕ) → j < 8
            → slice_index offsets j < 2 ^ 7 * slice_index_or self.now.numbers j 0 }
        ensures { (j : ℕ) → j < 8 → slice_index_or result j (pos 0)
            ≡ place_of pixels (slice_index offsets j) (slice_index_or self.now.numbers j 0) }
    {
        let lanes = u32x8::from_array(offsets);
        let guesses = guesses_of(pixels, ratios_of(lanes, self));
        let rests = rests_of(pixels, lanes, self.numbers, guesses);
        signed(moved(pixels, rounded(guesses, rests, self.numbers)))
    }
}
