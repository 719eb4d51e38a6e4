//! Newton's method for reciprocals, in eight lanes.
ghost use Rattle.std.specs.Prelude.{◌≡◌, ℕ, ◌+◌, ◌-◌, ◌*◌, ◌/◌, ◌^◌, ◌<◌, length, slice_index_or};
ghost use Rattle.lane_numbers.specs.Reciprocals.{CanStep, newton};

use crate::high::mul_high;
use std::simd::prelude::*;

// How far each number lies below 2^32.
#[inline(always)]
fn left_of(numbers: u32x8) -> u32x8
    requires { (j : ℕ) → j < 8 → 0 < slice_index_or numbers j 0 }
    ensures value { (j : ℕ) → j < 8 → slice_index_or result j 0 ≡ 2 ^ 32 - slice_index_or numbers j 0 }
    ensures eight { length result ≡ 8 }
{
    u32x8::splat(0) - numbers
}

// Each number twice.
#[inline(always)]
fn twice(numbers: u32x8) -> u32x8
    requires { (j : ℕ) → j < 8 → slice_index_or numbers j 0 < 2 ^ 31 }
    ensures value { (j : ℕ) → j < 8 → slice_index_or result j 0 ≡ 2 * slice_index_or numbers j 0 }
    ensures eight { length result ≡ 8 }
{
    numbers.strict_add(numbers)
}

/// A step in each lane, from a guess of 2^63 over its number. Condition: the guesses are good enough for one.
#[inline(always)]
pub(crate) fn nearer(numbers: u32x8, guesses: u32x8) -> u32x8
    requires numbers { length numbers ≡ 8 }
    requires guesses { length guesses ≡ 8 }
    requires good { (j : ℕ) → j < 8 → CanStep (slice_index_or numbers j 0) (slice_index_or guesses j 0) }
    ensures value { (j : ℕ) → j < 8
        → slice_index_or result j 0 ≡ newton (slice_index_or numbers j 0) (slice_index_or guesses j 0) }
    ensures eight { length result ≡ 8 }
{
    let products = mul_high(numbers, guesses);
    let rests = left_of(products);
    twice(mul_high(guesses, rests))
}
