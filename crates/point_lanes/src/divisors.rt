//! The numbers by which the coordinates of eight vertices are divided.
ghost use Rattle.std.specs.Prelude.{◌≡◌, ℕ, ◌-◌, ◌<◌, ◌≤◌, ◌^◌, length, slice_index, slice_index_or};
ghost use Rattle.point_lanes.specs.Divisors.{AreDivisors};

use lane_numbers::Reciprocals;
use std::simd::prelude::*;

/// Eight positive numbers of at most 2^24, and what their quotients are made of.
#[derive(Clone, Copy)]
pub struct Divisors {
    pub numbers: u32x8,
    // what each is multiplied by so that it has 32 binary digits
    pub powers: u32x8,
    // 2^63 over the products: never too great, and off by a share of less than 2^-27
    pub reciprocals: u32x8,
    ghost are_divisors: { AreDivisors numbers powers reciprocals },
}

/// A reciprocal's error is less than this either way.
const ERROR: u32 = 8;

// Each reciprocal less its error.
#[inline(always)]
fn lowered(reciprocals: u32x8) -> u32x8
    requires { (j : ℕ) → j < 8 → 8 ≤ slice_index_or reciprocals j 0 }
    ensures value { (j : ℕ) → j < 8 → slice_index_or result j 0 ≡ slice_index_or reciprocals j 0 - 8 }
    ensures eight { length result ≡ 8 }
{
    reciprocals.strict_sub(u32x8::splat(ERROR))
}

impl Divisors {
    /// Condition: the numbers are 1 to 2^24.
    #[inline(always)]
    pub fn of(numbers: [u32; 8]) -> Divisors
        requires least { (j : ℕ) → j < 8 → 1 ≤ slice_index numbers j }
        requires most { (j : ℕ) → j < 8 → slice_index numbers j ≤ 2 ^ 24 }
        ensures { result.numbers ≡ numbers }
    {
        let found = Reciprocals::of(numbers);
        Divisors {
            numbers: u32x8::from_array(numbers),
            powers: found.powers,
            reciprocals: lowered(found.reciprocals),
        }
    }
}
