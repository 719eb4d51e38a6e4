//! The reciprocals of eight numbers.
ghost use Rattle.std.specs.Prelude.{◌≡◌, ℕ, ◌+◌, ◌-◌, ◌*◌, ◌^◌, ◌<◌, ◌≤◌, length, slice_index, slice_index_or};
ghost use Rattle.std.specs.Int.{leading_zeros, w32};
ghost use Rattle.lane_numbers.specs.Reciprocals.{IsNear, IsReciprocal};

use crate::newton::nearer;
use crate::table::first_guess;
use std::simd::prelude::*;

/// Eight positive numbers, each doubled until it has 32 binary digits, and their reciprocals.
#[derive(Clone, Copy)]
pub struct Reciprocals {
    /// What each is multiplied by: 2 to its leading zeros.
    pub powers: u32x8,
    /// The products.
    pub normalized: u32x8,
    /// 2^63 over these: off by a share of less than 2^-29.
    pub reciprocals: u32x8,
}

// 2 to a number's leading zeros.
#[inline(always)]
fn power_of(number: u32) -> u32
    requires { 0 < number }
    ensures { result ≡ 2 ^ leading_zeros w32 number }
{
    1 << number.leading_zeros()
}

// A number without its leading zeros.
#[inline(always)]
fn normalized(number: u32) -> u32
    requires { 0 < number }
    ensures value { result ≡ number * 2 ^ leading_zeros w32 number }
    ensures least { 2 ^ 31 ≤ result }
{
    number << number.leading_zeros()
}

// Near 2^63 over that.
#[inline(always)]
fn guess_of(number: u32) -> u32
    requires { 0 < number }
    ensures near { IsNear (2 ^ 54 + 2 ^ 32) (number * 2 ^ leading_zeros w32 number) result }
    ensures within { result ≤ 2 ^ 32 - 2 ^ 22 }
{
    first_guess(normalized(number))
}

#[inline(always)]
fn powers_of(numbers: [u32; 8]) -> [u32; 8]
    requires { (j : ℕ) → j < 8 → 0 < slice_index numbers j }
    ensures { (j : ℕ) → j < 8 → slice_index result j ≡ 2 ^ leading_zeros w32 (slice_index numbers j) }
{
    let [a, b, c, d, e, f, g, h] = numbers;
    [
        power_of(a),
        power_of(b),
        power_of(c),
        power_of(d),
        power_of(e),
        power_of(f),
        power_of(g),
        power_of(h),
    ]
}

#[inline(always)]
fn guesses_of(numbers: [u32; 8]) -> [u32; 8]
    requires { (j : ℕ) → j < 8 → 0 < slice_index numbers j }
    ensures near { (j : ℕ) → j < 8 → let d = slice_index numbers j in
        IsNear (2 ^ 54 + 2 ^ 32) (d * 2 ^ leading_zeros w32 d) (slice_index result j) }
    ensures within { (j : ℕ) → j < 8 → slice_index result j ≤ 2 ^ 32 - 2 ^ 22 }
{
    let [a, b, c, d, e, f, g, h] = numbers;
    [
        guess_of(a),
        guess_of(b),
        guess_of(c),
        guess_of(d),
        guess_of(e),
        guess_of(f),
        guess_of(g),
        guess_of(h),
    ]
}

// The products of eight numbers and the powers of theirs.
#[inline(always)]
fn all_normalized(numbers: [u32; 8], powers: [u32; 8]) -> u32x8
    requires numbers { (j : ℕ) → j < 8 → 0 < slice_index numbers j }
    requires powers { (j : ℕ) → j < 8 → slice_index powers j ≡ 2 ^ leading_zeros w32 (slice_index numbers j) }
    ensures value { (j : ℕ) → j < 8 → let d = slice_index numbers j in
        slice_index_or result j 0 ≡ d * 2 ^ leading_zeros w32 d }
    ensures eight { length result ≡ 8 }
{
    u32x8::from_array(numbers).strict_mul(u32x8::from_array(powers))
}

impl Reciprocals {
    /// By a look-up and two steps of Newton's method. Condition: the numbers are positive.
    #[inline(always)]
    pub fn of(numbers: [u32; 8]) -> Reciprocals
        requires { (j : ℕ) → j < 8 → 0 < slice_index numbers j }
        ensures lanes { (j : ℕ) → j < 8 → IsReciprocal (slice_index numbers j)
            (slice_index_or result.powers j 0) (slice_index_or result.normalized j 0)
            (slice_index_or result.reciprocals j 0) }
        ensures powers { length result.powers ≡ 8 }
        ensures normalized { length result.normalized ≡ 8 }
        ensures reciprocals { length result.reciprocals ≡ 8 }
    {
        let powers = powers_of(numbers);
        let normalized = all_normalized(numbers, powers);
        let guesses = u32x8::from_array(guesses_of(numbers));
        let once = nearer(normalized, guesses);
        Reciprocals {
            powers: u32x8::from_array(powers),
            normalized,
            reciprocals: nearer(normalized, once),
        }
    }
}
