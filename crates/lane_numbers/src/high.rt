//! The upper halves of eight numbers, and of eight products.
ghost use Rattle.std.specs.Prelude.{◌≡◌, pos, ◌*◌, ◌/◌, ◌^◌, ◌<◌, map, length};
ghost use Rattle.std.specs.Int.{int_div_euclid};
ghost use Rattle.std.specs.Simd.Lanes.{zip2, Each1};

use std::simd::prelude::*;

// The same numbers in lanes of 64 bits.
#[inline(always)]
fn widened(numbers: u32x8) -> u64x8
    ensures value { result ≡ numbers }
    ensures small { Each1 (λ n. n < 2 ^ 32) result }
{
    numbers.cast::<u64>()
}

// What is left of eight numbers without their lower 32 bits.
#[inline(always)]
fn upper_halves(numbers: u64x8) -> u32x8
    ensures value { result ≡ map (λ n. n / 2 ^ 32) numbers }
    ensures eight { length result ≡ 8 }
{
    u32x16::from_le_bytes(numbers.to_le_bytes()).swizzle([1, 3, 5, 7, 9, 11, 13, 15])
}

/// Each number times that in the same lane, over 2^32, rounded down.
#[inline(always)]
pub fn mul_high(a: u32x8, b: u32x8) -> u32x8
    ensures value { result ≡ zip2 (λ x y. x * y / 2 ^ 32) a b }
    ensures eight { length result ≡ 8 }
{
    let products = widened(a).strict_mul(widened(b));
    upper_halves(products)
}

/// Each number over 2^32, rounded down.
#[inline(always)]
pub fn high_halves(numbers: [i64; 8]) -> i32x8
    ensures value { result ≡ map (λ n. int_div_euclid n (pos (2 ^ 32))) numbers }
    ensures eight { length result ≡ 8 }
{
    // one by one, since so a proof knows that each fits its lane
    let [a, b, c, d, e, f, g, h] = numbers;
    i32x16::from_le_bytes(i64x8::from_array([a, b, c, d, e, f, g, h]).to_le_bytes()).swizzle([
        1, 3, 5, 7, 9, 11, 13, 15,
    ])
}
