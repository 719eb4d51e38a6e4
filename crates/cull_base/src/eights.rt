//! The least and the greatest of eight numbers, by pairs.
ghost use Rattle.std.specs.Prelude.{◌≡◌, ℕ, ◌<◌, ◌≤◌, min, max, slice_index_or};
ghost use Rattle.std.specs.Simd.Lanes.{zip2};

use std::simd::prelude::*;

// The lesser of the two numbers at each place.
#[inline(always)]
fn least_of_pairs(a: [u32; 4], b: [u32; 4]) -> [u32; 4]
    ensures { result ≡ zip2 min a b }
{
    u32x4::from_array(a)
        .simd_min(u32x4::from_array(b))
        .to_array()
}

// The greater of the two numbers at each place.
#[inline(always)]
fn greatest_of_pairs(a: [u32; 4], b: [u32; 4]) -> [u32; 4]
    ensures { result ≡ zip2 max a b }
{
    u32x4::from_array(a)
        .simd_max(u32x4::from_array(b))
        .to_array()
}

// The least of four numbers.
#[inline(always)]
fn least_of_four(numbers: [u32; 4]) -> u32
    ensures { (j : ℕ) → j < 4 → result ≤ slice_index_or numbers j 0 }
{
    let [a, b, c, d] = numbers;
    let [least, other, ..] = least_of_pairs([a, b, c, d], [c, d, a, b]);
    least.min(other)
}

// The greatest of four numbers.
#[inline(always)]
fn greatest_of_four(numbers: [u32; 4]) -> u32
    ensures { (j : ℕ) → j < 4 → slice_index_or numbers j 0 ≤ result }
{
    let [a, b, c, d] = numbers;
    let [greatest, other, ..] = greatest_of_pairs([a, b, c, d], [c, d, a, b]);
    greatest.max(other)
}

/// A number that none of the eight is below: the least.
#[inline(always)]
pub fn least_of(numbers: [u32; 8]) -> u32
    ensures { (j : ℕ) → j < 8 → result ≤ slice_index_or numbers j 0 }
{
    let [a, b, c, d, e, f, g, h] = numbers;
    least_of_four(least_of_pairs([a, b, c, d], [e, f, g, h]))
}

/// A number that none of the eight is above: the greatest.
#[inline(always)]
pub fn greatest_of(numbers: [u32; 8]) -> u32
    ensures { (j : ℕ) → j < 8 → slice_index_or numbers j 0 ≤ result }
{
    let [a, b, c, d, e, f, g, h] = numbers;
    greatest_of_four(greatest_of_pairs([a, b, c, d], [e, f, g, h]))
}
