//! The least of eight columns.
ghost use Rattle.std.specs.Prelude.{◌≡◌, ℕ, ◌<◌, ◌≤◌, length, slice_index_or};

use std::simd::prelude::*;

/// A number that none of the eight is below: the least. Each step takes the lesser of a lane and of one 4, 2, then 1
/// further on, so the first lane ends with the least of all. Where a processor has one instruction for this,
/// LLVM finds it.
#[inline(always)]
pub fn least_column(numbers: u16x8) -> u32
    requires { length numbers ≡ 8 }
    ensures { (j : ℕ) → j < 8 → result ≤ slice_index_or numbers j 0 }
{
    let fours = numbers.simd_min(numbers.rotate_elements_left::<4>());
    let twos = fours.simd_min(fours.rotate_elements_left::<2>());
    let ones = twos.simd_min(twos.rotate_elements_left::<1>());
    let [least, ..] = ones.to_array();
    u32::from(least)
}
