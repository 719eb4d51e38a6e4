//! What a piece brings to the eight subtiles of a tile.
ghost use Rattle.std.specs.Prelude.{◌≡◌, ℕ, ◌<◌, ◌≤◌, ◌^◌, max, replicate, slice_index_or};
ghost use Rattle.std.specs.Int.{bit_at};
ghost use Rattle.std.specs.Simd.Lanes.{zip2};
ghost use Rattle.cull_base.specs.declared.nearness.TheConstants.{HELD_TOP};
ghost use Rattle.masked_update.specs.Lanes.{IsMergeable};

use std::simd::prelude::*;

/// A bound and a mask for each subtile. One whose mask is empty gets nothing.
#[derive(Clone, Copy)]
pub struct Coverage {
    pub lows: [u32; 8],
    pub masks: [u32; 8],
}

// Eight numbers, each no less than one.
#[inline(always)]
fn no_less(numbers: [u32; 8], least: u32) -> [u32; 8]
    ensures { result ≡ zip2 max numbers (replicate 8 least) }
{
    u32x8::from_array(numbers)
        .simd_max(u32x8::splat(least))
        .to_array()
}

/// The masks of the subtiles of the bits. The others are empty. Condition: bits are 8.
#[inline(always)]
pub(crate) fn masks_among(masks: [u32; 8], bits: u32) -> [u32; 8]
    requires { bits < 2 ^ 8 }
    ensures inside { (j : ℕ) → j < 8 → bit_at bits j ≡ 1 → slice_index_or result j 0
        ≡ slice_index_or masks j 0 }
    ensures others { (j : ℕ) → j < 8 → bit_at bits j ≡ 0 → slice_index_or result j 0 ≡ 0 }
{
    if bits == 255 {
        return masks;
    }
    let none = u32x8::splat(0);
    let set = u32x8::splat(bits) & u32x8::from_array([1, 2, 4, 8, 16, 32, 64, 128]);
    set.simd_eq(none)
        .select(none, u32x8::from_array(masks))
        .to_array()
}

impl Coverage {
    ghost use Rattle.masked_update.specs.Coverage.{IsRaised};

    /// The same masks, with bounds that are no less than a nearness. Conditions: they are within the top that subtiles
    /// hold, and so is the nearness.
    #[inline(always)]
    pub fn raised(self, nearness: u32) -> Coverage
        requires mergeable { IsMergeable self }
        requires nearness { nearness ≤ HELD_TOP }
        ensures { IsRaised nearness self result }
    {
        let Coverage { lows, masks } = self;
        let lows = no_less(lows, nearness);
        Coverage { lows, masks }
    }
}
