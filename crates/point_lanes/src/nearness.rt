//! The nearness of eight vertices.
ghost use Rattle.std.specs.Prelude.{◌≡◌, ℕ, ◌+◌, ◌-◌, ◌*◌, ◌/◌, ◌<◌, ◌≤◌, ◌^◌, length, slice_index, slice_index_or};
ghost use Rattle.cull_base.specs.Grade.{top_of};
ghost use Rattle.point_lanes.specs.Nearness.{IsScale};

use crate::divisors::Divisors;
use crate::places::ones_from;
use cull_base::{Grade, Near};
use lane_numbers::mul_high;
use std::simd::prelude::*;

/// What is divided for nearness: the top of a grade times the near distance.
#[derive(Clone, Copy)]
pub struct NearnessScale {
    pub near: u16,
    pub grade: Grade,
    // their product
    pub number: u64,
    // 2^(right + 1) over 2^left times that, in 32 bits
    pub held: u32,
    // so far are the powers of divisors moved, which takes that away again
    pub right: u32,
    pub left: u32,
    ghost is_scale: { IsScale (top_of grade) near number held right left },
}

#[inline(always)]
fn narrow_scale(near: Near) -> NearnessScale
    ensures near { result.near ≡ near.distance }
    ensures grade { result.grade ≡ Grade.Narrow }
{
    let number = 65535 * u64::from(near.distance);
    NearnessScale {
        near: near.distance,
        grade: Grade::Narrow,
        number,
        held: (64 * number) as u32,
        right: 5,
        left: 0,
    }
}

// How far powers are moved to the right, by the binary digits of the near distance.
#[inline(always)]
fn right_by(digits: u32) -> u32
    ensures { result ≡ 7 - digits }
{
    if digits < 7 { 7 - digits } else { 0 }
}

// And to the left.
#[inline(always)]
fn left_by(digits: u32) -> u32
    ensures { result ≡ digits - 7 }
{
    if digits < 7 { 0 } else { digits - 7 }
}

#[inline(always)]
fn wide_scale(near: Near) -> NearnessScale
    ensures near { result.near ≡ near.distance }
    ensures grade { result.grade ≡ Grade.Wide }
{
    let number = 16777215 * u64::from(near.distance);
    let digits = 16 - near.distance.leading_zeros();
    let right = right_by(digits);
    let left = left_by(digits);
    let raised = number << (right + 1);
    let held = raised >> left;
    NearnessScale {
        near: near.distance,
        grade: Grade::Wide,
        number,
        held: held as u32,
        right,
        left,
    }
}

// The powers of divisors, moved.
#[inline(always)]
fn factors_of(powers: u32x8, right: u32, left: u32) -> u32x8
    requires right { right ≤ 7 }
    requires left { left ≤ 4 }
    requires fits { (j : ℕ) → j < 8 → slice_index_or powers j 0 / 2 ^ right * 2 ^ left < 2 ^ 32 }
    ensures value { (j : ℕ) → j < 8
        → slice_index_or result j 0 ≡ slice_index_or powers j 0 / 2 ^ right * 2 ^ left }
    ensures eight { length result ≡ 8 }
{
    let halved = powers >> u32x8::splat(right);
    halved << u32x8::splat(left)
}

// A number's quotients by eight divisors: exact or one too small.
#[inline(always)]
fn guesses_of(held: u32, reciprocals: u32x8, factors: u32x8) -> u32x8
    ensures value { (j : ℕ) → j < 8 → slice_index_or result j 0
        ≡ held * slice_index_or reciprocals j 0 / 2 ^ 32 * slice_index_or factors j 0 / 2 ^ 32 }
    ensures eight { length result ≡ 8 }
{
    let ratios = mul_high(u32x8::splat(held), reciprocals);
    mul_high(ratios, factors)
}

// The quotients. The products may wrap, what they leave of the number doesn't.
#[inline(always)]
fn quotients(number: u64, divisors: u32x8, guesses: u32x8) -> [u32; 8]
    requires divisors { (j : ℕ) → j < 8 → slice_index_or divisors j 0 ≤ 2 ^ 24 }
    requires low { (j : ℕ) → j < 8 → slice_index_or guesses j 0 * slice_index_or divisors j 0 ≤ number }
    requires high { (j : ℕ) → j < 8 → number
        < slice_index_or guesses j 0 * slice_index_or divisors j 0 + 2 * slice_index_or divisors j 0 }
    requires small { (j : ℕ) → j < 8 → slice_index_or guesses j 0 < 2 ^ 31 }
    ensures { (j : ℕ) → j < 8 → slice_index result j ≡ number / slice_index_or divisors j 0 }
{
    let number = (number % 0x1_0000_0000) as u32;
    let rests = u32x8::splat(number) - guesses * divisors;
    let ones = ones_from(divisors, rests);
    guesses.strict_add(ones).to_array()
}

impl NearnessScale {
    pub fn of(near: Near, grade: Grade) -> NearnessScale
        ensures near { result.near ≡ near.distance }
        ensures grade { result.grade ≡ grade }
    {
        match grade {
            Grade::Narrow => narrow_scale(near),
            Grade::Wide => wide_scale(near),
        }
    }

    /// The nearness of eight vertices by their w, rounded down. Condition: none lies before the near distance.
    #[inline(always)]
    pub fn nearness(&self, w: &Divisors) -> [u32; 8]
        requires { (j : ℕ) → j < 8 → self.now.near ≤ slice_index_or w.now.numbers j 0 }
        ensures { (j : ℕ) → j < 8 → slice_index result j
            ≡ top_of self.now.grade * self.now.near / slice_index_or w.now.numbers j 0 }
    {
        let factors = factors_of(w.powers, self.right, self.left);
        let guesses = guesses_of(self.held, w.reciprocals, factors);
        quotients(self.number, w.numbers, guesses)
    }
}
