//! Eight numbers over one size, rounded down at once.
ghost use Rattle.std.specs.Prelude.{◌≡◌, ℕ, ℤ, pos, ◌+◌, ◌-◌, ◌*◌, ◌/◌, ◌<◌, ◌≤◌, ◌^◌, ◌+ℤ◌, ◌-ℤ◌, ◌*ℤ◌, neg_ℤ, ◌≤ℤ◌};
ghost use Rattle.std.specs.Prelude.{min, nat_le, cond, length, map, slice_index, slice_index_or, IsTrue, IfSome};
ghost use Rattle.std.specs.Simd.Lanes.{zip2};
ghost use Rattle.cull_base.specs.Bounds.{Bounded};
ghost use Rattle.cull_base.specs.Depth.{cut_to_range, floor_of};
ghost use Rattle.cull_base.specs.declared.nearness.TheConstants.{HELD_TOP};
ghost use Rattle.depth_plane.specs.Floors.{AreFloors, number_at};

use cull_base::{Divisor, HELD_TOP};
use std::simd::prelude::*;

/// A size is below this.
const GREATEST: u64 = 0x8000_0000;

/// The numbers of a row and a column are at most so many sizes.
const STEEPEST: i64 = 0x400_0000;

/// The wholes are held so much greater, which is more than four of them.
const RAISED: i64 = 0x1000_0000;

const RAISED_LANE: u32 = 0x1000_0000;

/// Sums within this many sizes are told apart from those beyond.
const FARTHEST: i64 = 0x2000_0000;

const FARTHEST_TWICE: u64 = 0x4000_0000;

/// Where the sums of a whole and of another begin.
const ZERO: u32 = 0x3000_0000;

/// So many sizes, held greater by `RAISED`, and what is left of one.
#[derive(Clone, Copy)]
struct Share {
    whole: u32,
    rest: u32,
}

// A number and so many sizes.
#[inline(always)]
fn raised_by(sizes: i64, number: i64, size: u64) -> i64
    requires sizes { Bounded (2 ^ 29) sizes }
    requires number { Bounded (2 ^ 62 + 2 ^ 61 + 2 ^ 54) number }
    requires small { size < 2 ^ 31 }
    ensures { result ≡ number +ℤ (sizes *ℤ pos size) }
{
    number + sizes * size as i64
}

// What a whole quotient leaves.
#[inline(always)]
fn rest_of(number: u64, size: &Divisor, whole: u64) -> u32
    requires small { size.now < 2 ^ 31 }
    requires whole { whole ≡ number / size.now }
    ensures value { number ≡ whole * size.now + result }
    ensures rest { result < size.now }
{
    (number - whole * size.number()) as u32
}

// A number as sizes and a rest.
#[inline(always)]
fn share_of(number: i64, size: &Divisor) -> Share
    requires small { size.now < 2 ^ 31 }
    requires above { number ≤ℤ (pos (2 ^ 26) *ℤ pos size.now) }
    requires below { (neg_ℤ (pos (2 ^ 26)) *ℤ pos size.now) ≤ℤ number }
    ensures value { number ≡ ((pos result.whole -ℤ pos (2 ^ 28)) *ℤ pos size.now) +ℤ pos result.rest }
    ensures rest { result.rest < size.now }
    ensures least { 2 ^ 28 - 2 ^ 26 ≤ result.whole }
    ensures most { result.whole ≤ 2 ^ 28 + 2 ^ 26 }
{
    let raised = raised_by(RAISED, number, size.number()) as u64;
    let whole = size.quotient(raised);
    Share {
        whole: whole as u32,
        rest: rest_of(raised, size, whole),
    }
}

// The sum of two.
#[inline(always)]
fn sum(a: Share, b: Share, size: u32) -> Share
    requires small { size < 2 ^ 31 }
    requires a_rest { a.rest < size }
    requires b_rest { b.rest < size }
    requires a_whole { a.whole ≤ 2 ^ 29 + 1 }
    requires b_whole { b.whole ≤ 2 ^ 29 + 1 }
    requires both { 2 ^ 28 ≤ a.whole + b.whole }
    ensures rest { result.rest < size }
    ensures value { (pos result.whole *ℤ pos size) +ℤ pos result.rest
        ≡ ((((pos a.whole +ℤ pos b.whole) -ℤ pos (2 ^ 28)) *ℤ pos size) +ℤ pos a.rest) +ℤ pos b.rest }
    ensures least { a.whole + b.whole ≤ result.whole + 2 ^ 28 }
    ensures most { result.whole + 2 ^ 28 ≤ a.whole + b.whole + 1 }
{
    let whole = a.whole + b.whole - RAISED_LANE;
    let rest = a.rest + b.rest;
    if rest < size {
        Share { whole, rest }
    } else {
        Share {
            whole: whole + 1,
            rest: rest - size,
        }
    }
}

/// Two rows of four numbers over one size.
#[derive(Clone, Copy)]
pub struct FloorLanes {
    // what a step to the right adds, and a step below
    pub right: i64,
    pub below: i64,
    pub size: Divisor,
    // lanes as they lie in memory: no proof makes vectors beside a divisor
    wholes: [u32; 8],
    rests: [u32; 8],
    ghost are_floors: { AreFloors right below size wholes rests },
}

#[inline(always)]
fn is_gentle(number: i64, size: u64) -> bool
    requires { size < 2 ^ 31 }
    ensures above { IsTrue result → number ≤ℤ (pos (2 ^ 26) *ℤ pos size) }
    ensures below { IsTrue result → (neg_ℤ (pos (2 ^ 26)) *ℤ pos size) ≤ℤ number }
{
    let most = STEEPEST * size as i64;
    -most <= number && number <= most
}

#[inline(always)]
fn lanes_of(size: Divisor, right: i64, below: i64) -> FloorLanes
    requires small { size < 2 ^ 31 }
    requires right_above { right ≤ℤ (pos (2 ^ 26) *ℤ pos size) }
    requires right_below { (neg_ℤ (pos (2 ^ 26)) *ℤ pos size) ≤ℤ right }
    requires below_above { below ≤ℤ (pos (2 ^ 26) *ℤ pos size) }
    requires below_below { (neg_ℤ (pos (2 ^ 26)) *ℤ pos size) ≤ℤ below }
    ensures right { result.right ≡ right }
    ensures below { result.below ≡ below }
    ensures size { result.size ≡ size }
{
    let number = size.number() as u32;
    let none = Share {
        whole: RAISED_LANE,
        rest: 0,
    };
    let one = share_of(right, &size);
    let two = sum(one, one, number);
    let three = sum(two, one, number);
    let four = share_of(below, &size);
    let five = sum(four, one, number);
    let six = sum(four, two, number);
    let seven = sum(four, three, number);
    FloorLanes {
        right,
        below,
        size,
        wholes: [
            none.whole,
            one.whole,
            two.whole,
            three.whole,
            four.whole,
            five.whole,
            six.whole,
            seven.whole,
        ],
        rests: [
            none.rest, one.rest, two.rest, three.rest, four.rest, five.rest, six.rest, seven.rest,
        ],
    }
}

// Eight numbers, each so much greater.
#[inline(always)]
fn moved(numbers: u32x8, by: u32) -> u32x8
    requires { (j : ℕ) → j < 8 → slice_index_or numbers j 0 + by < 2 ^ 32 }
    ensures value { result ≡ map (λ n. n + by) numbers }
    ensures eight { length result ≡ 8 }
{
    numbers.strict_add(u32x8::splat(by))
}

// Eight sums.
#[inline(always)]
fn sums_of(a: u32x8, b: u32x8) -> u32x8
    requires { (j : ℕ) → j < 8 → slice_index_or a j 0 + slice_index_or b j 0 < 2 ^ 32 }
    ensures value { result ≡ zip2 (λ x y. x + y) a b }
    ensures eight { length result ≡ 8 }
{
    a.strict_add(b)
}

// 1 where a number is no less than another, else 0.
#[inline(always)]
fn ones_from(least: u32, numbers: u32x8) -> u32x8
    ensures value { result ≡ map (λ n. cond (nat_le least n) 1 0) numbers }
    ensures eight { length result ≡ 8 }
{
    numbers
        .simd_ge(u32x8::splat(least))
        .select(u32x8::splat(1), u32x8::splat(0))
}

// What sums are above `ZERO`, cut to the range.
#[inline(always)]
fn cut_to_lanes(sums: u32x8) -> [u32; 8]
    ensures { result ≡ map (λ n. min (n - (2 ^ 29 + 2 ^ 28)) HELD_TOP) sums }
{
    let zero = u32x8::splat(ZERO);
    sums.simd_max(zero)
        .strict_sub(zero)
        .simd_min(u32x8::splat(HELD_TOP))
        .to_array()
}

// Which rests are a size together with another: 1 in such a lane, else 0.
#[inline(always)]
fn carries_of(rests: u32x8, rest: u32, size: u32) -> u32x8
    requires small { size < 2 ^ 31 }
    requires rest { rest < size }
    requires eight { length rests ≡ 8 }
    requires rests { (j : ℕ) → j < 8 → slice_index_or rests j 0 < size }
    ensures eight { length result ≡ 8 }
    ensures value { (j : ℕ) → j < 8
        → slice_index_or result j 0 ≡ cond (nat_le size (slice_index_or rests j 0 + rest)) 1 0 }
{
    ones_from(size, moved(rests, rest))
}

// The floors, by the wholes, another whole and what is carried.
#[inline(always)]
fn cut_sums(wholes: u32x8, whole: u32, carries: u32x8) -> [u32; 8]
    requires whole { whole ≤ 2 ^ 30 }
    requires eight { length wholes ≡ 8 }
    requires eight_carries { length carries ≡ 8 }
    requires wholes { (j : ℕ) → j < 8 → slice_index_or wholes j 0 ≤ 2 ^ 29 + 2 }
    requires carries { (j : ℕ) → j < 8 → slice_index_or carries j 0 ≤ 1 }
    ensures { (j : ℕ) → j < 8 → slice_index result j
        ≡ min ((slice_index_or wholes j 0 + whole + slice_index_or carries j 0) - (2 ^ 29 + 2 ^ 28)) HELD_TOP }
{
    cut_to_lanes(sums_of(moved(wholes, whole), carries))
}

impl FloorLanes {
    /// None where the size is too great, or a number is too many sizes.
    #[inline(always)]
    pub fn of(size: Divisor, right: i64, below: i64) -> Option<FloorLanes>
        ensures right { IfSome result (λ f. f.right ≡ right) }
        ensures below { IfSome result (λ f. f.below ≡ below) }
        ensures size { IfSome result (λ f. f.size ≡ size) }
    {
        let number = size.number();
        if number >= GREATEST {
            return None;
        }
        // one branch for both, which nearly all pieces take
        let gentle = is_gentle(right, number) & is_gentle(below, number);
        if gentle {
            Some(lanes_of(size, right, below))
        } else {
            None
        }
    }

    /// The floors of a number and each of the eight over the size, cut to the range from 0 to the top that pieces hold.
    #[inline(always)]
    pub fn floors(&self, number: i64) -> [u32; 8]
        requires { Bounded (2 ^ 62 + 2 ^ 61 + 2 ^ 54) number }
        ensures { (j : ℕ) → j < 8 → slice_index result j
            ≡ cut_to_range HELD_TOP
            (floor_of (number +ℤ number_at self.now.right self.now.below j) (pos self.now.size)) }
    {
        let size = self.size.number();
        // a sum this far below 0 is cut to 0 whatever is added
        let raised = raised_by(FARTHEST, number, size).max(0) as u64;
        let whole = self.size.quotient(raised);
        let rest = rest_of(raised, &self.size, whole);
        let carries = carries_of(u32x8::from_array(self.rests), rest, size as u32);
        cut_sums(
            u32x8::from_array(self.wholes),
            whole.min(FARTHEST_TWICE) as u32,
            carries,
        )
    }
}

/// What a plane rises by from a tile's first subtile to each, over its area. None where the area is too great, or the
/// plane too steep.
#[inline(always)]
pub fn lanes_along(area: Divisor, across: i64, down: i64) -> Option<FloorLanes>
    requires across { Bounded (2 ^ 55) across }
    requires down { Bounded (2 ^ 55) down }
    ensures right { IfSome result (λ f. f.right ≡ across *ℤ pos 128) }
    ensures below { IfSome result (λ f. f.below ≡ down *ℤ pos 64) }
    ensures size { IfSome result (λ f. f.size ≡ area) }
{
    FloorLanes::of(area, 128 * across, 64 * down)
}
