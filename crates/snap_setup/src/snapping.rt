//! Where a point stands on the screen, and how near it is.
ghost use Rattle.std.specs.Prelude.{IfSome, negsuc, ◌<◌, ◌/◌, ◌<ℤ◌, ◌≡◌, ℤ, pos, neg_ℤ};
ghost use Rattle.std.specs.Prelude.{◌*◌, ◌^◌, ◌*ℤ◌, ◌+ℤ◌, ◌≤ℤ◌, ◌≤◌};
ghost use Rattle.cull_base.specs.Bounds.{Bounded};
ghost use Rattle.cull_base.specs.Depth.{floor_of};
ghost use Rattle.cull_base.specs.Piece.{IsCoordinate};
ghost use Rattle.cull_base.specs.Grade.{top_of};
ghost use Rattle.cull_base.specs.declared.nearness.TheConstants.{HELD_TOP};
ghost use Rattle.near_clip.specs.Reach.{IsInReach};
ghost use Rattle.snap_setup.specs.Snapping.{round_half, screen_x, screen_y, nearness_of, addend_of, snapped, place_of};
ghost use Rattle.snap_setup.specs.Snapping.{IsInSight, IsOnScale, IsSnapped};

use cull_base::{Divisor, Grade, Near, Side, Size};
use near_clip::HomPoint;

/// A point on the screen: coordinates in sixteenths of a pixel, y downwards, and nearness from 0 to the top of
/// the scene's grade.
#[derive(Clone, Copy, Debug, PartialEq, Eq)]
pub struct Snapped {
    pub x: i32,
    pub y: i32,
    pub q: u32,
}

#[inline(always)]
fn wide_product(a: u32, b: i64) -> i128
    requires { a ≤ 2 ^ 15 }
    ensures value { result ≡ pos a *ℤ b }
    ensures bounded { Bounded (2 ^ 78) result }
{
    i128::from(a) * i128::from(b)
}

#[inline(always)]
fn wide_sum(a: i128, b: i64) -> i128
    requires { Bounded (2 ^ 78) a }
    ensures { result ≡ a +ℤ b }
{
    a + i128::from(b)
}

// Twice w, by which the coordinates of a point are divided, and its nearness where that has no shorter way.
#[inline(always)]
fn doubled_w(point: &HomPoint) -> Divisor
    requires { IsInSight point.now }
    ensures { pos result ≡ pos 2 *ℤ point.now.w }
{
    Divisor::of(2 * point.w.unsigned_abs())
}

/// Up to this w the numerators of places fit 64 bits: an offset lies at most 16,385 times w away from 0, and is taken
/// at most 2^15 times.
const NARROW_W: i64 = 0x1_0000_0000;

#[inline(always)]
fn narrow_place(pixels: u16, offset: i64, w: i64, doubled: &Divisor) -> i32
    requires { IsOnScale pixels offset w doubled.now (2 ^ 32) }
    ensures value { result ≡ round_half (pos (8 * pixels) *ℤ offset) w }
    ensures within { IsCoordinate result }
{
    doubled.floor(16 * i64::from(pixels) * offset + w) as i32
}

#[inline(never)]
fn wide_place(pixels: u16, offset: i64, w: i64, doubled: &Divisor) -> i32
    requires { IsOnScale pixels offset w doubled.now (2 ^ 49) }
    ensures value { result ≡ round_half (pos (8 * pixels) *ℤ offset) w }
    ensures within { IsCoordinate result }
{
    let product = wide_product(16 * u32::from(pixels), offset);
    doubled.wide_floor(wide_sum(product, w)) as i32
}

// So many pixels are reached by offsets from 0 to twice w. The place of an offset in sixteenths of a pixel, rounded.
#[inline(always)]
fn place_of_offset(pixels: u16, offset: i64, w: i64, doubled: &Divisor) -> i32
    requires { IsOnScale pixels offset w doubled.now (2 ^ 49) }
    ensures value { result ≡ round_half (pos (8 * pixels) *ℤ offset) w }
    ensures within { IsCoordinate result }
{
    if w <= NARROW_W {
        narrow_place(pixels, offset, w, doubled)
    } else {
        wide_place(pixels, offset, w, doubled)
    }
}

#[inline(always)]
fn place_x(point: &HomPoint, size: Size, doubled: &Divisor) -> i32
    requires sight { IsInSight point.now }
    requires doubled { pos doubled.now ≡ pos 2 *ℤ point.now.w }
    ensures value { result ≡ screen_x point.now size }
    ensures within { IsCoordinate result }
{
    place_of_offset(size.width(), point.x + point.w, point.w, doubled)
}

#[inline(always)]
fn place_y(point: &HomPoint, size: Size, doubled: &Divisor) -> i32
    requires sight { IsInSight point.now }
    requires doubled { pos doubled.now ≡ pos 2 *ℤ point.now.w }
    ensures value { result ≡ screen_y point.now size }
    ensures within { IsCoordinate result }
{
    place_of_offset(size.height(), point.w - point.y, point.w, doubled)
}

#[inline(always)]
fn nearness_numerator(near: Near, scale: u64, grade: Grade) -> u64
    requires { scale ≤ 2 ^ 25 }
    ensures value { result ≡ top_of grade * near.distance * scale }
    ensures bounded { result ≤ HELD_TOP * 2 ^ 35 }
{
    u64::from(grade.top()) * u64::from(near.distance) * scale
}

#[inline(always)]
fn addend(side: Side, w: u64) -> u64
    requires least { 1 ≤ w }
    requires most { w ≤ 2 ^ 49 }
    ensures value { result ≡ addend_of side w }
    ensures bounded { result ≤ 2 ^ 49 }
{
    match side {
        Side::Occluder => 0,
        Side::Object => w - 1,
    }
}

#[inline(always)]
fn nearness(point: &HomPoint, near: Near, side: Side, grade: Grade, doubled: &Divisor) -> u32
    requires reach { IsInReach near.distance point.now }
    requires sight { IsInSight point.now }
    requires doubled { pos doubled.now ≡ pos 2 *ℤ point.now.w }
    ensures value { result ≡ nearness_of point.now (top_of grade) near.distance side }
    ensures within { result ≤ top_of grade }
{
    let numerator = nearness_numerator(near, point.scale.unsigned_abs(), grade);
    doubled.quotient(2 * (numerator + addend(side, point.w.unsigned_abs()))) as u32
}

/// Processors divide numbers below this size in a fraction of the time.
const SHORT: u64 = 0x1_0000_0000;

// A quotient in 32 bits. None where a number doesn't fit.
#[inline(always)]
fn short_quotient(n: u64, d: u64) -> Option<u64>
    requires { 0 < d }
    ensures { IfSome result (λ q. q ≡ n / d) }
{
    if (n < SHORT) & (d < SHORT) {
        Some(u64::from(n as u32 / d as u32))
    } else {
        None
    }
}

// A quotient in two steps: first of the number without its lower eight bits, then of what that leaves. None where one
// of these doesn't fit.
#[inline(always)]
fn quotient_in_two(n: u64, d: u64) -> Option<u64>
    requires { 0 < d }
    ensures { IfSome result (λ q. q ≡ n / d) }
{
    let Some(upper) = short_quotient(n / 256, d) else {
        return None;
    };
    let first = 256 * upper;
    let rest = n - first * d;
    let Some(lower) = short_quotient(rest, d) else {
        return None;
    };
    Some(first + lower)
}

// The same in one step where the number fits 32 bits, as in the narrow grade most do, and else in two: in the wide
// grade a vertex that no plane cuts needs them where the near distance is above 255.
#[inline(always)]
fn quotient_in_steps(n: u64, d: u64) -> Option<u64>
    requires { 0 < d }
    ensures { IfSome result (λ q. q ≡ n / d) }
{
    if n < SHORT {
        short_quotient(n, d)
    } else {
        quotient_in_two(n, d)
    }
}

// How far a number lies from 0, or below 0 from -1.
#[inline(always)]
fn depth(n: i64) -> u64
    ensures front { pos 0 ≤ℤ n → pos result ≡ n }
    ensures behind { n <ℤ pos 0 → negsuc result ≡ n }
{
    if n < 0 { (-1 - n) as u64 } else { n as u64 }
}

// The same of a floor, below 0 too.
#[inline(always)]
fn short_floor(n: i64, d: u64) -> Option<i64>
    requires { 0 < d }
    ensures { IfSome result (λ q. q ≡ floor_of n (pos d)) }
{
    match short_quotient(depth(n), d) {
        Some(whole) => {
            let whole = whole as i64;
            Some(if n < 0 { -1 - whole } else { whole })
        }
        None => None,
    }
}

#[inline(always)]
fn short_place(pixels: u16, offset: i64, w: i64, doubled: u64) -> Option<i32>
    requires { IsOnScale pixels offset w doubled (2 ^ 32) }
    ensures { IfSome result (λ v. (v ≡ round_half (pos (8 * pixels) *ℤ offset) w) × IsCoordinate v) }
{
    match short_floor(16 * i64::from(pixels) * offset + w, doubled) {
        Some(place) => Some(place as i32),
        None => None,
    }
}

#[inline(always)]
fn short_nearness(point: &HomPoint, near: Near, side: Side, grade: Grade) -> Option<u32>
    requires reach { IsInReach near.distance point.now }
    requires sight { IsInSight point.now }
    ensures { IfSome result
        (λ q. (q ≡ nearness_of point.now (top_of grade) near.distance side) × (q ≤ top_of grade)) }
{
    let numerator = nearness_numerator(near, point.scale.unsigned_abs(), grade);
    let w = point.w.unsigned_abs();
    match quotient_in_steps(numerator + addend(side, w), w) {
        Some(q) => Some(q as u32),
        None => None,
    }
}

#[inline(always)]
fn short_x(point: &HomPoint, size: Size, doubled: u64) -> Option<i32>
    requires sight { IsInSight point.now }
    requires narrow { point.now.w ≤ℤ pos (2 ^ 32) }
    requires doubled { pos doubled ≡ pos 2 *ℤ point.now.w }
    ensures { IfSome result (λ x. (x ≡ screen_x point.now size) × IsCoordinate x) }
{
    short_place(size.width(), point.x + point.w, point.w, doubled)
}

#[inline(always)]
fn short_y(point: &HomPoint, size: Size, doubled: u64) -> Option<i32>
    requires sight { IsInSight point.now }
    requires narrow { point.now.w ≤ℤ pos (2 ^ 32) }
    requires doubled { pos doubled ≡ pos 2 *ℤ point.now.w }
    ensures { IfSome result (λ y. (y ≡ screen_y point.now size) × IsCoordinate y) }
{
    short_place(size.height(), point.w - point.y, point.w, doubled)
}

/// Where a point stands: in sixteenths of a pixel, y downwards.
#[derive(Clone, Copy, Debug, PartialEq, Eq)]
pub struct Place {
    pub x: i32,
    pub y: i32,
}

// The place of a point whose two quotients are of numbers that fit 32 bits.
#[inline(always)]
fn short_place_of(point: &HomPoint, size: Size) -> Option<Place>
    requires sight { IsInSight point.now }
    requires narrow { point.now.w ≤ℤ pos (2 ^ 32) }
    ensures { IfSome result (λ p. (p ≡ place_of point.now size) × IsCoordinate p.x × IsCoordinate p.y) }
{
    let doubled = 2 * point.w.unsigned_abs();
    let Some(x) = short_x(point, size, doubled) else {
        return None;
    };
    let Some(y) = short_y(point, size, doubled) else {
        return None;
    };
    Some(Place { x, y })
}

// The place of any point, by one reciprocal.
#[inline(never)]
fn long_place_of(point: &HomPoint, size: Size) -> Place
    requires sight { IsInSight point.now }
    ensures value { result ≡ place_of point.now size }
    ensures x_within { IsCoordinate result.x }
    ensures y_within { IsCoordinate result.y }
{
    let doubled = doubled_w(point);
    Place {
        x: place_x(point, size, &doubled),
        y: place_y(point, size, &doubled),
    }
}

/// Where a point stands on the screen, each coordinate rounded to the nearest whole number. Conditions as for `snap`.
#[inline(always)]
pub fn place_of(point: &HomPoint, near: u16, size: Size) -> Place
    requires near_least { 1 ≤ near }
    requires near_most { near ≤ 1024 }
    requires reach { IsInReach near point.now }
    ensures value { result ≡ place_of point.now size }
    ensures x_within { IsCoordinate result.x }
    ensures y_within { IsCoordinate result.y }
{
    if point.w <= NARROW_W {
        if let Some(place) = short_place_of(point, size) {
            return place;
        }
    }
    long_place_of(point, size)
}

// A point whose quotients are of numbers that fit 32 bits, as those of most points are.
#[inline(always)]
fn short_snap(point: &HomPoint, near: Near, size: Size, side: Side, grade: Grade) -> Option<Snapped>
    requires reach { IsInReach near.distance point.now }
    requires sight { IsInSight point.now }
    requires narrow { point.now.w ≤ℤ pos (2 ^ 32) }
    ensures { IfSome result
        (λ s. (s ≡ snapped point.now (top_of grade) near.distance size side) × IsSnapped s) }
{
    let doubled = 2 * point.w.unsigned_abs();
    let Some(x) = short_x(point, size, doubled) else {
        return None;
    };
    let Some(y) = short_y(point, size, doubled) else {
        return None;
    };
    let Some(q) = short_nearness(point, near, side, grade) else {
        return None;
    };
    Some(Snapped { x, y, q })
}

// Any point, by one reciprocal.
#[inline(never)]
fn long_snap(point: &HomPoint, near: Near, size: Size, side: Side, grade: Grade) -> Snapped
    requires reach { IsInReach near.distance point.now }
    requires sight { IsInSight point.now }
    ensures value { result ≡ snapped point.now (top_of grade) near.distance size side }
    ensures within { IsSnapped result }
{
    let doubled = doubled_w(point);
    Snapped {
        x: place_x(point, size, &doubled),
        y: place_y(point, size, &doubled),
        q: nearness(point, near, side, grade, &doubled),
    }
}

/// A point on the screen: its coordinates are rounded to the nearest whole number, and its nearness down for an
/// occluder, up for an object; the grade says how fine it is. Conditions: `near` is 1 to 1024; the scale is 1 to 2^25,
/// w is `near` to 16384 `near` times the scale, and x and y are at most 16384 `near` times the scale away from 0.
#[inline(always)]
pub fn snap(point: &HomPoint, near: u16, size: Size, side: Side, grade: Grade) -> Snapped
    requires near_least { 1 ≤ near }
    requires near_most { near ≤ 1024 }
    requires reach { IsInReach near point.now }
    ensures value { result ≡ snapped point.now (top_of grade) near size side }
    ensures within { IsSnapped result }
{
    let near = Near { distance: near };
    if point.w <= NARROW_W {
        if let Some(snapped) = short_snap(point, near, size, side, grade) {
            return snapped;
        }
    }
    // a copy, so that only here the point has to lie in memory
    let far = *point;
    long_snap(&far, near, size, side, grade)
}
