//! Which corners of a box lie outermost on the screen.
//!
//! The place of a corner rises with its coordinate over its distance. So only the least and the greatest of these
//! quotients are divided out; they are found by products.
ghost use Rattle.std.specs.Prelude.{◌≡◌, ℕ, ◌*ℤ◌, int_lt, false, map};
ghost use Rattle.std.specs.Int.{int_min, int_max};
ghost use Rattle.std.specs.List.{All};
ghost use Rattle.cull_base.specs.Guard.{is_past_guard};
ghost use Rattle.cull_base.specs.NearPlane.{is_behind};
ghost use Rattle.cull_base.specs.Piece.{IsCoordinate, least_of, greatest_of};
ghost use Rattle.rect_query.specs.Ratios.{IsRatio, across, down, pixels_along, place_along, place_at, ratio_along};

use cull_base::arithmetic::product;
use cull_base::{ClipVertex, Extent, Near, Size};
use near_clip::HomPoint;
use snap_setup::place_of;

/// One of the two ways over the screen.
#[derive(Clone, Copy)]
pub(crate) enum Way {
    Across,
    Down,
}

/// A coordinate of a corner over its distance.
#[derive(Clone, Copy)]
pub(crate) struct Ratio {
    pub(crate) number: i64,
    pub(crate) w: i64,
}

#[inline(always)]
fn across(v: &ClipVertex, near: Near) -> Ratio
    requires guarded { is_past_guard v.now near.distance ≡ false }
    requires front { is_behind near.distance v.now ≡ false }
    ensures value { result ≡ across v.now }
    ensures within { IsRatio near.distance result }
{
    Ratio {
        number: v.x,
        w: v.w,
    }
}

#[inline(always)]
fn down(v: &ClipVertex, near: Near) -> Ratio
    requires guarded { is_past_guard v.now near.distance ≡ false }
    requires front { is_behind near.distance v.now ≡ false }
    ensures value { result ≡ down v.now }
    ensures within { IsRatio near.distance result }
{
    Ratio {
        number: -v.y,
        w: v.w,
    }
}

#[inline(always)]
fn quotient(v: &ClipVertex, near: Near, way: Way) -> Ratio
    requires guarded { is_past_guard v.now near.distance ≡ false }
    requires front { is_behind near.distance v.now ≡ false }
    ensures value { result ≡ ratio_along way v.now }
    ensures within { IsRatio near.distance result }
{
    match way {
        Way::Across => across(v, near),
        Way::Down => down(v, near),
    }
}

#[inline(always)]
fn is_less(a: Ratio, b: Ratio, near: Near) -> bool
    requires a { IsRatio near.distance a }
    requires b { IsRatio near.distance b }
    ensures { result ≡ int_lt (a.number *ℤ b.w) (b.number *ℤ a.w) }
{
    product(a.number, b.w) < product(b.number, a.w)
}

// The one with the lesser place on each screen.
#[inline(always)]
fn lesser(a: Ratio, b: Ratio, near: Near) -> Ratio
    requires a { IsRatio near.distance a }
    requires b { IsRatio near.distance b }
    ensures within { IsRatio near.distance result }
    ensures place { (pixels : ℕ) → place_at pixels result ≡ int_min (place_at pixels a) (place_at pixels b) }
{
    if is_less(b, a, near) { b } else { a }
}

// The one with the greater place on each screen.
#[inline(always)]
fn greater(a: Ratio, b: Ratio, near: Near) -> Ratio
    requires a { IsRatio near.distance a }
    requires b { IsRatio near.distance b }
    ensures within { IsRatio near.distance result }
    ensures place { (pixels : ℕ) → place_at pixels result ≡ int_max (place_at pixels a) (place_at pixels b) }
{
    if is_less(a, b, near) { b } else { a }
}

// The place across the screen. The point is taken at its upper edge, where the quotient down the screen is 0.
#[inline(always)]
fn place_across(ratio: Ratio, near: Near, size: Size) -> i32
    requires { IsRatio near.distance ratio }
    ensures value { result ≡ place_at size.width ratio }
    ensures within { IsCoordinate result }
{
    let point = HomPoint {
        x: ratio.number,
        y: ratio.w,
        w: ratio.w,
        scale: 1,
    };
    place_of(&point, near.distance, size).x
}

// The place down the screen, of a point at its left edge.
#[inline(always)]
fn place_down(ratio: Ratio, near: Near, size: Size) -> i32
    requires { IsRatio near.distance ratio }
    ensures value { result ≡ place_at size.height ratio }
    ensures within { IsCoordinate result }
{
    let point = HomPoint {
        x: -ratio.w,
        y: -ratio.number,
        w: ratio.w,
        scale: 1,
    };
    place_of(&point, near.distance, size).y
}

#[inline(always)]
fn place(ratio: Ratio, near: Near, size: Size, way: Way) -> i32
    requires { IsRatio near.distance ratio }
    ensures value { result ≡ place_at (pixels_along way size) ratio }
    ensures within { IsCoordinate result }
{
    match way {
        Way::Across => place_across(ratio, near, size),
        Way::Down => place_down(ratio, near, size),
    }
}

/// How far the corners reach one way over the screen.
#[inline(always)]
pub(crate) fn extent(corners: &[ClipVertex; 8], near: Near, size: Size, way: Way) -> Extent
    requires guarded { All (λ v. is_past_guard v near.distance ≡ false) corners.now }
    requires front { All (λ v. is_behind near.distance v ≡ false) corners.now }
    ensures least { result.least ≡ least_of (map (λ v. place_along way size v) corners.now) }
    ensures greatest { result.greatest ≡ greatest_of (map (λ v. place_along way size v) corners.now) }
{
    let rest = &corners[1..];
    let mut least = quotient(&corners[0], near, way);
    let mut greatest = least;
    for corner in rest {
        let ratio = quotient(corner, near, way);
        least = lesser(least, ratio, near);
        greatest = greater(greatest, ratio, near);
    }
    Extent {
        least: place(least, near, size, way),
        greatest: place(greatest, near, size, way),
    }
}
