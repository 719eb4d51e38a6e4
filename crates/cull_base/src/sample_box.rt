//! The pixels that the box of three points reaches, and those whose middle stands in it or on its edge. Both axes are
//! computed side by side.
ghost use Rattle.std.specs.Prelude.{◌≡◌, ◌+ℤ◌, ◌∷◌, [], pos};
ghost use Rattle.std.specs.List.{All};
ghost use Rattle.cull_base.specs.Piece.{IsCoordinate, box_around, end_pixel, first_pixel, least_of, greatest_of};
ghost use Rattle.cull_base.specs.Sampled.{samples_between};

use crate::rect::Rect;
use std::simd::prelude::*;

// The least of three coordinates of x and of y, and the greatest of both.
#[inline(always)]
fn extremes(x: &[i32; 3], y: &[i32; 3]) -> [i32; 4]
    ensures { result ≡ least_of x.now ∷ least_of y.now ∷ greatest_of x.now ∷ greatest_of y.now ∷ [] }
{
    let first = i32x2::from_array([x[0], y[0]]);
    let second = i32x2::from_array([x[1], y[1]]);
    let third = i32x2::from_array([x[2], y[2]]);
    let [left, top] = first.simd_min(second).simd_min(third).to_array();
    let [right, bottom] = first.simd_max(second).simd_max(third).to_array();
    [left, top, right, bottom]
}

// The pixels of the least coordinates, and those one past the pixels of the greatest.
#[inline(always)]
fn pixels(left: i32, top: i32, right: i32, bottom: i32) -> Rect
    ensures { result ≡ record {
      x0 = first_pixel left;
      y0 = first_pixel top;
      x1 = end_pixel right;
      y1 = end_pixel bottom;
    } }
{
    let extremes = i32x4::from_array([left, top, right, bottom]);
    let reached = extremes >> i32x4::splat(4);
    let ends = reached.strict_add(i32x4::from_array([0, 0, 1, 1]));
    let [x0, y0, x1, y1] = ends.to_array();
    Rect { x0, y0, x1, y1 }
}

/// The pixels that the box of three points reaches, by x and y in sixteenths of a pixel; not cut to the screen.
#[inline(always)]
pub(crate) fn box_around(x: &[i32; 3], y: &[i32; 3]) -> Rect
    ensures { result ≡ box_around x.now y.now }
{
    let [left, top, right, bottom] = extremes(x, y);
    pixels(left, top, right, bottom)
}

// The first pixels whose middle isn't before the least coordinates, and the first whose middle, and that of each one
// past them, is past the greatest.
#[inline(always)]
fn samples(left: i32, top: i32, right: i32, bottom: i32) -> Rect
    requires left { IsCoordinate left }
    requires top { IsCoordinate top }
    requires right { IsCoordinate right }
    requires bottom { IsCoordinate bottom }
    ensures { result ≡ record {
      x0 = first_pixel (left +ℤ pos 7);
      y0 = first_pixel (top +ℤ pos 7);
      x1 = first_pixel (right +ℤ pos 8);
      y1 = first_pixel (bottom +ℤ pos 8);
    } }
{
    let extremes = i32x4::from_array([left, top, right, bottom]);
    let raised = extremes.strict_add(i32x4::from_array([7, 7, 8, 8]));
    let [x0, y0, x1, y1] = (raised >> i32x4::splat(4)).to_array();
    Rect { x0, y0, x1, y1 }
}

/// The pixels whose middle stands in the box of three points, by x and y in sixteenths of a pixel, or on its edge; not
/// cut to the screen. Of points a few sixteenths apart there may be none. Condition: each coordinate is strictly
/// between -2^29 and 2^29.
#[inline(always)]
pub fn samples_between(x: &[i32; 3], y: &[i32; 3]) -> Rect
    requires x { All IsCoordinate x.now }
    requires y { All IsCoordinate y.now }
    ensures { result ≡ samples_between x.now y.now }
{
    let [left, top, right, bottom] = extremes(x, y);
    samples(left, top, right, bottom)
}
