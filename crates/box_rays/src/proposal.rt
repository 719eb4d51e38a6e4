//! A rectangle proposed by floats.
ghost use Rattle.std.specs.Prelude.{pos, ◌≤◌, ◌≤ℤ◌, ◌<◌, ◌^◌};
ghost use Rattle.std.specs.List.{All};
ghost use Rattle.cull_base.specs.Bounds.{Bounded};
ghost use Rattle.cull_base.specs.Screen.{dimensions};
ghost use Rattle.box_rays.specs.Corners.{IsShort};
ghost use Rattle.box_rays.specs.Frustums.{IsOnScreen};

use crate::corner::Corner;
use cull_base::Rect;
use exact_clip::Held;
use std::num::saturating_f64_to_i32;

/// More than rounding adds to a place, in parts of it.
const ROUNDING: f64 = 1e-12;

// A number as a float, exactly.
#[inline(always)]
fn float(steps: i64) -> f64
    requires { Bounded (2 ^ 48) steps }
{
    steps as f64
}

/// Between which places of the screen, which goes from -1 to 1, an object is seen along an axis.
#[derive(Clone, Copy)]
struct Extent {
    least: f64,
    greatest: f64,
}

impl Extent {
    const NONE: Extent = Extent {
        least: 1e30,
        greatest: -1e30,
    };

    // With another place, which lies within a spread of the one told.
    #[inline(always)]
    fn with(self, place: f64, spread: f64) -> Extent {
        let unsure = spread * (1.0 + place.abs());
        Extent {
            least: self.least.min(place - unsure),
            greatest: self.greatest.max(place + unsure),
        }
    }
}

// A number of pixels, at the screen's edge where it is beyond.
#[inline(always)]
fn on_screen(place: f64, pixels: u32) -> i32
    requires { pixels ≤ 2048 }
    ensures least { pos 0 ≤ℤ result }
    ensures most { result ≤ℤ pos pixels }
{
    saturating_f64_to_i32(place).clamp(0, pixels as i32)
}

// In which pixel of an axis an extent begins.
#[inline(always)]
fn first_pixel(extent: Extent, pixels: u32) -> i32
    requires { pixels ≤ 2048 }
    ensures least { pos 0 ≤ℤ result }
    ensures most { result ≤ℤ pos pixels }
{
    on_screen((extent.least + 1.0) * 0.5 * f64::from(pixels), pixels)
}

// After which pixel it ends: none where it does so before the screen.
#[inline(always)]
fn end_pixel(extent: Extent, pixels: u32) -> i32
    requires { pixels ≤ 2048 }
    ensures least { pos 0 ≤ℤ result }
    ensures most { result ≤ℤ pos pixels }
{
    on_screen(
        (extent.greatest + 1.0) * 0.5 * f64::from(pixels) + 1.0,
        pixels,
    )
}

/// A rectangle of the screen that the corners seem to lie in.
pub(crate) fn proposed_rect(corners: &[Held], shift: u32, width: u32, height: u32) -> Rect
    requires least { 2 ≤ shift }
    requires most { shift < 64 }
    requires short { All (IsShort shift) corners.now }
    requires width { width ≤ 2048 }
    requires height { height ≤ 2048 }
    ensures { IsOnScreen (dimensions width height) result }
{
    let mut across = Extent::NONE;
    let mut down = Extent::NONE;
    for v in corners {
        let corner = Corner::of(v, shift);
        let part = 1.0 / float(corner.w);
        let spread = 2.0 * part + ROUNDING;
        across = across.with(float(corner.across) * part, spread);
        down = down.with(float(corner.down) * part, spread);
    }
    Rect {
        x0: first_pixel(across, width),
        y0: first_pixel(down, height),
        x1: end_pixel(across, width),
        y1: end_pixel(down, height),
    }
}
