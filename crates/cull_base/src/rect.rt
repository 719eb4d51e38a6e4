//! Rectangles of whole pixels.
ghost use Rattle.std.specs.Prelude.{◌≡◌, ℤ, IsTrue, ◌↔◌, false, int_lt};
ghost use Rattle.std.specs.Int.{int_min, int_max};

use std::simd::prelude::*;

/// The pixels from (x0, y0) to before (x1, y1); none where x0 isn't below x1, or y0 isn't below y1.
#[derive(Clone, Copy, Debug, PartialEq, Eq)]
pub struct Rect {
    pub x0: i32,
    pub y0: i32,
    pub x1: i32,
    pub y1: i32,
}

/// The rectangle of no pixels.
pub const NO_PIXELS: Rect = Rect {
    x0: 0,
    y0: 0,
    x1: 0,
    y1: 0,
};

// Whether some number lies from a0 to before a1 and from b0 to before b1.
fn overlap(a0: i32, a1: i32, b0: i32, b1: i32) -> bool
    ensures { result ≡ int_lt (int_max a0 b0) (int_min a1 b1) }
{
    a0.max(b0) < a1.min(b1)
}

fn greater(a: i32, b: i32) -> i32
    ensures { result ≡ int_max a b }
{
    a.max(b)
}

fn lesser(a: i32, b: i32) -> i32
    ensures { result ≡ int_min a b }
{
    a.min(b)
}

impl Rect {
    ghost use Rattle.cull_base.specs.Rectangle.{HasPixel, meets, cut_of, no_pixels};

    /// Whether some pixel is in both.
    pub fn meets(&self, other: &Rect) -> bool
        ensures value { result ≡ meets self.now other.now }
        ensures pixel { IsTrue result ↔ ((x : ℤ) × (y : ℤ) × HasPixel self.now x y × HasPixel other.now x y) }
    {
        overlap(self.x0, self.x1, other.x0, other.x1)
            && overlap(self.y0, self.y1, other.y0, other.y1)
    }

    /// As `meets`, both axes side by side: for rectangles that are computed so.
    #[inline(always)]
    pub fn meets_in_lanes(&self, other: &Rect) -> bool
        ensures { result ≡ meets self.now other.now }
    {
        let first = i32x2::from_array([self.x0, self.y0]);
        let end = i32x2::from_array([self.x1, self.y1]);
        let other_first = i32x2::from_array([other.x0, other.y0]);
        let other_end = i32x2::from_array([other.x1, other.y1]);
        let from = first.simd_max(other_first);
        from.simd_lt(end.simd_min(other_end)).all()
    }

    /// The pixels in both; (0, 0, 0, 0) where there are none.
    pub fn cut(&self, other: &Rect) -> Rect
        ensures value { result ≡ cut_of self.now other.now }
        ensures pixels { (x y : ℤ) → HasPixel result x y ↔ (HasPixel self.now x y × HasPixel other.now x y) }
        ensures none { meets self.now other.now ≡ false → result ≡ no_pixels }
    {
        if self.meets(other) {
            Rect {
                x0: greater(self.x0, other.x0),
                y0: greater(self.y0, other.y0),
                x1: lesser(self.x1, other.x1),
                y1: lesser(self.y1, other.y1),
            }
        } else {
            NO_PIXELS
        }
    }
}
