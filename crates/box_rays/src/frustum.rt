//! What is seen in a rectangle of pixels.
ghost use Rattle.std.specs.Prelude.{◌≡◌, ℕ, pos, ◌+◌, ◌*◌, ◌≤◌, ◌<◌, ◌^◌, ◌+ℤ◌, ◌-ℤ◌, ◌*ℤ◌, ◌≤ℤ◌, ◌<ℤ◌, List, true};
ghost use Rattle.std.specs.List.{All, AllZip};
ghost use Rattle.cull_base.specs.Screen.{dimensions};
ghost use Rattle.exact_clip.specs.Clip.{Clip};
ghost use Rattle.exact_clip.specs.Held.{Holds};
ghost use Rattle.box_rays.specs.Corners.{IsShort, IsSmall, StandsFor};
ghost use Rattle.box_rays.specs.HalfSpaces.{IsIn, IsNarrow};
ghost use Rattle.box_rays.specs.Frustums.{AreNarrow, Frames, IsOnScreen, IsWithin};

use crate::corner::Corner;
use crate::half_space::HalfSpace;
use cull_base::Rect;
use cull_base::arithmetic::pixel_of;
use exact_clip::Held;

/// Four halves of space: what is in all of them is seen in a rectangle.
#[derive(Clone, Copy)]
pub(crate) struct Frustum {
    pub(crate) left: HalfSpace,
    pub(crate) right: HalfSpace,
    pub(crate) upper: HalfSpace,
    pub(crate) lower: HalfSpace,
}

// What is seen from a column on. From the first on it is all that is ahead, and so in the three below.
fn from_column(column: u32, width: u32) -> HalfSpace
    requires column { column ≤ width }
    requires width { width ≤ 2048 }
    ensures narrow { IsNarrow result }
    ensures from { (p : Clip) → (px : ℕ) → IsIn result p → pos 0 <ℤ p.w
        → (pos width *ℤ (p.x +ℤ p.w)) <ℤ (pos (2 * (px + 1)) *ℤ p.w) → column ≤ px }
{
    if column == 0 {
        HalfSpace::ahead()
    } else {
        HalfSpace::right_of(column, width)
    }
}

// What is seen before a column.
fn before_column(column: u32, width: u32) -> HalfSpace
    requires column { column ≤ width }
    requires width { width ≤ 2048 }
    ensures narrow { IsNarrow result }
    ensures before { (p : Clip) → (px : ℕ) → px < width → IsIn result p → pos 0 <ℤ p.w
        → (pos (2 * px) *ℤ p.w) ≤ℤ (pos width *ℤ (p.x +ℤ p.w)) → px < column }
{
    if column == width {
        HalfSpace::ahead()
    } else {
        HalfSpace::left_of(column, width)
    }
}

// What is seen from a row on.
fn from_row(row: u32, height: u32) -> HalfSpace
    requires row { row ≤ height }
    requires height { height ≤ 2048 }
    ensures narrow { IsNarrow result }
    ensures from { (p : Clip) → (py : ℕ) → IsIn result p → pos 0 <ℤ p.w
        → (pos height *ℤ (p.w -ℤ p.y)) <ℤ (pos (2 * (py + 1)) *ℤ p.w) → row ≤ py }
{
    if row == 0 {
        HalfSpace::ahead()
    } else {
        HalfSpace::below(row, height)
    }
}

// What is seen before a row.
fn before_row(row: u32, height: u32) -> HalfSpace
    requires row { row ≤ height }
    requires height { height ≤ 2048 }
    ensures narrow { IsNarrow result }
    ensures before { (p : Clip) → (py : ℕ) → py < height → IsIn result p → pos 0 <ℤ p.w
        → (pos (2 * py) *ℤ p.w) ≤ℤ (pos height *ℤ (p.w -ℤ p.y)) → py < row }
{
    if row == height {
        HalfSpace::ahead()
    } else {
        HalfSpace::above(row, height)
    }
}

impl Frustum {
    /// Of a rectangle of the screen. At an edge of the screen it goes on beyond.
    pub(crate) fn of(rect: &Rect, width: u32, height: u32) -> Frustum
        requires width { width ≤ 2048 }
        requires height { height ≤ 2048 }
        requires on_screen { IsOnScreen (dimensions width height) rect.now }
        ensures narrow { AreNarrow result }
        ensures frames { Frames (dimensions width height) rect.now result }
    {
        Frustum {
            left: from_column(pixel_of(rect.x0), width),
            right: before_column(pixel_of(rect.x1), width),
            upper: from_row(pixel_of(rect.y0), height),
            lower: before_row(pixel_of(rect.y1), height),
        }
    }

    // Whether a corner certainly lies within.
    #[inline(always)]
    fn has(&self, corner: &Corner) -> bool
        requires narrow { AreNarrow self.now }
        requires small { IsSmall corner.now }
        ensures { result ≡ true → (step : ℕ) → (exact : Clip) → StandsFor step corner.now exact → IsWithin self.now exact }
    {
        self.left.has(corner)
            && self.right.has(corner)
            && self.upper.has(corner)
            && self.lower.has(corner)
    }

    /// Whether all corners certainly lie within.
    pub(crate) fn has_all(&self, corners: &[Held], shift: u32) -> bool
        requires narrow { AreNarrow self.now }
        requires least { 2 ≤ shift }
        requires most { shift < 64 }
        requires short { All (IsShort shift) corners.now }
        ensures { result ≡ true → (unit : ℕ) → (points : List Clip) → AllZip (Holds unit) corners.now points → All (IsWithin self.now) points }
    {
        for v in corners {
            if !self.has(&Corner::of(v, shift)) {
                return false;
            }
        }
        true
    }
}
