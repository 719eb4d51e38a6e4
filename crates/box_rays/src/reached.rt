//! Where an object stands before the eye.
ghost use Rattle.std.specs.Prelude.{◌≡◌, ℕ, pos, ◌*◌, ◌^◌, ◌≤◌, ◌<◌, ◌<ℤ◌, List, true, false};
ghost use Rattle.std.specs.List.{All, AllZip};
ghost use Rattle.cull_base.specs.Screen.{dimensions};
ghost use Rattle.exact_clip.specs.Clip.{Clip};
ghost use Rattle.exact_clip.specs.Held.{Holds};
ghost use Rattle.box_rays.specs.Objects.{IsBeside, IsReached};
ghost use Rattle.box_rays.specs.Corners.{IsShort};
ghost use Rattle.box_rays.specs.Frustums.{IsEmpty, IsOnScreen};

use crate::corner::shift_of;
use crate::frustum::Frustum;
use crate::half_space::HalfSpace;
use crate::nearness::{nearest_of, nearness_at};
use crate::proposal::proposed_rect;
use cull_base::Rect;
use exact_clip::Held;

/// Where an object stands: beside the screen, in a rectangle of the screen's pixels with one nearness, or somewhere that
/// isn't told, so that it counts as visible.
#[derive(Clone, Copy, Debug, PartialEq, Eq)]
pub enum Reached {
    Outside,
    Visible,
    At { rect: Rect, nearness: u32 },
}

// Whether all corners are certainly beyond one side of the screen, or behind the eye.
fn are_beside(corners: &[Held], shift: u32, width: u32, height: u32) -> bool
    requires least { 2 ≤ shift }
    requires most { shift < 64 }
    requires short { All (IsShort shift) corners.now }
    requires width { width ≤ 2048 }
    requires height { height ≤ 2048 }
    ensures { result ≡ true → (unit : ℕ) → (points : List Clip) → AllZip (Holds unit) corners.now points → IsBeside (dimensions width height) points }
{
    HalfSpace::left_of(0, width).has_all(corners, shift)
        || HalfSpace::right_of(width, width).has_all(corners, shift)
        || HalfSpace::above(0, height).has_all(corners, shift)
        || HalfSpace::below(height, height).has_all(corners, shift)
        || HalfSpace::behind().has_all(corners, shift)
}

// Whether a rectangle has no pixel.
fn is_empty(rect: &Rect) -> bool
    ensures none { result ≡ true → IsEmpty rect.now }
    ensures across { result ≡ false → rect.now.x0 <ℤ rect.now.x1 }
    ensures down { result ≡ false → rect.now.y0 <ℤ rect.now.y1 }
{
    rect.x1 <= rect.x0 || rect.y1 <= rect.y0
}

/// Whether a rectangle of the screen certainly has each pixel that the object between some corners is seen in.
/// Conditions: `width` and `height` are at most 2048, and the rectangle reaches no further than the screen.
pub fn is_certain(rect: &Rect, corners: &[Held], width: u32, height: u32) -> bool
    requires width { width ≤ 2048 }
    requires height { height ≤ 2048 }
    requires on_screen { IsOnScreen (dimensions width height) rect.now }
    ensures { result ≡ true → (unit : ℕ) → (points : List Clip) → AllZip (Holds unit) corners.now points → IsReached (dimensions width height) points rect.now }
{
    Frustum::of(rect, width, height).has_all(corners, shift_of(corners))
}

impl Reached {
    ghost use Rattle.box_rays.specs.Answers.{IsInRange, Says, SaysNear};

    /// Where the object between some corners seems to be seen on a screen of so many pixels, and how near it comes. All
    /// but the rectangle is certain, and that is what `is_certain` asks: where it isn't, the object counts as visible.
    /// The corners are held in units, in which the near distance is whole; nearness goes from 0 to `top` at the near
    /// distance, and `share` parts of 2^24 are added to it. Visible where a corner is before the near distance.
    /// Conditions: `near` is above 0, `width` and `height` are at most 2048, `share` is at most 2^20 and `top` is below
    /// 2^24.
    pub fn proposed(
        corners: &[Held],
        near: u32,
        width: u32,
        height: u32,
        share: u32,
        top: u32,
    ) -> Reached
        requires near { 0 < near }
        requires width { width ≤ 2048 }
        requires height { height ≤ 2048 }
        requires share { share ≤ 2 ^ 20 }
        requires top { top < 2 ^ 24 }
        ensures says { (unit : ℕ) → (points : List Clip) → AllZip (Holds unit) corners.now points
            → SaysNear (dimensions width height) top (pos (near * unit)) share points result }
        ensures in_range { IsInRange (dimensions width height) top result }
    {
        let shift = shift_of(corners);
        if are_beside(corners, shift, width, height) {
            return Reached::Outside;
        }
        let nearest = nearest_of(corners);
        if nearest < i64::from(near) {
            return Reached::Visible;
        }
        let rect = proposed_rect(corners, shift, width, height);
        if is_empty(&rect) {
            return if is_certain(&rect, corners, width, height) {
                Reached::Outside
            } else {
                Reached::Visible
            };
        }
        match nearness_at(nearest, near, share, top) {
            Some(nearness) => Reached::At { rect, nearness },
            None => Reached::Visible,
        }
    }

    /// Where it is seen, and how near it comes. Visible also where nothing is certain. Conditions as for `proposed`.
    pub fn of(corners: &[Held], near: u32, width: u32, height: u32, share: u32, top: u32) -> Reached
        requires near { 0 < near }
        requires width { width ≤ 2048 }
        requires height { height ≤ 2048 }
        requires share { share ≤ 2 ^ 20 }
        requires top { top < 2 ^ 24 }
        ensures says { (unit : ℕ) → (points : List Clip) → AllZip (Holds unit) corners.now points
            → Says (dimensions width height) top (pos (near * unit)) share points result }
        ensures in_range { IsInRange (dimensions width height) top result }
    {
        match Reached::proposed(corners, near, width, height, share, top) {
            Reached::Outside => Reached::Outside,
            Reached::Visible => Reached::Visible,
            Reached::At { rect, nearness } => {
                if is_certain(&rect, corners, width, height) {
                    Reached::At { rect, nearness }
                } else {
                    Reached::Visible
                }
            }
        }
    }
}
