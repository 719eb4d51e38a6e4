//! The pixels that a triangle's part in front of the near plane may reach.
ghost use Rattle.std.specs.Prelude.{◌≡◌, ◌≤◌, [], ◌∷◌, false, ◌↔◌, IsNone};
ghost use Rattle.std.specs.List.{All};
ghost use Rattle.cull_base.specs.Guard.{is_past_guard};
ghost use Rattle.cull_base.specs.Piece.{least_of, greatest_of};
ghost use Rattle.near_clip.specs.NearPart.{corner, is_in_front};
ghost use Rattle.snap_setup.specs.Boxes.{rect_between};
ghost use Rattle.snap_setup.specs.Pieces.{near_box_of};

use crate::snapping::place_of;
use cull_base::{ClipVertex, Extent, Rect, Size};
use near_clip::clip_near;

/// The rectangle that two extents reach: from the first pixel of each to before its end.
pub fn rect_between(across: Extent, down: Extent) -> Rect
    ensures { result ≡ rect_between across down }
{
    Rect {
        x0: across.first_pixel(),
        y0: down.first_pixel(),
        x1: across.end_pixel(),
        y1: down.end_pixel(),
    }
}

/// The box of the clipped polygon on the screen, not cut to it, whatever the polygon's area. None exactly where all
/// of the triangle is behind the near plane. Condition: `near` is 1 to 1024 and no vertex is past the guard.
pub fn near_box(tri: &[ClipVertex; 3], near: u16, size: Size) -> Option<Rect>
    requires near_least { 1 ≤ near }
    requires near_most { near ≤ 1024 }
    requires guarded { All (λ v. is_past_guard v near ≡ false) tri.now }
    ensures value { result ≡ near_box_of (corner tri.now 0) (corner tri.now 1) (corner tri.now 2) near size }
    ensures none { IsNone result ↔ All (λ v. is_in_front v near ≡ false) tri.now }
{
    let polygon = clip_near(tri, near);
    if polygon.len() == 0 {
        return None;
    }
    let p0 = place_of(&polygon.get(0), near, size);
    let p1 = place_of(&polygon.get(1), near, size);
    let p2 = place_of(&polygon.get(2), near, size);
    let across = Extent::of_three(&[p0.x, p1.x, p2.x]);
    let down = Extent::of_three(&[p0.y, p1.y, p2.y]);
    if polygon.len() == 3 {
        return Some(rect_between(across, down));
    }
    let p3 = place_of(&polygon.get(3), near, size);
    Some(rect_between(across.with(p3.x), down.with(p3.y)))
}
