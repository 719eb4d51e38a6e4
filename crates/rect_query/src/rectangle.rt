//! Rectangles of pixels with one nearness, tested against what the tiles hold.
ghost use Rattle.std.specs.Prelude.{◌≡◌, ℕ, ℤ, pos, ◌≤ℤ◌, ◌<ℤ◌, ◌≤◌, MatchOption, IfSome};
ghost use Rattle.cull_base.specs.Grade.{top_of};
ghost use Rattle.cull_base.specs.Shape.{flat_shape, verdict_of};
ghost use Rattle.masked_update.specs.Views.{HoldsMet, state_in};
ghost use Rattle.rect_query.specs.Rectangles.{nearness_at};

use crate::area::{Area, is_area_hiding};
use cull_base::{Grade, Near, Rect, Size, Verdict};
use masked_update::TileView;

/// The nearness of an object at distance w, rounded up. Condition: w isn't before the near distance.
pub(crate) fn nearness(w: i32, near: Near, grade: Grade) -> u32
    requires { pos near.distance ≤ℤ w }
    ensures value { result ≡ nearness_at (top_of grade) near.distance w }
    ensures within { result ≤ top_of grade }
{
    let scaled = u64::from(grade.top()) * u64::from(near.distance);
    scaled.div_ceil(w as u64) as u32
}

/// The nearness of an object at distance w, rounded up. None exactly where w is before the near distance. The grade is
/// that by which the pieces were set up: tiles don't know it, and what was drawn in the wide grade hides all that is
/// asked in the narrow one. Condition: `near` is 1 to 1024.
pub fn rect_near(w: i32, near: u16, grade: Grade) -> Option<u32>
    requires least { 1 ≤ near }
    requires most { near ≤ 1024 }
    ensures value { MatchOption result (w <ℤ pos near)
        (λ q. (pos near ≤ℤ w) × (q ≡ nearness_at (top_of grade) near w)) }
    ensures within { IfSome result (λ q. q ≤ top_of grade) }
{
    if w < i32::from(near) {
        return None;
    }
    Some(nearness(w, Near { distance: near }, grade))
}

/// The verdict of a rectangle with nearness q: outside without a pixel in the screen, else occluded where the sample
/// of each of its pixels in the screen hides q, else visible. Condition: the view holds each tile that the rectangle
/// meets.
pub fn rect_test<V: TileView>(view: &V, size: Size, rect: Rect, q: u32) -> Verdict
    requires { HoldsMet (V.held view.now) size rect }
    ensures { result ≡ verdict_of size (state_in size (V.tile_of view.now)) (flat_shape size rect q) }
{
    let screen = size.screen();
    if !rect.meets(&screen) {
        return Verdict::Outside;
    }
    if is_area_hiding(view, size, &Area::of(&rect, size), q) {
        Verdict::Occluded
    } else {
        Verdict::Visible
    }
}
