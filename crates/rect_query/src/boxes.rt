//! Boxes in space, each by the clip vertices of its corners, and their rectangles on the screen.
ghost use Rattle.std.specs.Prelude.{◌≡◌, pos, ◌<◌, ◌≤◌, ◌≤ℤ◌, ◌||◌, false, length, map};
ghost use Rattle.std.specs.List.{All, list_all, list_any};
ghost use Rattle.cull_base.specs.Grade.{top_of};
ghost use Rattle.cull_base.specs.Guard.{is_past_guard};
ghost use Rattle.cull_base.specs.NearPlane.{is_behind};
ghost use Rattle.cull_base.specs.Piece.{least_of};
ghost use Rattle.rect_query.specs.Boxes.{box_answer, box_rect_of};
ghost use Rattle.rect_query.specs.Reaches.{reach_of_all};

use crate::ratio::{Way, extent};
use crate::reach::Reach;
use crate::rectangle::nearness;
use cull_base::{ClipVertex, Grade, Near, Rect, Size};
use snap_setup::rect_between;

/// Where a box stands: behind the near plane, on both sides of it or past the guard, or before the viewer with a
/// rectangle on the screen, which isn't cut to it, and one nearness.
#[derive(Clone, Copy, Debug, PartialEq, Eq)]
pub enum BoxAnswer {
    Outside,
    Straddles,
    At { rect: Rect, q: u32 },
}

fn are_all_behind(corners: &[ClipVertex; 8], reach: &Reach, near: u16) -> bool
    requires reach { reach.now ≡ reach_of_all corners.now }
    requires some { 0 < length corners.now }
    ensures { result ≡ list_all (is_behind near) corners.now }
{
    reach.is_behind(near)
}

// Whether a corner is past the guard or behind the near plane.
fn is_one_astray(corners: &[ClipVertex; 8], reach: &Reach, near: Near) -> bool
    requires reach { reach.now ≡ reach_of_all corners.now }
    requires some { 0 < length corners.now }
    ensures { result
        ≡ list_any (λ v. is_past_guard v near.distance || is_behind near.distance v) corners.now }
{
    reach.is_astray(near)
}

// The least distance of some corners.
fn least_w(corners: &[ClipVertex; 8], reach: &Reach, near: Near) -> i32
    requires reach { reach.now ≡ reach_of_all corners.now }
    requires some { 0 < length corners.now }
    requires guarded { All (λ v. is_past_guard v near.distance ≡ false) corners.now }
    requires front { All (λ v. is_behind near.distance v ≡ false) corners.now }
    ensures value { result ≡ least_of (map (λ v. v.w) corners.now) }
    ensures front { pos near.distance ≤ℤ result }
{
    reach.w.least as i32
}

// The pixels that the corners reach on the screen.
fn rect_around<C>(corners: &[ClipVertex; 8], near: Near, size: Size) -> Rect
    requires guarded { All (λ v. is_past_guard v near.distance ≡ false) corners.now }
    requires front { All (λ v. is_behind near.distance v ≡ false) corners.now }
    ensures { result ≡ box_rect_of size corners.now }
{
    let across = extent(corners, near, size, Way::Across);
    let down = extent(corners, near, size, Way::Down);
    rect_between(across, down)
}

// Who asks where a box stands. Each has a copy of the code, so that it is inlined where boxes are asked one by one.
struct OneByOne;

struct ForOthers;

// Where a box stands, by its eight corners.
#[tactic(auto, unfolding(crate::specs::Boxes::box_answer))]
fn answer_of<C>(corners: &[ClipVertex; 8], near: u16, size: Size, grade: Grade) -> BoxAnswer
    requires least { 1 ≤ near }
    requires most { near ≤ 1024 }
    ensures { result ≡ box_answer (top_of grade) near size corners.now }
{
    let reach = Reach::of_all(corners);
    if are_all_behind(corners, &reach, near) {
        return BoxAnswer::Outside;
    }
    let near = Near { distance: near };
    if is_one_astray(corners, &reach, near) {
        return BoxAnswer::Straddles;
    }
    BoxAnswer::At {
        rect: rect_around::<C>(corners, near, size),
        q: nearness(least_w(corners, &reach, near), near, grade),
    }
}

/// Where a box stands, by its eight corners: outside where all are before the near distance, else straddling where one
/// is or is past the guard, else at the rectangle around them on the screen, with the nearness of the least distance.
/// The grade is that by which the pieces were set up, as for `rect_near`. Condition: `near` is 1 to 1024.
pub fn box_rect(corners: &[ClipVertex; 8], near: u16, size: Size, grade: Grade) -> BoxAnswer
    requires least { 1 ≤ near }
    requires most { near ≤ 1024 }
    ensures { result ≡ box_answer (top_of grade) near size corners.now }
{
    answer_of::<OneByOne>(corners, near, size, grade)
}

/// The same of a box that is asked for others, by code of its own: so that of `box_rect` is inlined where many boxes are
/// asked one by one.
pub fn box_rect_for_others(
    corners: &[ClipVertex; 8],
    near: u16,
    size: Size,
    grade: Grade,
) -> BoxAnswer
    requires least { 1 ≤ near }
    requires most { near ≤ 1024 }
    ensures { result ≡ box_answer (top_of grade) near size corners.now }
{
    answer_of::<ForOthers>(corners, near, size, grade)
}
