//! The pixels over which a mesh is tested.
ghost use Rattle.std.specs.Prelude.{◌≡◌, ℕ, ◌≤◌, [], ◌∷◌, true, false, length, MatchOption};
ghost use Rattle.std.specs.List.{All};
ghost use Rattle.cull_base.specs.Guard.{is_past_guard};
ghost use Rattle.cull_base.specs.Shape.{area_of};
ghost use Rattle.snap_setup.specs.Pieces.{HasClips};
ghost use Rattle.mesh_query.specs.Meshes.{near_boxes, hull_of, is_one_on_screen, at_some_vertex, mesh_shape};

use crate::vertices::early_verdict;
use cull_base::{ClipVertex, NO_PIXELS, Near, Rect, Size, Tri};
use snap_setup::{corners, near_box};

// The smallest rectangle that holds two.
fn around(a: &Rect, b: &Rect) -> Rect
    ensures { result ≡ hull_of (a.now ∷ b.now ∷ []) }
{
    Rect {
        x0: a.x0.min(b.x0),
        y0: a.y0.min(b.y0),
        x1: a.x1.max(b.x1),
        y1: a.y1.max(b.y1),
    }
}

// The smallest rectangle that holds the near boxes of some triangles, where one of these meets the screen.
fn hull(size: Size, near: Near, clips: &[ClipVertex], tris: &[Tri]) -> Option<Rect>
    requires indices { All (HasClips (length clips.now)) tris.now }
    requires guarded { at_some_vertex clips.now (λ v. is_past_guard v near.distance) tris.now ≡ false }
    ensures { let boxes = near_boxes near.distance size clips.now tris.now in MatchOption result
        (is_one_on_screen size boxes ≡ false)
        (λ r. (is_one_on_screen size boxes ≡ true) × (r ≡ hull_of boxes)) }
{
    let screen = size.screen();
    let mut hull = None;
    let mut met = false;
    for tri in tris {
        if let Some(rect) = near_box(&corners(clips, tri), near.distance, size) {
            met |= rect.meets(&screen);
            hull = Some(match hull {
                Some(so_far) => around(&so_far, &rect),
                None => rect,
            });
        }
    }
    if met { hull } else { None }
}

/// The pixels of the screen over which a mesh is tested, by its triangles among clip vertices: the smallest rectangle
/// that holds their near boxes, cut to the screen; none where the mesh is outside or visible before any sample is
/// looked at. It is the same in both grades. Conditions: `near` is 1 to 1024, and each index is below the number of
/// clips.
pub fn mesh_area(size: Size, near: u16, clips: &[ClipVertex], tris: &[Tri]) -> Rect
    requires least { 1 ≤ near }
    requires most { near ≤ 1024 }
    requires indices { All (HasClips (length clips.now)) tris.now }
    ensures { (top : ℕ) → result ≡ area_of size (mesh_shape top near size clips.now tris.now) }
{
    let near = Near { distance: near };
    if early_verdict(clips, tris, near).is_some() {
        return NO_PIXELS;
    }
    match hull(size, near, clips, tris) {
        Some(rect) => rect.cut(&size.screen()),
        None => NO_PIXELS,
    }
}
