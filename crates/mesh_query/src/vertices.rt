//! What the vertices of a mesh alone decide.
ghost use Rattle.std.specs.Prelude.{◌≡◌, length};
ghost use Rattle.std.specs.List.{All, list_all, list_any};
ghost use Rattle.cull_base.specs.Guard.{is_past_guard};
ghost use Rattle.cull_base.specs.NearPlane.{is_behind};
ghost use Rattle.snap_setup.specs.Pieces.{HasClips};
ghost use Rattle.mesh_query.specs.Meshes.{vertices_of, at_each_vertex, at_some_vertex, early_verdict_of};

use camera_path::{is_behind, past_guard};
use cull_base::{ClipVertex, Near, Tri, Verdict};
use snap_setup::corners;

fn is_triangle_behind(clips: &[ClipVertex], tri: &Tri, near: u16) -> bool
    requires { HasClips (length clips.now) tri.now }
    ensures { result ≡ list_all (is_behind near) (vertices_of clips.now tri.now) }
{
    corners(clips, tri)
        .iter()
        .all(|vertex| is_behind(vertex, near))
}

fn is_triangle_past_guard(clips: &[ClipVertex], tri: &Tri, near: Near) -> bool
    requires { HasClips (length clips.now) tri.now }
    ensures { result ≡ list_any (λ v. is_past_guard v near.distance) (vertices_of clips.now tri.now) }
{
    corners(clips, tri)
        .iter()
        .any(|vertex| past_guard(vertex, near.distance))
}

fn are_all_behind(clips: &[ClipVertex], tris: &[Tri], near: u16) -> bool
    requires { All (HasClips (length clips.now)) tris.now }
    ensures { result ≡ at_each_vertex clips.now (is_behind near) tris.now }
{
    tris.iter().all(|tri| is_triangle_behind(clips, tri, near))
}

fn is_one_past_guard(clips: &[ClipVertex], tris: &[Tri], near: Near) -> bool
    requires { All (HasClips (length clips.now)) tris.now }
    ensures { result ≡ at_some_vertex clips.now (λ v. is_past_guard v near.distance) tris.now }
{
    tris.iter()
        .any(|tri| is_triangle_past_guard(clips, tri, near))
}

/// The verdict that the vertices alone decide: outside where all are before the near distance, or where there are none,
/// else visible where one is past the guard. Condition: each index is below the number of clips.
pub fn early_verdict(clips: &[ClipVertex], tris: &[Tri], near: Near) -> Option<Verdict>
    requires { All (HasClips (length clips.now)) tris.now }
    ensures { result ≡ early_verdict_of near.distance clips.now tris.now }
{
    if are_all_behind(clips, tris, near.distance) {
        Some(Verdict::Outside)
    } else if is_one_past_guard(clips, tris, near) {
        Some(Verdict::Visible)
    } else {
        None
    }
}
