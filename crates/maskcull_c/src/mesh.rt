//! Meshes in the caller's memory, asked triangle by triangle.
ghost use Rattle.std.specs.Prelude.{◌≡◌, ◌≤◌, false, length, map};
ghost use Rattle.std.specs.List.{All, list_all, list_any};
ghost use Rattle.cull_base.specs.Grade.{top_of};
ghost use Rattle.cull_base.specs.Guard.{is_past_guard};
ghost use Rattle.cull_base.specs.Screen.{IsSize};
ghost use Rattle.masked_update.specs.TileOf.{tile_at};
ghost use Rattle.masked_update.specs.Views.{state_in};
ghost use Rattle.mesh_query.specs.Asked.{Tells, at_first};
ghost use Rattle.mesh_query.specs.Meshes.{at_some_vertex, mesh_shape, near_boxes, object_pieces};
ghost use Rattle.maskcull_c.specs.Asked.{is_all_behind, is_part_past_guard, verdict_over};
ghost use Rattle.maskcull_c.specs.Given.{IsAmong, clip_of, tri_of};
ghost use Rattle.maskcull_c.specs.Tiles.{AreAll};

use crate::given::{Triangle, Vertex, clips_of};
use camera_path::{is_behind, past_guard};
use cull_base::{Grade, Size, Verdict};
use masked_update::{PlainView, TileState};
use mesh_query::{Progress, ask_triangle};

#[tactic(auto, unfolding(crate::specs::Asked::is_all_behind))]
fn is_triangle_behind(vertices: &[Vertex], triangle: &Triangle, near: u16) -> bool
    requires { IsAmong (length vertices.now) triangle.now }
    ensures { result ≡ is_all_behind near vertices.now triangle.now }
{
    clips_of(vertices, triangle)
        .iter()
        .all(|vertex| is_behind(vertex, near))
}

fn is_triangle_past_guard(vertices: &[Vertex], triangle: &Triangle, near: u16) -> bool
    requires least { 1 ≤ near }
    requires most { near ≤ 1024 }
    requires among { IsAmong (length vertices.now) triangle.now }
    ensures { result ≡ is_part_past_guard near vertices.now triangle.now }
{
    clips_of(vertices, triangle)
        .iter()
        .any(|vertex| past_guard(vertex, near))
}

fn are_all_behind(vertices: &[Vertex], triangles: &[Triangle], near: u16) -> bool
    requires { All (IsAmong (length vertices.now)) triangles.now }
    ensures { result ≡ list_all (is_all_behind near vertices.now) triangles.now }
{
    triangles
        .iter()
        .all(|triangle| is_triangle_behind(vertices, triangle, near))
}

fn is_one_past_guard(vertices: &[Vertex], triangles: &[Triangle], near: u16) -> bool
    requires least { 1 ≤ near }
    requires most { near ≤ 1024 }
    requires among { All (IsAmong (length vertices.now)) triangles.now }
    ensures { result ≡ list_any (is_part_past_guard near vertices.now) triangles.now }
{
    triangles.iter().any(|triangle| is_triangle_past_guard(vertices, triangle, near))
}

// What is known after all triangles, or None where a sample that one touches isn't hidden.
fn ask_triangles(
    tiles: &[TileState],
    size: Size,
    near: u16,
    vertices: &[Vertex],
    triangles: &[Triangle],
    grade: Grade,
) -> Option<Progress>
    requires least { 1 ≤ near }
    requires most { near ≤ 1024 }
    requires sized { IsSize size.width size.height }
    requires all { AreAll size tiles.now }
    requires among { All (IsAmong (length vertices.now)) triangles.now }
    requires guarded { at_some_vertex (map clip_of vertices.now) (λ v. is_past_guard v near)
        (map tri_of triangles.now) ≡ false }
    ensures { Tells (state_in size (tile_at tiles.now)) size
        (object_pieces (top_of grade) near size (map clip_of vertices.now) (map tri_of triangles.now))
        (near_boxes near size (map clip_of vertices.now) (map tri_of triangles.now)) at_first result }
{
    let view = PlainView::new(tiles);
    let mut now = Progress {
        met: false,
        touched: false,
    };
    for triangle in triangles {
        now = ask_triangle(&view, size, near, &clips_of(vertices, triangle), now, grade)?;
    }
    Some(now)
}

/// The verdict of a mesh: outside where all vertices are before the near distance, or where there are none; else
/// visible where one is past the guard; else by its triangles. Conditions: `near` is 1 to 1024, the tiles are all of
/// the screen's, and each triangle names vertices that are there.
pub(crate) fn mesh_verdict(
    tiles: &[TileState],
    size: Size,
    near: u16,
    vertices: &[Vertex],
    triangles: &[Triangle],
    grade: Grade,
) -> Verdict
    requires least { 1 ≤ near }
    requires most { near ≤ 1024 }
    requires all { AreAll size tiles.now }
    requires among { All (IsAmong (length vertices.now)) triangles.now }
    ensures { result ≡ verdict_over size tiles.now
        (mesh_shape (top_of grade) near size (map clip_of vertices.now) (map tri_of triangles.now)) }
{
    // an accessor tells what is held of a size
    let _width = size.width();
    if are_all_behind(vertices, triangles, near) {
        return Verdict::Outside;
    }
    if is_one_past_guard(vertices, triangles, near) {
        return Verdict::Visible;
    }
    match ask_triangles(tiles, size, near, vertices, triangles, grade) {
        None => Verdict::Visible,
        Some(found) => if !found.met {
            Verdict::Outside
        } else if found.touched {
            Verdict::Occluded
        } else {
            Verdict::Visible
        },
    }
}
