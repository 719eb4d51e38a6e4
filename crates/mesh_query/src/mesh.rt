//! A mesh, tested against the tiles triangle by triangle.
ghost use Rattle.std.specs.Prelude.{◌≡◌, ◌≤◌, false, not, length, map, IfSome};
ghost use Rattle.std.specs.Option.{option_to_list};
ghost use Rattle.std.specs.List.{All, Contains, list_all};
ghost use Rattle.cull_base.specs.Grade.{top_of};
ghost use Rattle.cull_base.specs.Guard.{is_past_guard};
ghost use Rattle.cull_base.specs.NearPlane.{is_behind};
ghost use Rattle.cull_base.specs.Piece.{Piece, IsPiece, box_of};
ghost use Rattle.cull_base.specs.Screen.{IsSize};
ghost use Rattle.cull_base.specs.Shape.{area_of, verdict_of};
ghost use Rattle.masked_update.specs.Views.{HoldsMet, state_in};
ghost use Rattle.snap_setup.specs.Pieces.{HasClips};
ghost use Rattle.snap_setup.specs.Triangles.{pieces_of_triangle, near_box_of_triangle};
ghost use Rattle.mesh_query.specs.Asked.{Tells, at_first};
ghost use Rattle.mesh_query.specs.Meshes.{near_box_at, near_boxes, object_pieces, mesh_shape};
ghost use Rattle.mesh_query.specs.Meshes.{is_one_on_screen, at_some_vertex};

use crate::piece::MeshPiece;
use crate::vertices::early_verdict;
use camera_path::is_behind;
use cull_base::{ClipVertex, Grade, Near, Side, Size, Tri, Verdict, Winding};
use masked_update::TileView;
use snap_setup::{Pieces, corners, near_box, set_up};

/// What is known of a mesh so far: whether a near box meets the screen, and whether a sample is touched.
#[derive(Clone, Copy)]
pub struct Progress {
    pub met: bool,
    pub touched: bool,
}

// Tests the pieces of a triangle. Each box of a piece that meets the screen tells that the near box does.
fn ask_pieces<V: TileView>(
    view: &V,
    size: Size,
    pieces: &Pieces,
    before: Progress,
) -> Option<Progress>
    requires valid { All IsPiece pieces.now }
    requires holds { (t : Piece) → Contains pieces.now t → HoldsMet (V.held view.now) size (box_of t) }
    ensures { Tells (state_in size (V.tile_of view.now)) size
        pieces.now (map box_of pieces.now) before result }
{
    let screen = size.screen();
    let mut met = before.met;
    let mut touched = before.touched;
    for i in 0..pieces.len() {
        let piece = pieces.get(i);
        let reached = piece.boxed();
        if reached.meets(&screen) {
            met = true;
            touched = MeshPiece::of(&piece).ask(view, size, &reached, touched)?;
        }
    }
    Some(Progress { met, touched })
}

fn is_all_in_front(vertices: &[ClipVertex; 3], near: u16) -> bool
    ensures { result ≡ list_all (λ v. not (is_behind near v)) vertices.now }
{
    vertices.iter().all(|vertex| !is_behind(vertex, near))
}

// Whether the near box of a triangle meets the screen.
fn is_box_on_screen(vertices: &[ClipVertex; 3], near: Near, size: Size) -> bool
    requires guarded { All (λ v. is_past_guard v near.distance ≡ false) vertices.now }
    ensures { result
        ≡ is_one_on_screen size (option_to_list (near_box_of_triangle vertices.now near.distance size)) }
{
    match near_box(vertices, near.distance, size) {
        Some(rect) => rect.meets(&size.screen()),
        None => false,
    }
}

/// Tests a triangle of a mesh: what is known of the mesh with it, or None where a sample that it touches isn't hidden.
/// The near box is made only where no box of a piece tells whether it meets the screen. Conditions: as for `mesh_test`,
/// and no vertex is past the guard.
pub fn ask_triangle<V: TileView>(
    view: &V,
    size: Size,
    near: u16,
    vertices: &[ClipVertex; 3],
    before: Progress,
    grade: Grade,
) -> Option<Progress>
    requires least { 1 ≤ near }
    requires most { near ≤ 1024 }
    requires sized { IsSize size.width size.height }
    requires guarded { All (λ v. is_past_guard v near ≡ false) vertices.now }
    requires holds { IfSome (near_box_of_triangle vertices.now near size)
        (λ r. HoldsMet (V.held view.now) size r) }
    ensures { Tells (state_in size (V.tile_of view.now)) size
        (pieces_of_triangle vertices.now (top_of grade) near size Winding.Both Side.Object)
        (option_to_list (near_box_of_triangle vertices.now near size)) before result }
{
    let pieces = set_up(vertices, near, size, Winding::Both, Side::Object, grade);
    let now = ask_pieces(view, size, &pieces, before)?;
    if now.met {
        return Some(now);
    }
    // a triangle that nothing cuts has the box of its only piece, which didn't meet the screen
    if pieces.len() == 1 && is_all_in_front(vertices, near) {
        return Some(now);
    }
    Some(Progress {
        met: is_box_on_screen(vertices, Near { distance: near }, size),
        touched: now.touched,
    })
}

// Tests the triangles of a mesh that has no vertex past the guard.
fn ask_triangles<V: TileView>(
    view: &V,
    size: Size,
    near: Near,
    clips: &[ClipVertex],
    tris: &[Tri],
    grade: Grade,
) -> Option<Progress>
    requires sized { IsSize size.width size.height }
    requires indices { All (HasClips (length clips.now)) tris.now }
    requires guarded { at_some_vertex clips.now (λ v. is_past_guard v near.distance) tris.now ≡ false }
    requires holds { All (λ t. IfSome (near_box_at near.distance size clips.now t)
        (λ r. HoldsMet (V.held view.now) size r)) tris.now }
    ensures { Tells (state_in size (V.tile_of view.now)) size
        (object_pieces (top_of grade) near.distance size clips.now tris.now)
        (near_boxes near.distance size clips.now tris.now) at_first result }
{
    let mut now = Progress {
        met: false,
        touched: false,
    };
    for tri in tris {
        now = ask_triangle(view, size, near.distance, &corners(clips, tri), now, grade)?;
    }
    Some(now)
}

/// The verdict of a mesh, by its triangles among clip vertices: outside where all vertices are before the near
/// distance, or where there are none; else visible where one is past the guard; else outside where no near box meets
/// the screen; else occluded where a sample in the screen is touched, and each hides the high bounds of the pieces
/// that touch it; else visible. The grade is that by which the occluders were set up. Conditions: `near` is 1 to 1024,
/// each index is below the number of clips, and the view holds each tile that the mesh's area meets.
pub fn mesh_test<V: TileView>(
    view: &V,
    size: Size,
    near: u16,
    clips: &[ClipVertex],
    tris: &[Tri],
    grade: Grade,
) -> Verdict
    requires least { 1 ≤ near }
    requires most { near ≤ 1024 }
    requires indices { All (HasClips (length clips.now)) tris.now }
    requires holds { HoldsMet (V.held view.now) size
        (area_of size (mesh_shape (top_of grade) near size clips.now tris.now)) }
    ensures { result ≡ verdict_of size (state_in size (V.tile_of view.now))
        (mesh_shape (top_of grade) near size clips.now tris.now) }
{
    // an accessor tells what is held of a size
    let _width = size.width();
    let near = Near { distance: near };
    if let Some(verdict) = early_verdict(clips, tris, near) {
        return verdict;
    }
    let Some(found) = ask_triangles(view, size, near, clips, tris, grade) else {
        return Verdict::Visible;
    };
    if !found.met {
        Verdict::Outside
    } else if found.touched {
        Verdict::Occluded
    } else {
        Verdict::Visible
    }
}
