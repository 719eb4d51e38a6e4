//! Rectangles, boxes and meshes, tested against what tiles hold.
ghost use Rattle.std.specs.Prelude.{◌≡◌, ◌≤◌, ◌↔◌, IsTrue, length, map};
ghost use Rattle.std.specs.List.{All};
ghost use Rattle.cull_base.specs.Grade.{top_of};
ghost use Rattle.rect_query.specs.Boxes.{box_shape};
ghost use Rattle.rect_query.specs.Rectangles.{rectangle_shape};
ghost use Rattle.maskcull_c.specs.Asked.{shape_of_area, shape_of_box, shape_of_mesh, verdict_over};
ghost use Rattle.maskcull_c.specs.Given.{IsAmong, IsSetup, clip_of, size_of};
ghost use Rattle.maskcull_c.specs.Tiles.{AreAll, Hides, IsAnswer, code_of};
ghost use Rattle.maskcull_c.specs.declared.status.TheConstants.{BAD_SETUP, BAD_TILES, BAD_INDEX, VISIBLE, OUTSIDE};

use crate::given::{Area, Corners, Setup, Triangle, Vertex, are_among};
use crate::mesh::mesh_verdict;
use crate::status::{BAD_INDEX, BAD_SETUP, BAD_TILES, OCCLUDED, OUTSIDE, VISIBLE};
use cull_base::{ClipVertex, Grade, Rect, Size, Verdict};
use masked_update::{PlainView, TileState};
use rect_query::{BoxAnswer, box_rect, rect_near, rect_test};

// The number of a verdict.
pub(crate) fn code(verdict: Verdict) -> u32
    ensures value { result ≡ code_of verdict }
    ensures least { VISIBLE ≤ result }
    ensures most { result ≤ OUTSIDE }
{
    match verdict {
        Verdict::Visible => VISIBLE,
        Verdict::Occluded => OCCLUDED,
        Verdict::Outside => OUTSIDE,
    }
}

// Whether there are as many tiles as the screen has.
pub(crate) fn are_all(tiles: &[TileState], size: Size) -> bool
    ensures { IsTrue result ↔ AreAll size tiles.now }
{
    tiles.len() == size.tile_count() as usize
}

// A rectangle at distance w: visible before the near distance where it has a pixel in the screen.
fn rectangle_verdict(
    tiles: &[TileState],
    size: Size,
    near: u16,
    rect: Rect,
    w: i32,
    grade: Grade,
) -> Verdict
    requires least { 1 ≤ near }
    requires most { near ≤ 1024 }
    requires all { AreAll size tiles.now }
    ensures { result ≡ verdict_over size tiles.now (rectangle_shape (top_of grade) near size rect w) }
{
    match rect_near(w, near, grade) {
        Some(q) => rect_test(&PlainView::new(tiles), size, rect, q),
        None => if rect.meets(&size.screen()) {
            Verdict::Visible
        } else {
            Verdict::Outside
        },
    }
}

// The corners of a box as clip vertices.
fn clips(corners: &Corners) -> [ClipVertex; 8]
    ensures { result ≡ map clip_of corners.now.corners }
{
    let [a, b, c, d, e, f, g, h] = &corners.corners;
    [
        a.clip(),
        b.clip(),
        c.clip(),
        d.clip(),
        e.clip(),
        f.clip(),
        g.clip(),
        h.clip(),
    ]
}

// A box, by its eight corners.
fn box_verdict(
    tiles: &[TileState],
    size: Size,
    near: u16,
    corners: &Corners,
    grade: Grade,
) -> Verdict
    requires least { 1 ≤ near }
    requires most { near ≤ 1024 }
    requires all { AreAll size tiles.now }
    ensures { result ≡ verdict_over size tiles.now
        (box_shape (top_of grade) near size (map clip_of corners.now.corners)) }
{
    match box_rect(&clips(corners), near, size, grade) {
        BoxAnswer::Outside => Verdict::Outside,
        BoxAnswer::Straddles => Verdict::Visible,
        BoxAnswer::At { rect, q } => rect_test(&PlainView::new(tiles), size, rect, q),
    }
}

/// Tests the pixels from (x0, y0) to before (x1, y1) at distance w: occluded where each in the screen is hidden at its
/// sample, outside where none is in the screen, else visible.
#[unsafe(no_mangle)]
pub extern "C" fn maskcull_test(setup: &Setup, tiles: &[TileState], area: &Area, w: i32) -> u32
    ensures value { IsSetup setup.now → AreAll (size_of setup.now) tiles.now
        → result ≡ code_of (verdict_over (size_of setup.now) tiles.now (shape_of_area setup.now area.now w)) }
    ensures hides { Hides (size_of setup.now) tiles.now (shape_of_area setup.now area.now w) result }
    ensures bad_setup { result ≡ BAD_SETUP → IsSetup setup.now → ⊥ }
    ensures bad_tiles { result ≡ BAD_TILES → AreAll (size_of setup.now) tiles.now → ⊥ }
    ensures refuses_setup { (IsSetup setup.now → ⊥) → result ≡ BAD_SETUP }
    ensures refuses_tiles { IsSetup setup.now → (AreAll (size_of setup.now) tiles.now → ⊥) → result ≡ BAD_TILES }
    ensures known { IsAnswer 2 result }
{
    let Some(checked) = setup.checked() else {
        return BAD_SETUP;
    };
    if !are_all(tiles, checked.size) {
        return BAD_TILES;
    }
    code(rectangle_verdict(
        tiles,
        checked.size,
        checked.near,
        area.rect(),
        w,
        checked.grade,
    ))
}

/// Tests a box by the clip vertices of its corners, as a rectangle around them that is as near as the nearest: visible
/// where it straddles the near plane or the guard, outside where all of it is behind the near plane.
#[unsafe(no_mangle)]
pub extern "C" fn maskcull_test_box(setup: &Setup, tiles: &[TileState], corners: &Corners) -> u32
    ensures value { IsSetup setup.now → AreAll (size_of setup.now) tiles.now
        → result ≡ code_of (verdict_over (size_of setup.now) tiles.now (shape_of_box setup.now corners.now)) }
    ensures hides { Hides (size_of setup.now) tiles.now (shape_of_box setup.now corners.now) result }
    ensures bad_setup { result ≡ BAD_SETUP → IsSetup setup.now → ⊥ }
    ensures bad_tiles { result ≡ BAD_TILES → AreAll (size_of setup.now) tiles.now → ⊥ }
    ensures refuses_setup { (IsSetup setup.now → ⊥) → result ≡ BAD_SETUP }
    ensures refuses_tiles { IsSetup setup.now → (AreAll (size_of setup.now) tiles.now → ⊥) → result ≡ BAD_TILES }
    ensures known { IsAnswer 2 result }
{
    let Some(checked) = setup.checked() else {
        return BAD_SETUP;
    };
    if !are_all(tiles, checked.size) {
        return BAD_TILES;
    }
    code(box_verdict(tiles, checked.size, checked.near, corners, checked.grade))
}

/// Tests a mesh by its triangles, which are taken from both sides: visible where a vertex is past the guard, outside
/// where there is no triangle or all are behind the near plane.
#[unsafe(no_mangle)]
pub extern "C" fn maskcull_test_mesh(
    setup: &Setup,
    tiles: &[TileState],
    vertices: &[Vertex],
    triangles: &[Triangle],
) -> u32
    ensures value { IsSetup setup.now → AreAll (size_of setup.now) tiles.now
        → All (IsAmong (length vertices.now)) triangles.now → result ≡ code_of
        (verdict_over (size_of setup.now) tiles.now (shape_of_mesh setup.now vertices.now triangles.now)) }
    ensures hides { Hides (size_of setup.now) tiles.now
        (shape_of_mesh setup.now vertices.now triangles.now) result }
    ensures bad_setup { result ≡ BAD_SETUP → IsSetup setup.now → ⊥ }
    ensures bad_tiles { result ≡ BAD_TILES → AreAll (size_of setup.now) tiles.now → ⊥ }
    ensures bad_index { result ≡ BAD_INDEX → All (IsAmong (length vertices.now)) triangles.now → ⊥ }
    ensures refuses_setup { (IsSetup setup.now → ⊥) → result ≡ BAD_SETUP }
    ensures refuses_tiles { IsSetup setup.now → (AreAll (size_of setup.now) tiles.now → ⊥) → result ≡ BAD_TILES }
    ensures refuses_index { IsSetup setup.now → AreAll (size_of setup.now) tiles.now
        → (All (IsAmong (length vertices.now)) triangles.now → ⊥) → result ≡ BAD_INDEX }
    ensures known { IsAnswer 3 result }
{
    let Some(checked) = setup.checked() else {
        return BAD_SETUP;
    };
    if !are_all(tiles, checked.size) {
        return BAD_TILES;
    }
    if !are_among(triangles, vertices.len()) {
        return BAD_INDEX;
    }
    code(mesh_verdict(
        tiles,
        checked.size,
        checked.near,
        vertices,
        triangles,
        checked.grade,
    ))
}
