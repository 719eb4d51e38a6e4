//! Boxes and meshes of floats, tested against what tiles hold.
ghost use Rattle.std.specs.Prelude.{◌≡◌, length, map, List};
ghost use Rattle.std.specs.List.{All};
ghost use Rattle.box_rays.specs.Objects.{IsBeside};
ghost use Rattle.maskcull_c.specs.Asked.{verdict_over};
ghost use Rattle.maskcull_c.specs.Floats.{IsAnswerFor, IsMeshAnswerFor, IsView, MayStandFor, corners_of, joined, points_of, position_count, screen_of};
ghost use Rattle.maskcull_c.specs.Given.{IsAmong, IsSetup, size_of};
ghost use Rattle.maskcull_c.specs.Lenses.{IsMeshVerdict, MeetsScreen, shape_of};
ghost use Rattle.maskcull_c.specs.Tiles.{AreAll, IsAnswer};
ghost use Rattle.maskcull_c.specs.declared.status.TheConstants.{BAD_SETUP, BAD_TILES, BAD_INDEX, OUTSIDE};

use crate::ask::{are_all, code};
use crate::given::{Setup, Triangle, are_among};
use crate::lens::Lens;
use crate::status::{BAD_INDEX, BAD_SETUP, BAD_TILES};
use crate::view::{Bounds, View};
use box_rays::Reached;
use cull_base::{Size, Verdict};
use masked_update::{PlainView, TileState};
use rect_query::rect_test;

// Where a box is seen.
fn reached_by_box(setup: &Setup, view: &View, bounds: &Bounds) -> Reached
    requires setup { IsSetup setup.now }
    requires view { IsView setup.now view.now }
    ensures stands { MayStandFor setup.now view.now (corners_of view.now bounds.now) (shape_of result) }
    ensures meets { MeetsScreen (size_of setup.now) result }
{
    let Some(lens) = Lens::of(setup, view) else {
        return Reached::Visible;
    };
    match lens.rows.box_corners(&bounds.low, &bounds.high) {
        Some(corners) => lens.reached(&corners),
        None => Reached::Visible,
    }
}

// Where a triangle is seen. Condition: it names positions that are there.
fn reached_by_triangle(lens: &Lens, positions: &[u32], triangle: &Triangle) -> Reached
    requires { IsAmong (position_count lens.now.view.stride (length positions.now)) triangle.now }
    ensures stands { MayStandFor lens.now.setup lens.now.view
        (points_of lens.now.view positions.now triangle.now) (shape_of result) }
    ensures meets { MeetsScreen (size_of lens.now.setup) result }
{
    let Some(a) = lens.point(positions, triangle.a as usize) else {
        return Reached::Visible;
    };
    let Some(b) = lens.point(positions, triangle.b as usize) else {
        return Reached::Visible;
    };
    match lens.point(positions, triangle.c as usize) {
        Some(c) => lens.reached(&[a, b, c]),
        None => Reached::Visible,
    }
}

// The verdict on what is seen so.
fn verdict_on(tiles: &[TileState], size: Size, reached: Reached) -> Verdict
    requires all { AreAll size tiles.now }
    requires meets { MeetsScreen size reached }
    ensures { result ≡ verdict_over size tiles.now (shape_of reached) }
{
    match reached {
        Reached::Outside => Verdict::Outside,
        Reached::Visible => Verdict::Visible,
        Reached::At { rect, nearness } => rect_test(&PlainView::new(tiles), size, rect, nearness),
    }
}

// Two verdicts together.
fn joined(one: Verdict, other: Verdict) -> Verdict
    ensures { result ≡ joined one other }
{
    match one {
        Verdict::Visible => Verdict::Visible,
        Verdict::Outside => other,
        Verdict::Occluded => match other {
            Verdict::Visible => Verdict::Visible,
            Verdict::Occluded | Verdict::Outside => Verdict::Occluded,
        },
    }
}

// The verdict on triangles, each by itself. Condition: they name positions that are there.
fn triangles_verdict(
    tiles: &[TileState],
    size: Size,
    lens: &Lens,
    positions: &[u32],
    triangles: &[Triangle],
) -> Verdict
    requires all { AreAll size tiles.now }
    requires size { size ≡ size_of lens.now.setup }
    requires among { All (IsAmong (position_count lens.now.view.stride (length positions.now))) triangles.now }
    ensures { IsMeshVerdict lens.now.setup lens.now.view tiles.now positions.now triangles.now result }
{
    let mut verdict = Verdict::Outside;
    for triangle in triangles {
        let reached = reached_by_triangle(lens, positions, triangle);
        let next = joined(verdict, verdict_on(tiles, size, reached));
        if let Verdict::Visible = next {
            return Verdict::Visible;
        }
        verdict = next;
    }
    verdict
}

// The verdict on a mesh.
fn mesh_verdict(
    setup: &Setup,
    tiles: &[TileState],
    size: Size,
    view: &View,
    positions: &[u32],
    triangles: &[Triangle],
) -> Verdict
    requires setup { IsSetup setup.now }
    requires view { IsView setup.now view.now }
    requires all { AreAll size tiles.now }
    requires size { size ≡ size_of setup.now }
    requires among { All (IsAmong (position_count view.now.stride (length positions.now))) triangles.now }
    ensures { IsMeshVerdict setup.now view.now tiles.now positions.now triangles.now result }
{
    match Lens::of(setup, view) {
        Some(lens) => triangles_verdict(tiles, size, &lens, positions, triangles),
        None => if triangles.is_empty() {
            Verdict::Outside
        } else {
            Verdict::Visible
        },
    }
}

/// Tests a box of floats: occluded where all of it that is seen is hidden, outside where nothing of it is seen on the
/// screen, else visible; so where a number of it, of the matrix or the near distance is none.
#[unsafe(no_mangle)]
pub extern "C" fn maskcull_test_box_floats(
    setup: &Setup,
    tiles: &[TileState],
    view: &View,
    bounds: &Bounds,
) -> u32
    ensures value { IsSetup setup.now → IsView setup.now view.now → AreAll (size_of setup.now) tiles.now
        → IsAnswerFor setup.now view.now tiles.now (corners_of view.now bounds.now) result }
    ensures beside { result ≡ OUTSIDE → IsBeside (screen_of view.now) (corners_of view.now bounds.now) }
    ensures bad_setup { result ≡ BAD_SETUP → IsSetup setup.now → IsView setup.now view.now → ⊥ }
    ensures bad_tiles { result ≡ BAD_TILES → AreAll (size_of setup.now) tiles.now → ⊥ }
    ensures refuses_setup { (IsSetup setup.now → IsView setup.now view.now → ⊥) → result ≡ BAD_SETUP }
    ensures refuses_tiles { IsSetup setup.now → IsView setup.now view.now
        → (AreAll (size_of setup.now) tiles.now → ⊥) → result ≡ BAD_TILES }
    ensures known { IsAnswer 2 result }
{
    let Some(checked) = view.checked(setup) else {
        return BAD_SETUP;
    };
    if !are_all(tiles, checked.size) {
        return BAD_TILES;
    }
    let reached = reached_by_box(setup, view, bounds);
    code(verdict_on(tiles, checked.size, reached))
}

/// Tests a mesh of floats, each triangle by itself and from both sides: outside where each is, occluded where each
/// other one is, else visible. A triangle is visible where a number of it, of the matrix or the near distance is none.
#[unsafe(no_mangle)]
pub extern "C" fn maskcull_test_mesh_floats(
    setup: &Setup,
    tiles: &[TileState],
    view: &View,
    positions: &[u32],
    triangles: &[Triangle],
) -> u32
    ensures value { IsSetup setup.now → IsView setup.now view.now → AreAll (size_of setup.now) tiles.now
        → All (IsAmong (position_count view.now.stride (length positions.now))) triangles.now
        → IsMeshAnswerFor setup.now view.now tiles.now positions.now triangles.now result }
    ensures beside { result ≡ OUTSIDE
        → All (λ t. IsBeside (screen_of view.now) (points_of view.now positions.now t)) triangles.now }
    ensures bad_setup { result ≡ BAD_SETUP → IsSetup setup.now → IsView setup.now view.now → ⊥ }
    ensures bad_tiles { result ≡ BAD_TILES → AreAll (size_of setup.now) tiles.now → ⊥ }
    ensures bad_index { result ≡ BAD_INDEX
        → All (IsAmong (position_count view.now.stride (length positions.now))) triangles.now → ⊥ }
    ensures refuses_setup { (IsSetup setup.now → IsView setup.now view.now → ⊥) → result ≡ BAD_SETUP }
    ensures refuses_tiles { IsSetup setup.now → IsView setup.now view.now
        → (AreAll (size_of setup.now) tiles.now → ⊥) → result ≡ BAD_TILES }
    ensures refuses_index { IsSetup setup.now → IsView setup.now view.now → AreAll (size_of setup.now) tiles.now
        → (All (IsAmong (position_count view.now.stride (length positions.now))) triangles.now → ⊥)
        → result ≡ BAD_INDEX }
    ensures known { IsAnswer 3 result }
{
    let Some(checked) = view.checked(setup) else {
        return BAD_SETUP;
    };
    if !are_all(tiles, checked.size) {
        return BAD_TILES;
    }
    if !are_among(triangles, view.position_count(positions)) {
        return BAD_INDEX;
    }
    code(mesh_verdict(setup, tiles, checked.size, view, positions, triangles))
}
