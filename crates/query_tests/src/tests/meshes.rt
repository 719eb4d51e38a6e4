//! Meshes behind and beside a quad, on a screen of 32 by 8 with the near distance 1.
ghost use Rattle.std.specs.Prelude.{◌≡◌, length, IfOk};
ghost use Rattle.std.specs.List.{All};
ghost use Rattle.cull_base.specs.Screen.{tile_count_of};
ghost use Rattle.snap_setup.specs.Pieces.{HasClips};

use cull_base::{Batch, ClipVertex, Grade, Memory, Rect, Size, Tri, Verdict, Winding};
use masked_update::{PlainView, TileState, draw_plain};
use mesh_query::{mesh_area, mesh_test};
use snap_setup::frame_list;
use std::alloc::Global;
use std::test::Fail;

const ONE: [Tri; 1] = [Tri([0, 1, 2])];

const TWO: [Tri; 2] = [Tri([0, 1, 2]), Tri([0, 2, 3])];

const APART: [Tri; 2] = [Tri([0, 1, 2]), Tri([3, 4, 5])];

const THREE: [Tri; 3] = [Tri([0, 1, 2]), Tri([3, 4, 5]), Tri([6, 7, 8])];

fn at(x: i64, y: i64, w: i64) -> ClipVertex {
    ClipVertex { x, y, w }
}

fn rect(x0: i32, y0: i32, x1: i32, y1: i32) -> Rect {
    Rect { x0, y0, x1, y1 }
}

// The tiles after the two triangles of a quad.
fn after(
    alloc: Global,
    size: Size,
    quad: &[ClipVertex; 4],
    grade: Grade,
) -> Result<Vec<TileState>, Memory>
    ensures { IfOk result (λ v. length v.items ≡ tile_count_of size) }
{
    let batches = [Batch {
        count: 2,
        winding: Winding::Both,
    }];
    let list = frame_list(alloc, quad, &TWO, 1, size, &batches, grade)?;
    draw_plain(alloc, &list)
}

// The verdict of a mesh over the tiles after a quad in a grade, and its area.
fn told_in(
    grade: Grade,
    alloc: Global,
    quad: &[ClipVertex; 4],
    clips: &[ClipVertex],
    tris: &[Tri],
) -> Result<(Verdict, Rect), Fail>
    requires { All (HasClips (length clips.now)) tris.now }
{
    let size = Size::new(32, 8).ok_or("size")?;
    let tiles = after(alloc, size, quad, grade)?;
    let view = PlainView::new(tiles.as_slice());
    let verdict = mesh_test(&view, size, 1, clips, tris, grade);
    Ok((verdict, mesh_area(size, 1, clips, tris)))
}

// The same in the narrow grade.
fn told(
    alloc: Global,
    quad: &[ClipVertex; 4],
    clips: &[ClipVertex],
    tris: &[Tri],
) -> Result<(Verdict, Rect), Fail>
    requires { All (HasClips (length clips.now)) tris.now }
{
    told_in(Grade::Narrow, alloc, quad, clips, tris)
}

// The same over a quad that covers the screen at a distance of 2.
fn behind_two(alloc: Global, clips: &[ClipVertex], tris: &[Tri]) -> Result<(Verdict, Rect), Fail>
    requires { All (HasClips (length clips.now)) tris.now }
{
    let quad = [at(-2, 2, 2), at(2, 2, 2), at(2, -2, 2), at(-2, -2, 2)];
    told(alloc, &quad, clips, tris)
}

#[test]
fn a_mesh_behind_a_quad_is_occluded(rt: HostRuntime) -> Result<(), Fail> {
    let (alloc, screen) = (rt.alloc(), rect(0, 0, 32, 8));
    let mesh = [at(-3, 3, 3), at(3, 3, 3), at(3, -3, 3), at(-1, -1, 1)];
    assert_eq!(rt;
        behind_two(alloc, &mesh, &ONE)?,
        (Verdict::Occluded, screen)
    );
    // its second triangle comes up to the near plane
    assert_eq!(rt; behind_two(alloc, &mesh, &TWO)?, (Verdict::Visible, screen));
    let at_it = [at(-3, 3, 3), at(3, 3, 3), at(3, -3, 3), at(-3, -3, 3)];
    assert_eq!(rt;
        told(alloc, &at_it, &mesh, &ONE)?,
        (Verdict::Visible, screen)
    );
    Ok(())
}

#[test]
fn a_mesh_past_the_guard_is_visible(rt: HostRuntime) -> Result<(), Fail> {
    let (alloc, visible) = (rt.alloc(), (Verdict::Visible, rect(0, 0, 0, 0)));
    let before = [at(-1, 1, 1), at(16385, 1, 1), at(-1, -16384, 1)];
    assert_eq!(rt; behind_two(alloc, &before, &ONE)?, visible);
    let mesh = [at(-2, 2, 2), at(16385, 2, 2), at(-2, -16384, 2)];
    assert_eq!(rt; behind_two(alloc, &mesh, &ONE)?, visible);
    let behind = [at(-3, 3, 3), at(16385, 3, 3), at(-3, -16384, 3)];
    assert_eq!(rt; behind_two(alloc, &behind, &ONE)?, visible);
    let unseen = [at(16385, 2, 0), at(-2, 2, -2), at(2, 2, -2)];
    assert_eq!(rt; behind_two(alloc, &unseen, &ONE)?.0, Verdict::Outside);
    Ok(())
}

#[test]
fn a_mesh_beside_the_screen_is_outside(rt: HostRuntime) -> Result<(), Fail> {
    let (alloc, outside) = (rt.alloc(), (Verdict::Outside, rect(0, 0, 0, 0)));
    let on_both_sides = [
        at(300, 216, 256),
        at(304, 216, 256),
        at(304, 200, 256),
        at(-600, 216, 256),
        at(-596, 216, 256),
        at(-596, 200, 256),
    ];
    assert_eq!(rt; behind_two(alloc, &on_both_sides, &[])?, outside);
    assert_eq!(rt; behind_two(alloc, &on_both_sides, &ONE)?, outside);
    assert_eq!(rt; behind_two(alloc, &on_both_sides, &APART)?, outside);
    Ok(())
}

// The first triangle stands between all samples, at (10, 10), (14, 10), (14, 14) in sixteenths of a pixel, the second
// beside the screen at X 556 to 560, and the third has no area: it lies from X 256 to 512 at Y 64.
#[test]
fn a_mesh_between_all_samples_is_visible_and_has_an_area(rt: HostRuntime) -> Result<(), Fail> {
    let mesh = [
        at(-246, 216, 256),
        at(-242, 216, 256),
        at(-242, 200, 256),
        at(300, 216, 256),
        at(304, 216, 256),
        at(304, 200, 256),
        at(0, 0, 2),
        at(1, 0, 2),
        at(2, 0, 2),
    ];
    let (first, second, third) = (rect(0, 0, 1, 1), rect(0, 0, 32, 1), rect(0, 0, 32, 5));
    assert_eq!(rt;
        behind_two(rt.alloc(), &mesh, &ONE)?,
        (Verdict::Visible, first)
    );
    assert_eq!(rt;
        behind_two(rt.alloc(), &mesh, &APART)?,
        (Verdict::Visible, second)
    );
    assert_eq!(rt;
        behind_two(rt.alloc(), &mesh, &THREE)?,
        (Verdict::Visible, third)
    );
    Ok(())
}

// A mesh at distance 1001 behind a quad at 1000: its nearness is 66 and the quad's 65, in the wide grade 16761 and
// 16777.
#[test]
fn a_mesh_just_behind_a_quad_is_hidden_in_the_wide_grade(rt: HostRuntime) -> Result<(), Fail> {
    let quad = [
        at(-1000, 1000, 1000),
        at(1000, 1000, 1000),
        at(1000, -1000, 1000),
        at(-1000, -1000, 1000),
    ];
    let mesh = [
        at(-1001, 1001, 1001),
        at(1001, 1001, 1001),
        at(1001, -1001, 1001),
    ];
    for (grade, verdict) in [
        (Grade::Narrow, Verdict::Visible),
        (Grade::Wide, Verdict::Occluded),
    ] {
        let (found, area) = told_in(grade, rt.alloc(), &quad, &mesh, &ONE)?;
        assert_eq!(rt; (found, area), (verdict, rect(0, 0, 32, 8)));
    }
    Ok(())
}
