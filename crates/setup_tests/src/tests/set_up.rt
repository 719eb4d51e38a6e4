//! Points, triangles and frames worked by hand.
ghost use Rattle.std.specs.Prelude.{◌≡◌, ◌≤◌, false, length, IfOk};
ghost use Rattle.cull_base.specs.Batches.{AreBatchesOf};
ghost use Rattle.cull_base.specs.Guard.{is_past_guard};
ghost use Rattle.near_clip.specs.Reach.{IsInReach};
ghost use Rattle.snap_setup.specs.Pieces.{HasClips};
ghost use Rattle.std.specs.List.{All};

use camera_path::past_guard;
use cull_base::{
    Batch, ClipVertex, FrameList, Grade, Memory, Near, Rect, Side, Size, Tri, Winding,
};
use near_clip::HomPoint;
use snap_setup::{
    Occluders, Pieces, Snapped, frame_list, frame_list_by_workers, near_box, one_batch,
    sampled_list, set_up, snap, within_top,
};
use std::alloc::Global;
use std::process::Abort;
use std::test::Fail;

fn at(x: i64, y: i64, w: i64) -> ClipVertex {
    ClipVertex { x, y, w }
}

fn within_guard(rt: &impl Abort, v: ClipVertex) -> ClipVertex
    ensures { is_past_guard result 1 ≡ false }
{
    assert!(rt; !past_guard(&v, 1));
    v
}

fn point_at(rt: &impl Abort, x: i64, y: i64, w: i64, size: Size, side: Side) -> Snapped {
    assert!(rt; -16384 <= x && x <= 16384);
    assert!(rt; -16384 <= y && y <= 16384);
    assert!(rt; 1 <= w && w <= 16384);
    let point = HomPoint { x, y, w, scale: 1 };
    snap(&point, 1, size, side, Grade::Narrow)
}

fn box_of_triangle(rt: &impl Abort, corners: [ClipVertex; 3], size: Size) -> Option<Rect> {
    let [a, b, c] = corners;
    near_box(
        &[
            within_guard(rt, a),
            within_guard(rt, b),
            within_guard(rt, c),
        ],
        1,
        size,
    )
}

#[test]
fn halves_go_up_and_below_zero_too(rt: HostRuntime) -> Result<(), Fail> {
    let size = Size::new(32, 8).ok_or("size")?;
    for (x, y, at) in [(-511, 508, 1), (-513, 516, 0), (-515, 524, -1)] {
        let point = point_at(&rt, x, y, 512, size, Side::Object);
        assert_eq!(rt; (point.x, point.y), (at, at));
    }
    Ok(())
}

#[test]
fn nearness_goes_down_for_occluders_and_up_for_objects(rt: HostRuntime) -> Result<(), Fail> {
    let size = Size::new(32, 8).ok_or("size")?;
    for (w, occluder, object) in [(1, 65535, 65535), (2, 32767, 32768), (16384, 3, 4)] {
        assert_eq!(rt; point_at(&rt, 0, 0, w, size, Side::Occluder).q, occluder);
        assert_eq!(rt; point_at(&rt, 0, 0, w, size, Side::Object).q, object);
    }
    Ok(())
}

// The nearness of a vertex at distance w in the wide grade.
fn wide_nearness(rt: &impl Abort, near: u16, w: i64, side: Side) -> u32
    requires near_least { 1 ≤ near }
    requires near_most { near ≤ 1024 }
{
    assert!(rt; i64::from(near) <= w && w <= 16384);
    let size = Size::new(32, 8).expect(rt, "size");
    let point = HomPoint {
        x: 0,
        y: 0,
        w,
        scale: 1,
    };
    snap(&point, near, size, side, Grade::Wide).q
}

// Up to a near distance of 255 the numerator fits 32 bits: 16777215 * 255 is 256 * 16711679 + 1. Above it is divided in
// two steps: 16777215 * 1024 is 3000 * 5726622 + 2160, and 1024 * 16777215.
#[test]
fn the_wide_grade_has_the_greater_top(rt: HostRuntime) {
    for (near, w, occluder, object) in [
        (1, 1, 16777215, 16777215),
        (1, 2, 8388607, 8388608),
        (255, 256, 16711679, 16711680),
        (1024, 3000, 5726622, 5726623),
        (1024, 1024, 16777215, 16777215),
        (1024, 16384, 1048575, 1048576),
    ] {
        assert_eq!(rt; wide_nearness(&rt, near, w, Side::Occluder), occluder);
        assert_eq!(rt; wide_nearness(&rt, near, w, Side::Object), object);
    }
}

#[test]
fn cut_points_are_snapped_by_their_scale(rt: HostRuntime) -> Result<(), Fail> {
    let size = Size::new(32, 8).ok_or("size")?;
    let cut = HomPoint {
        x: 16,
        y: 0,
        w: 12,
        scale: 6,
    };
    let point = snap(&cut, 2, size, Side::Occluder, Grade::Narrow);
    assert_eq!(rt; point.x, 597);
    assert_eq!(rt; point.q, 65535);
    Ok(())
}

// Snapped for an object on the greatest screen, from the greatest near distance.
fn farthest(rt: &impl Abort, x: i64, y: i64, w: i64, scale: i64) -> (i32, i32, u32)
    requires { IsInReach 1024 (record { x = x; y = y; w = w; scale = scale }) }
{
    let size = Size::new(2048, 2048).expect(rt, "size");
    let point = HomPoint { x, y, w, scale };
    let snapped = snap(&point, 1024, size, Side::Object, Grade::Narrow);
    (snapped.x, snapped.y, snapped.q)
}

// Where a triangle is cut, and at vertices, which are snapped by 64 bits, they have the same places.
#[test]
fn the_farthest_points_are_exact(rt: HostRuntime) {
    let (right_below, left_above) = (
        (268451840, 268451840, 65535),
        (-268419072, -268419072, 65535),
    );
    let (far, w, scale) = (0x2_0000_0000_0000, 0x8_0000_0000, 0x200_0000);
    assert_eq!(rt; farthest(&rt, far, -far, w, scale), right_below);
    assert_eq!(rt; farthest(&rt, -far, far, w, scale), left_above);
    assert_eq!(rt;
        farthest(&rt, 0x100_0000, -0x100_0000, 0x400, 1),
        right_below
    );
    assert_eq!(rt;
        farthest(&rt, -0x100_0000, 0x100_0000, 0x400, 1),
        left_above
    );
}

// The pieces of an occluder on a screen of 32 by 8.
fn occluder(tri: &[ClipVertex; 3], near: u16, winding: Winding) -> Result<Pieces, &'static str>
    requires least { 1 ≤ near }
    requires most { near ≤ 1024 }
{
    let size = Size::new(32, 8).ok_or("size")?;
    Ok(set_up(tri, near, size, winding, Side::Occluder, Grade::Narrow))
}

#[test]
fn a_cut_triangle_has_two_pieces(rt: HostRuntime) -> Result<(), Fail> {
    let tri = [at(0, 0, 6), at(0, 4, 6), at(4, 0, 0)];
    assert_eq!(rt; occluder(&tri, 2, Winding::Both)?.len(), 2);
    assert_eq!(rt; occluder(&tri, 2, Winding::DropClockwise)?.len(), 0);
    assert_eq!(rt; occluder(&tri, 2, Winding::DropCounter)?.len(), 2);
    Ok(())
}

#[test]
fn near_boxes_hold_what_has_no_area(rt: HostRuntime) -> Result<(), Fail> {
    let size = Size::new(32, 8).ok_or("size")?;
    let (x0, y0) = (0, 0);
    let small = [at(-246, 216, 256), at(-242, 216, 256), at(-242, 200, 256)];
    let pixel = Rect {
        x0,
        y0,
        x1: 1,
        y1: 1,
    };
    assert_eq!(rt; box_of_triangle(&rt, small, size), Some(pixel));
    let line = [at(-2, 2, 2), at(-2, 2, 2), at(2, 2, 2)];
    let row = Rect { x1: 33, ..pixel };
    assert_eq!(rt; box_of_triangle(&rt, line, size), Some(row));
    let behind = [at(0, 0, 0), at(1, 1, 0), at(1, 0, -3)];
    assert_eq!(rt; box_of_triangle(&rt, behind, size), None);
    Ok(())
}

// All of some triangles in one batch.
fn in_one_batch(tris: &[Tri], winding: Winding) -> [Batch; 1]
    requires { length tris.now ≤ 65536 }
    ensures { AreBatchesOf result (length tris.now) }
{
    [Batch {
        count: tris.len() as u32,
        winding,
    }]
}

// The list of some triangles on a screen of 32 by 8.
fn listed(alloc: Global, clips: &[ClipVertex], tris: &[Tri], near: u16) -> Result<FrameList, Fail>
    requires near { (1 ≤ near) × (near ≤ 1024) }
    requires triangles { length tris.now ≤ 65536 }
    requires indices { All (HasClips (length clips.now)) tris.now }
{
    let size = Size::new(32, 8).ok_or("size")?;
    let batches = in_one_batch(tris, Winding::Both);
    Ok(frame_list(alloc, clips, tris, near, size, &batches, Grade::Narrow)?)
}

// The two triangles of a quad over the screen.
fn quad(alloc: Global, tris: &[Tri; 2], winding: Winding) -> Result<FrameList, Fail>
    requires { All (HasClips 4) tris.now }
{
    let size = Size::new(32, 8).ok_or("size")?;
    let clips = [at(-2, 2, 2), at(2, 2, 2), at(2, -2, 2), at(-2, -2, 2)];
    let batches = in_one_batch(tris, winding);
    Ok(frame_list(alloc, &clips, tris, 1, size, &batches, Grade::Narrow)?)
}

const CLOCKWISE: [Tri; 2] = [Tri([0, 1, 2]), Tri([0, 2, 3])];

const COUNTER: [Tri; 2] = [Tri([0, 2, 1]), Tri([0, 3, 2])];

// The coordinates and the nearness of a member.
fn numbers(list: &FrameList, index: u32) -> Result<([i32; 3], [i32; 3], [u32; 3]), &'static str> {
    if index >= list.len() {
        return Err("a piece");
    }
    let piece = list.get(index);
    Ok((piece.x(), piece.y(), piece.q()))
}

#[test]
fn a_winding_drops_one_side(rt: HostRuntime) -> Result<(), Fail> {
    for (winding, clockwise, counter) in [
        (Winding::Both, 2, 2),
        (Winding::DropClockwise, 0, 2),
        (Winding::DropCounter, 2, 0),
    ] {
        assert_eq!(rt; quad(rt.alloc(), &CLOCKWISE, winding)?.len(), clockwise);
        assert_eq!(rt; quad(rt.alloc(), &COUNTER, winding)?.len(), counter);
    }
    Ok(())
}

#[test]
fn pieces_run_clockwise_in_submission_order(rt: HostRuntime) -> Result<(), Fail> {
    let list = quad(rt.alloc(), &COUNTER, Winding::Both)?;
    let upper = ([0, 512, 512], [0, 0, 128], [32767; 3]);
    let lower = ([0, 512, 0], [0, 128, 128], [32767; 3]);
    assert_eq!(rt; list.len(), 2);
    assert_eq!(rt; numbers(&list, 0)?, upper);
    assert_eq!(rt; numbers(&list, 1)?, lower);
    Ok(())
}

#[test]
fn a_cut_and_an_uncut_triangle_share_vertices(rt: HostRuntime) -> Result<(), Fail> {
    let clips = [at(0, 0, 6), at(0, 4, 6), at(4, 0, 0), at(4, 0, 2)];
    let tris = [Tri([0, 1, 2]), Tri([0, 1, 3])];
    let list = listed(rt.alloc(), &clips, &tris, 2)?;
    let cut = ([256, 597, 597], [64, 21, 64], [21845, 65535, 65535]);
    let on_the_plane = ([256, 256, 768], [64, 21, 64], [21845, 21845, 65535]);
    assert_eq!(rt; (list.len(), numbers(&list, 1)?), (3, cut));
    assert_eq!(rt; numbers(&list, 2)?, on_the_plane);
    Ok(())
}

// By itself, and where vertices are shared.
#[test]
fn triangles_are_drawn_up_to_the_guard(rt: HostRuntime) -> Result<(), Fail> {
    let tri = [at(-2, 2, 2), at(16384, 2, 2), at(-2, -16384, 2)];
    assert_eq!(rt; occluder(&tri, 1, Winding::Both)?.len(), 1);
    let past = [at(-2, 2, 2), at(16385, 2, 2), at(-2, -16384, 2)];
    assert_eq!(rt; occluder(&past, 1, Winding::Both)?.len(), 0);
    let [first, second, third] = tri;
    let clips = [first, second, third, at(16385, 2, 2), at(0, 0, 0)];
    let tris = [Tri([0, 3, 2]), Tri([4, 4, 4]), Tri([0, 1, 2])];
    let list = listed(rt.alloc(), &clips, &tris, 1)?;
    assert_eq!(rt; list.len(), 1);
    assert_eq!(rt;
        numbers(&list, 0)?,
        ([0, 2097408, 0], [0, 0, 524352], [32767; 3])
    );
    Ok(())
}

#[test]
fn there_may_be_more_vertices_than_corners(rt: HostRuntime) -> Result<(), Fail> {
    let clips = [at(0, 0, 0), at(-2, 2, 2), at(2, 2, 2), at(2, -2, 2)];
    let list = listed(rt.alloc(), &clips, &[Tri([1, 2, 3])], 1)?;
    assert_eq!(rt;
        numbers(&list, 0)?,
        ([0, 512, 512], [0, 0, 128], [32767; 3])
    );
    Ok(())
}

// The vertex that comes to a place on a screen of 32 by 8 pixels, in sixteenths of a pixel.
fn vertex_at(x: i32, y: i32) -> ClipVertex {
    at(i64::from(x) - 256, 256 - 4 * i64::from(y), 256)
}

// How many pieces of a triangle may cover a sample of that screen, and how many it has.
fn kept_of_one(alloc: Global, clips: &[ClipVertex; 3]) -> Result<(u32, u32), Fail> {
    let occluders = Occluders {
        clips,
        tris: &[Tri([0, 1, 2])],
        near: Near { distance: 1 },
        size: Size::new(32, 8).ok_or("size")?,
        batches: &in_one_batch(&[Tri([0, 1, 2])], Winding::Both),
        grade: Grade::Narrow,
    };
    let kept = sampled_list(alloc, &occluders)?;
    Ok((kept.list.len(), kept.listed))
}

#[test]
fn a_piece_is_kept_for_one_sample_on_the_edge_of_its_box(rt: HostRuntime) -> Result<(), Fail> {
    for clips in [
        [vertex_at(8, 8), vertex_at(16, 8), vertex_at(16, 16)],
        [vertex_at(0, 0), vertex_at(8, 0), vertex_at(8, 8)],
        [vertex_at(-8, 0), vertex_at(8, 0), vertex_at(8, 8)],
        [
            vertex_at(504, 120),
            vertex_at(520, 120),
            vertex_at(520, 136),
        ],
    ] {
        assert_eq!(rt; kept_of_one(rt.alloc(), &clips)?, (1, 1));
    }
    Ok(())
}

#[test]
fn a_piece_without_a_sample_of_the_screen_is_counted_alone(rt: HostRuntime) -> Result<(), Fail> {
    for clips in [
        [vertex_at(9, 8), vertex_at(23, 8), vertex_at(23, 16)],
        [vertex_at(8, 9), vertex_at(16, 9), vertex_at(16, 23)],
        [vertex_at(-8, 0), vertex_at(7, 0), vertex_at(7, 8)],
        [
            vertex_at(505, 120),
            vertex_at(520, 120),
            vertex_at(520, 136),
        ],
        [
            vertex_at(504, 121),
            vertex_at(520, 121),
            vertex_at(520, 136),
        ],
    ] {
        assert_eq!(rt; kept_of_one(rt.alloc(), &clips)?, (0, 1));
    }
    Ok(())
}

#[test]
fn the_laws_on_lists_are_called(rt: HostRuntime) {
    one_batch();
    within_top();
}

// The first triangle of a quad, which runs clockwise, and its second, which is turned, in turn: 2,500 in all.
fn alternating(alloc: Global) -> Result<Vec<Tri>, Fail>
    ensures indices { IfOk result (λ v. All (HasClips 4) v.items) }
    ensures count { IfOk result (λ v. length v.items ≡ 2500) }
{
    let mut tris = Vec::with_capacity(alloc, 2500).map_err(|_| Memory)?;
    for _ in 0..1250_usize {
        tris.push_reserved(Tri([0, 1, 2]));
        tris.push_reserved(Tri([0, 3, 2]));
    }
    Ok(tris)
}

// Batches of 1, 0, 1248, 2 and 1249 triangles. The second of two runs begins within the fourth batch.
const BATCHES: [Batch; 5] = [
    Batch {
        count: 1,
        winding: Winding::Both,
    },
    Batch {
        count: 0,
        winding: Winding::DropClockwise,
    },
    Batch {
        count: 1248,
        winding: Winding::DropCounter,
    },
    Batch {
        count: 2,
        winding: Winding::DropClockwise,
    },
    Batch {
        count: 1249,
        winding: Winding::Both,
    },
];

// By hand: the first triangle, the clockwise ones from 2 to 1248, triangle 1249, which isn't, and all from 1251 on.
#[test]
fn a_run_begins_within_a_batch(rt: HostRuntime) -> Result<(), Fail> {
    let clips = [at(-2, 2, 2), at(2, 2, 2), at(2, -2, 2), at(-2, -2, 2)];
    let tris = alternating(rt.alloc())?;
    let occluders = Occluders {
        clips: &clips,
        tris: tris.as_slice(),
        near: Near { distance: 1 },
        size: Size::new(32, 8).ok_or("size")?,
        batches: &BATCHES,
        grade: Grade::Narrow,
    };
    let one = frame_list_by_workers(&rt, rt.alloc(), &occluders, 1)?;
    let two = frame_list_by_workers(&rt, rt.alloc(), &occluders, 2)?;
    assert_eq!(rt; (one.len(), two.len()), (1875, 1875));
    for k in 0..1875 {
        assert_eq!(rt; numbers(&two, k)?, numbers(&one, k)?);
    }
    let clockwise = ([0, 512, 512], [0, 0, 128], [32767; 3]);
    let turned = ([0, 512, 0], [0, 128, 128], [32767; 3]);
    assert_eq!(rt;
        (numbers(&one, 0)?, numbers(&one, 624)?),
        (clockwise, clockwise)
    );
    assert_eq!(rt;
        (numbers(&one, 625)?, numbers(&one, 626)?),
        (turned, turned)
    );
    assert_eq!(rt;
        (numbers(&one, 627)?, numbers(&one, 1874)?),
        (clockwise, turned)
    );
    Ok(())
}
