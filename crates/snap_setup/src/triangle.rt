//! The pieces of one triangle.
ghost use Rattle.std.specs.Prelude.{◌≡◌, pos, [], false, true, ◌+◌, ◌≤◌, ◌<ℤ◌, ◌↔◌, length, option_to_list};
ghost use Rattle.cull_base.specs.declared.triangle.Side.TheVariants.{Occluder};
ghost use Rattle.cull_base.specs.Grade.{top_of};
ghost use Rattle.cull_base.specs.Piece.{doubled_area};
ghost use Rattle.snap_setup.specs.Pieces.{triangle, is_dropped, piece_if, kept_of, is_any_past_guard, is_all_in_front};
ghost use Rattle.snap_setup.specs.Corners.{part_of, pieces_of_corners};
ghost use Rattle.snap_setup.specs.Keeping.{Took};
ghost use Rattle.snap_setup.specs.Triangles.{pieces_of_triangle, TriangleGivesNone};
ghost use Rattle.snap_setup.specs.Snapping.{IsSnapped};
ghost use Rattle.snap_setup.specs.Vertices.{are_all_placed, is_any_placed, is_any_past, AreCornersOf};

use crate::keeping::{Keeping, take_if};
use crate::occluders::Occluders;
use crate::pieces::Pieces;
use crate::snapping::{Snapped, snap};
use crate::vertices::ScreenVertex;
use camera_path::past_guard;
use cull_base::arithmetic::edge_value;
use cull_base::{ClipVertex, FrameList, Grade, Near, ScreenTri, Side, Size, Winding};
use near_clip::{clip_near, is_in_front, whole};

// Positive where the points run clockwise on the screen.
#[inline(always)]
fn doubled_area(a: &Snapped, b: &Snapped, c: &Snapped) -> i64
    requires a { IsSnapped a.now }
    requires b { IsSnapped b.now }
    requires c { IsSnapped c.now }
    ensures { result ≡ doubled_area (triangle a.now b.now c.now) }
{
    edge_value(a.x, a.y, b.x, b.y, c.x, c.y)
}

#[inline(always)]
fn is_dropped(winding: Winding, area: i64) -> bool
    ensures { result ≡ is_dropped winding area }
{
    match winding {
        Winding::Both => false,
        Winding::DropClockwise => 0 < area,
        Winding::DropCounter => area < 0,
    }
}

#[inline(always)]
fn screen_tri(a: &Snapped, b: &Snapped, c: &Snapped) -> ScreenTri
    requires a { IsSnapped a.now }
    requires b { IsSnapped b.now }
    requires c { IsSnapped c.now }
    requires area { pos 0 <ℤ doubled_area (triangle a.now b.now c.now) }
    ensures { result ≡ triangle a.now b.now c.now }
{
    ScreenTri::from_valid([a.x, b.x, c.x], [a.y, b.y, c.y], [a.q, b.q, c.q])
}

#[inline(always)]
fn piece(a: &Snapped, b: &Snapped, c: &Snapped, winding: Winding) -> Option<ScreenTri>
    requires a { IsSnapped a.now }
    requires b { IsSnapped b.now }
    requires c { IsSnapped c.now }
    ensures { result ≡ piece_if winding (triangle a.now b.now c.now) }
{
    let area = doubled_area(a, b, c);
    if area == 0 || is_dropped(winding, area) {
        None
    } else if area < 0 {
        Some(screen_tri(a, c, b))
    } else {
        Some(screen_tri(a, b, c))
    }
}

/// The vertices of a triangle.
#[derive(Clone, Copy)]
pub(crate) struct Corners<'a> {
    pub(crate) v0: &'a ClipVertex,
    pub(crate) v1: &'a ClipVertex,
    pub(crate) v2: &'a ClipVertex,
}

#[inline(always)]
fn is_any_past_guard(tri: &Corners, near: Near) -> bool
    ensures { result ≡ is_any_past_guard tri.now.v0.now tri.now.v1.now tri.now.v2.now near.distance }
{
    past_guard(tri.v0, near.distance)
        | past_guard(tri.v1, near.distance)
        | past_guard(tri.v2, near.distance)
}

#[inline(always)]
fn is_all_in_front(tri: &Corners, near: Near) -> bool
    ensures { result ≡ is_all_in_front tri.now.v0.now tri.now.v1.now tri.now.v2.now near.distance }
{
    is_in_front(tri.v0, near.distance)
        & is_in_front(tri.v1, near.distance)
        & is_in_front(tri.v2, near.distance)
}

// The piece of a triangle that no plane cuts: it is its own polygon.
#[inline(always)]
fn whole_piece(
    tri: &Corners,
    near: Near,
    size: Size,
    winding: Winding,
    side: Side,
    grade: Grade,
) -> Option<ScreenTri>
    requires guarded { is_any_past_guard tri.now.v0.now tri.now.v1.now tri.now.v2.now near.distance ≡ false }
    requires front { is_all_in_front tri.now.v0.now tri.now.v1.now tri.now.v2.now near.distance ≡ true }
    ensures { option_to_list result ≡
        kept_of (part_of tri.now (top_of grade) near.distance size side) winding }
{
    let p0 = snap(&whole(tri.v0), near.distance, size, side, grade);
    let p1 = snap(&whole(tri.v1), near.distance, size, side, grade);
    let p2 = snap(&whole(tri.v2), near.distance, size, side, grade);
    piece(&p0, &p1, &p2, winding)
}

// The pieces of a triangle that the near plane cuts, or that lies behind it.
#[inline(never)]
fn clipped_pieces(
    tri: &Corners,
    near: Near,
    size: Size,
    winding: Winding,
    side: Side,
    grade: Grade,
) -> Pieces
    requires guarded { is_any_past_guard tri.now.v0.now tri.now.v1.now tri.now.v2.now near.distance ≡ false }
    ensures { result ≡ kept_of (part_of tri.now (top_of grade) near.distance size side) winding }
{
    let polygon = clip_near(&[*tri.v0, *tri.v1, *tri.v2], near.distance);
    if polygon.len() == 0 {
        return Pieces::none();
    }
    let p0 = snap(&polygon.get(0), near.distance, size, side, grade);
    let p1 = snap(&polygon.get(1), near.distance, size, side, grade);
    let p2 = snap(&polygon.get(2), near.distance, size, side, grade);
    let first = piece(&p0, &p1, &p2, winding);
    if polygon.len() == 3 {
        return Pieces::of(first, None);
    }
    let p3 = snap(&polygon.get(3), near.distance, size, side, grade);
    let second = piece(&p0, &p2, &p3, winding);
    Pieces::of(first, second)
}

/// The pieces of a triangle, each turned so that its doubled area is positive. There is none where a vertex is
/// past the guard, and else none exactly where all of it is behind the near plane or each triangle of the clipped
/// polygon has area 0 or a dropped winding. Condition: `near` is 1 to 1024.
#[inline(always)]
pub fn set_up(
    tri: &[ClipVertex; 3],
    near: u16,
    size: Size,
    winding: Winding,
    side: Side,
    grade: Grade,
) -> Pieces
    requires near_least { 1 ≤ near }
    requires near_most { near ≤ 1024 }
    ensures value { result ≡ pieces_of_triangle tri.now (top_of grade) near size winding side }
    ensures most { length result ≤ 2 }
    ensures none { (result ≡ []) ↔ TriangleGivesNone tri.now (top_of grade) near size winding side }
{
    let [v0, v1, v2] = tri;
    let tri = &Corners { v0, v1, v2 };
    let near = Near { distance: near };
    if is_any_past_guard(tri, near) {
        Pieces::none()
    } else if is_all_in_front(tri, near) {
        Pieces::of(whole_piece(tri, near, size, winding, side, grade), None)
    } else {
        clipped_pieces(tri, near, size, winding, side, grade)
    }
}

// Out of line, so that no pieces are held where none are clipped.
#[inline(never)]
fn push_clipped(
    tri: &Corners,
    near: Near,
    size: Size,
    winding: Winding,
    grade: Grade,
    keeping: Keeping,
    list: &mut FrameList,
) -> u32
    requires guarded { is_any_past_guard tri.now.v0.now tri.now.v1.now tri.now.v2.now near.distance ≡ false }
    requires room { length list.old.list.members + 2 ≤ list.old.room }
    ensures value { Took keeping list.old list.new result
        (kept_of (part_of tri.now (top_of grade) near.distance size Occluder) winding) }
    ensures most { length (kept_of (part_of tri.now (top_of grade) near.distance size Occluder) winding) ≤ 2 }
{
    clipped_pieces(tri, near, size, winding, Side::Occluder, grade).push_onto(keeping, list)
}

/// Appends the pieces of an occluder's triangle that are kept to a list, as `set_up` makes them, and gives how many the
/// triangle has. Most have one, which goes straight to its place. Condition: there is room for two.
#[inline(always)]
pub(crate) fn push_pieces(
    tri: &Corners,
    near: Near,
    size: Size,
    winding: Winding,
    grade: Grade,
    keeping: Keeping,
    list: &mut FrameList,
) -> u32
    requires { length list.old.list.members + 2 ≤ list.old.room }
    ensures value { Took keeping list.old list.new result
        (pieces_of_corners tri.now (top_of grade) near.distance size winding) }
    ensures most { length (pieces_of_corners tri.now (top_of grade) near.distance size winding) ≤ 2 }
{
    if is_any_past_guard(tri, near) {
        return 0;
    }
    if is_all_in_front(tri, near) {
        take_if(
            whole_piece(tri, near, size, winding, Side::Occluder, grade),
            keeping,
            list,
        )
    } else {
        push_clipped(tri, near, size, winding, grade, keeping, list)
    }
}

/// The vertices of a triangle as they come to the screen.
#[derive(Clone, Copy)]
pub(crate) struct ScreenCorners<'a> {
    pub(crate) v0: &'a ScreenVertex,
    pub(crate) v1: &'a ScreenVertex,
    pub(crate) v2: &'a ScreenVertex,
}

impl<'a> ScreenCorners<'a> {
    #[inline(always)]
    fn are_all_placed(&self) -> bool
        ensures { result ≡ are_all_placed self.now }
    {
        self.v0.placed & self.v1.placed & self.v2.placed
    }

    #[inline(always)]
    fn is_any_placed(&self) -> bool
        ensures { result ≡ is_any_placed self.now }
    {
        self.v0.placed | self.v1.placed | self.v2.placed
    }

    #[inline(always)]
    fn is_any_past(&self) -> bool
        ensures { result ≡ is_any_past self.now }
    {
        self.v0.past | self.v1.past | self.v2.past
    }
}

/// As `push_pieces` of one of a frame's triangles, by what is known of the vertices: a triangle has no pieces where one
/// of them is past the guard or all are behind the near plane, and only one that the plane cuts is snapped anew.
/// Conditions as there.
#[inline(always)]
pub(crate) fn push_shared(
    occluders: &Occluders,
    tri: Corners,
    corners: &ScreenCorners,
    winding: Winding,
    keeping: Keeping,
    list: &mut FrameList,
) -> u32
    requires corners { let o = occluders.now in
        AreCornersOf tri (top_of o.grade) o.near.distance o.size corners.now }
    requires room { length list.old.list.members + 2 ≤ list.old.room }
    ensures value { let o = occluders.now in Took keeping list.old list.new result
        (pieces_of_corners tri.entry (top_of o.grade) o.near.distance o.size winding) }
    ensures most { let o = occluders.now in
        length (pieces_of_corners tri.entry (top_of o.grade) o.near.distance o.size winding) ≤ 2 }
{
    // an accessor tells what is held of a size
    let _width = occluders.size.width();
    if corners.are_all_placed() {
        return take_if(
            piece(&corners.v0.at, &corners.v1.at, &corners.v2.at, winding),
            keeping,
            list,
        );
    }
    if corners.is_any_past() {
        return 0;
    }
    if corners.is_any_placed() {
        // a copy, so that only here the vertices have to lie in memory
        let cut = tri;
        push_clipped(
            &cut,
            occluders.near,
            occluders.size,
            winding,
            occluders.grade,
            keeping,
            list,
        )
    } else {
        0
    }
}
