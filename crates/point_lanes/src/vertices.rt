//! Eight clip vertices on their screen.
ghost use Rattle.std.specs.Prelude.{◌≡◌, ℕ, ℤ, pos, ◌+◌, ◌-◌, ◌*◌, ◌/◌, ◌<◌, ◌≤◌, ◌^◌, ◌+ℤ◌, ◌-ℤ◌, ◌*ℤ◌, ◌≤ℤ◌, ◌<ℤ◌, true, false, IsTrue};
ghost use Rattle.std.specs.Prelude.{slice_index, slice_index_or};
ghost use Rattle.cull_base.specs.Bounds.{Bounded};
ghost use Rattle.cull_base.specs.Grade.{top_of};
ghost use Rattle.point_lanes.specs.Points.{AreLanes, IsInReach, IsLane, IsPoint, vertex_at};

use crate::divisors::Divisors;
use crate::nearness::NearnessScale;
use cull_base::{ClipVertex, Size};

/// A vertex as lanes take it, or in its place one that stands in the middle of the screen.
#[derive(Clone, Copy)]
struct Lane {
    // how far it lies from a line 64 w to the left of the middle, and from one 64 w above it
    across: u32,
    down: u32,
    w: u32,
    own: bool,
}

#[inline(always)]
fn from_left(x: i64, w: i64) -> i64
    requires x { Bounded (2 ^ 24) x }
    requires w { Bounded (2 ^ 24) w }
    ensures value { result ≡ x +ℤ (pos 64 *ℤ w) }
    ensures bounded { Bounded (2 ^ 31) result }
{
    x + 64 * w
}

#[inline(always)]
fn from_top(y: i64, w: i64) -> i64
    requires y { Bounded (2 ^ 24) y }
    requires w { Bounded (2 ^ 24) w }
    ensures value { result ≡ (pos 64 *ℤ w) -ℤ y }
    ensures bounded { Bounded (2 ^ 31) result }
{
    64 * w - y
}

// Whether both distances are below 128 w, and not below 0.
#[inline(always)]
fn are_within(across: i64, down: i64, w: i64) -> bool
    requires { Bounded (2 ^ 24) w }
    ensures across_least { IsTrue result → pos 0 ≤ℤ across }
    ensures across_most { IsTrue result → across <ℤ (pos 128 *ℤ w) }
    ensures down_least { IsTrue result → pos 0 ≤ℤ down }
    ensures down_most { IsTrue result → down <ℤ (pos 128 *ℤ w) }
{
    let most = 128 * w;
    0 <= across && across < most && 0 <= down && down < most
}

#[inline(always)]
fn own_lane(across: i64, down: i64, w: i64) -> Lane
    requires across_least { pos 0 ≤ℤ across }
    requires across_most { across <ℤ pos (2 ^ 32) }
    requires down_least { pos 0 ≤ℤ down }
    requires down_most { down <ℤ pos (2 ^ 32) }
    requires w_least { pos 0 ≤ℤ w }
    requires w_most { w <ℤ pos (2 ^ 32) }
    ensures across { pos result.across ≡ across }
    ensures down { pos result.down ≡ down }
    ensures w { pos result.w ≡ w }
{
    Lane {
        across: across as u32,
        down: down as u32,
        w: w as u32,
        own: true,
    }
}

#[inline(always)]
fn middle(near: u16) -> Lane
    requires least { 1 ≤ near }
    requires most { near ≤ 1024 }
    ensures across { result.across ≡ 64 * near }
    ensures down { result.down ≡ 64 * near }
    ensures w { result.w ≡ near }
    ensures own { result.own ≡ false }
{
    let w = u32::from(near);
    Lane {
        across: 64 * w,
        down: 64 * w,
        w,
        own: false,
    }
}

// A vertex that lies before the viewer and isn't far beside the screen.
#[inline(always)]
fn lane_beside(v: &ClipVertex, near: u16) -> Lane
    requires least { 1 ≤ near }
    requires most { near ≤ 1024 }
    requires reach { IsInReach near v.now }
    ensures { IsLane v.now near result.across result.down result.w result.own }
{
    let across = from_left(v.x, v.w);
    let down = from_top(v.y, v.w);
    if are_within(across, down, v.w) {
        own_lane(across, down, v.w)
    } else {
        middle(near)
    }
}

#[inline(always)]
fn lane_of(v: &ClipVertex, placed: bool, near: u16) -> Lane
    requires least { 1 ≤ near }
    requires most { near ≤ 1024 }
    requires reach { placed ≡ true → IsInReach near v.now }
    ensures { IsLane v.now near result.across result.down result.w result.own }
{
    if placed {
        lane_beside(v, near)
    } else {
        middle(near)
    }
}

/// Eight of them side by side.
#[derive(Clone, Copy)]
struct Lanes {
    across: [u32; 8],
    down: [u32; 8],
    w: [u32; 8],
    own: [bool; 8],
}

#[inline(always)]
fn lanes_of(clips: &[ClipVertex; 8], placed: [bool; 8], near: u16) -> Lanes
    requires least { 1 ≤ near }
    requires most { near ≤ 1024 }
    requires reach { (j : ℕ) → j < 8 → slice_index_or placed j false ≡ true → IsInReach near (vertex_at clips.now j) }
    ensures { AreLanes clips.now near result.across result.down result.w result.own }
{
    let a = lane_of(&clips[0], placed[0], near);
    let b = lane_of(&clips[1], placed[1], near);
    let c = lane_of(&clips[2], placed[2], near);
    let d = lane_of(&clips[3], placed[3], near);
    let e = lane_of(&clips[4], placed[4], near);
    let f = lane_of(&clips[5], placed[5], near);
    let g = lane_of(&clips[6], placed[6], near);
    let h = lane_of(&clips[7], placed[7], near);
    Lanes {
        across: [
            a.across, b.across, c.across, d.across, e.across, f.across, g.across, h.across,
        ],
        down: [
            a.down, b.down, c.down, d.down, e.down, f.down, g.down, h.down,
        ],
        w: [a.w, b.w, c.w, d.w, e.w, f.w, g.w, h.w],
        own: [a.own, b.own, c.own, d.own, e.own, f.own, g.own, h.own],
    }
}

/// Where eight vertices stand on the screen, in sixteenths of a pixel, y downwards, and how near they are.
#[derive(Clone, Copy)]
pub struct Points {
    pub x: [i32; 8],
    pub y: [i32; 8],
    pub nearness: [u32; 8],
    /// Which are found: not those that have no place, nor those that lie 64 times w or more beside the middle.
    pub found: [bool; 8],
}

impl Points {
    /// The points of eight vertices, of which some have a place. Condition: those lie in front of the near plane and not
    /// past the guard.
    #[inline(always)]
    pub fn of(
        clips: &[ClipVertex; 8],
        placed: [bool; 8],
        scale: &NearnessScale,
        size: Size,
    ) -> Points
        requires { (j : ℕ) → j < 8 → slice_index_or placed j false ≡ true
            → IsInReach scale.now.near (vertex_at clips.now j) }
        ensures { (j : ℕ) → j < 8 → slice_index_or result.found j false ≡ true
            → IsPoint (vertex_at clips.now j) (top_of scale.now.grade * scale.now.near) size
            (slice_index_or result.x j (pos 0)) (slice_index_or result.y j (pos 0))
            (slice_index result.nearness j) }
    {
        let Lanes {
            across,
            down,
            w,
            own,
        } = lanes_of(clips, placed, scale.near);
        let divisors = Divisors::of(w);
        let x = divisors.places(size.width(), across);
        let y = divisors.places(size.height(), down);
        let nearness = scale.nearness(&divisors);
        Points {
            x,
            y,
            nearness,
            found: own,
        }
    }
}
