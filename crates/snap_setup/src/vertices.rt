//! The clip vertices of a frame on its screen: each is snapped once, however many triangles share it.
ghost use Rattle.std.specs.Prelude.{◌≡◌, ◌<◌, ◌≤◌, ◌⊎◌, [], length, IfOk};
ghost use Rattle.cull_base.specs.Grade.{top_of};
ghost use Rattle.near_clip.specs.NearPart.{corner};
ghost use Rattle.snap_setup.specs.Vertices.{screen_vertex, screen_vertices, AreShared};

use crate::occluders::Occluders;
use crate::snapping::{Snapped, snap};
use camera_path::past_guard;
use cull_base::{ClipVertex, Grade, Memory, Near, Side, Size};
use near_clip::{is_in_front, whole};
use side_by_side::for_each_share;
use std::alloc::Global;
use std::thread::Threads;

/// So many vertices are worth a thread's start.
const SHARE: usize = 4096;

/// A clip vertex as a corner of occluders. It has a place on the screen where it is in front of the near plane and not
/// past the guard.
#[derive(Clone, Copy)]
pub(crate) struct ScreenVertex {
    pub(crate) at: Snapped,
    pub(crate) placed: bool,
    pub(crate) past: bool,
}

#[inline(always)]
fn screen_vertex(v: &ClipVertex, near: Near, size: Size, grade: Grade) -> ScreenVertex
    ensures { result ≡ screen_vertex v.now (top_of grade) near.distance size }
{
    let past = past_guard(v, near.distance);
    let placed = is_in_front(v, near.distance) & !past;
    let at = if placed {
        snap(&whole(v), near.distance, size, Side::Occluder, grade)
    } else {
        Snapped { x: 0, y: 0, q: 0 }
    };
    ScreenVertex { at, placed, past }
}

// All of a frame's clip vertices, or none where its triangles have fewer corners.
fn shared_clips<'a>(occluders: &Occluders<'a>) -> &'a [ClipVertex]
    ensures { (result.now ≡ []) ⊎ (result.now ≡ occluders.now.clips.now) }
{
    if occluders.clips.len() <= 3 * occluders.tris.len() {
        occluders.clips
    } else {
        &occluders.clips[..0]
    }
}

/// A frame's vertices on the screen, or none where its triangles have fewer corners: these are then snapped one by one.
/// Err: out of memory.
pub(crate) fn shared_vertices(
    alloc: Global,
    occluders: &Occluders,
) -> Result<Vec<ScreenVertex>, Memory>
    ensures { IfOk result (λ v. AreShared occluders.now v.items) }
{
    let shared = shared_clips(occluders);
    let mut vertices = Vec::with_capacity(alloc, shared.len()).map_err(|_| Memory)?;
    // copies: they are known to stay while vertices are written
    let Occluders {
        near,
        size,
        grade,
        ..
    } = *occluders;
    for v in shared {
        vertices.push_reserved(screen_vertex(v, near, size, grade));
    }
    Ok(vertices)
}

// Puts each clip vertex on the screen, in its place.
fn put_all<R: Threads + Sync>(
    rt: &R,
    occluders: &Occluders,
    clips: &[ClipVertex],
    vertices: &mut [ScreenVertex],
    workers: u32,
)
    requires { length vertices.old ≡ length clips.now }
    ensures { let o = occluders.now in
        vertices.new ≡ screen_vertices clips.now (top_of o.grade) o.near.distance o.size }
{
    let threads = (vertices.len() / SHARE).min(workers as usize).max(1);
    for_each_share(
        rt,
        vertices,
        threads,
        &|i: usize, vertex: &mut ScreenVertex|
            requires { i < length clips.now }
            ensures { let o = occluders.entry.now in vertex.new
                ≡ screen_vertex (corner clips.entry.now i) (top_of o.grade) o.near.distance o.size }
        { *vertex = screen_vertex(&clips[i], occluders.near, occluders.size, occluders.grade) },
    );
}

/// As `shared_vertices`, by at most so many threads, and by several only where there are many vertices.
pub(crate) fn shared_vertices_by_workers<R: Threads + Sync>(
    rt: &R,
    alloc: Global,
    occluders: &Occluders,
    workers: u32,
) -> Result<Vec<ScreenVertex>, Memory>
    ensures { IfOk result (λ v. AreShared occluders.now v.items) }
{
    let unset = ScreenVertex {
        at: Snapped { x: 0, y: 0, q: 0 },
        placed: false,
        past: false,
    };
    let shared = shared_clips(occluders);
    let mut vertices = vec![in alloc; unset; shared.len()].map_err(|_| Memory)?;
    put_all(rt, occluders, shared, vertices.as_mut_slice(), workers);
    Ok(vertices)
}
