//! The pieces of a frame.
ghost use Rattle.std.specs.Prelude.{◌≡◌, ◌≤◌, ◌+◌, ◌*◌, [], ◌∷◌, length, take, drop, IfOk};
ghost use Rattle.std.specs.List.{All};
ghost use Rattle.cull_base.specs.Batches.{AreBatchesOf};
ghost use Rattle.cull_base.specs.Grade.{top_of};
ghost use Rattle.near_clip.specs.NearPart.{corner};
ghost use Rattle.snap_setup.specs.Batches.{list_of_batches};
ghost use Rattle.snap_setup.specs.Keeping.{Took};
ghost use Rattle.snap_setup.specs.Occluders.{list_of, list_of_part, list_of_some};
ghost use Rattle.snap_setup.specs.Pieces.{clip_at, HasClips};
ghost use Rattle.snap_setup.specs.Vertices.{screen_vertices, vertex_at, AreShared};

use crate::keeping::Keeping;
use crate::occluders::Occluders;
use crate::triangle::{Corners, ScreenCorners, push_pieces, push_shared};
use crate::vertices::{ScreenVertex, shared_vertices};
use cull_base::{Batch, ClipVertex, FrameList, Grade, Memory, Near, Size, Tri, Winding};
use std::alloc::Global;

// As `push_all`, each corner snapped by itself.
fn push_by_corners(
    occluders: &Occluders,
    tris: &[Tri],
    winding: Winding,
    keeping: Keeping,
    list: &mut FrameList,
) -> u32
    requires indices { All (HasClips (length occluders.now.clips.now)) tris.now }
    requires room { length list.old.list.members + 2 * length tris.now ≤ list.old.room }
    ensures { Took keeping list.old list.new result (list_of_part occluders.now winding tris.now) }
{
    let Occluders {
        clips,
        near,
        size,
        grade,
        ..
    } = *occluders;
    // an accessor tells how long a list may be
    let _length = list.len();
    let mut count = 0u32;
    for tri in tris {
        let corners = corner_references(clips, tri);
        count += push_pieces(&corners, near, size, winding, grade, keeping, list);
    }
    count
}

// As `push_all`, by all vertices on the screen.
fn push_by_vertices(
    occluders: &Occluders,
    vertices: &[ScreenVertex],
    tris: &[Tri],
    winding: Winding,
    keeping: Keeping,
    list: &mut FrameList,
) -> u32
    requires vertices { let o = occluders.now in
        vertices.now ≡ screen_vertices o.clips.now (top_of o.grade) o.near.distance o.size }
    requires indices { All (HasClips (length occluders.now.clips.now)) tris.now }
    requires room { length list.old.list.members + 2 * length tris.now ≤ list.old.room }
    ensures { Took keeping list.old list.new result (list_of_part occluders.now winding tris.now) }
{
    let clips = occluders.clips;
    // an accessor tells how long a list may be
    let _length = list.len();
    let mut count = 0u32;
    for tri in tris {
        let corners = vertex_references(vertices, tri);
        count += push_shared(
            occluders,
            corner_references(clips, tri),
            &corners,
            winding,
            keeping,
            list,
        );
    }
    count
}

// Puts the occluder pieces of some of a frame's triangles that are kept behind those that a list has, one triangle
// after another, all with one winding, and gives how many pieces the triangles have. Conditions: the vertices are all
// of the frame's or none, each index is below the number of clips, and the list has room for two pieces a triangle.
fn push_all(
    occluders: &Occluders,
    vertices: &[ScreenVertex],
    tris: &[Tri],
    winding: Winding,
    keeping: Keeping,
    list: &mut FrameList,
) -> u32
    requires vertices { AreShared occluders.now vertices.now }
    requires indices { All (HasClips (length occluders.now.clips.now)) tris.now }
    requires room { length list.old.list.members + 2 * length tris.now ≤ list.old.room }
    ensures { Took keeping list.old list.new result (list_of_part occluders.now winding tris.now) }
{
    if vertices.is_empty() {
        push_by_corners(occluders, tris, winding, keeping, list)
    } else {
        push_by_vertices(occluders, vertices, tris, winding, keeping, list)
    }
}

// The next so many of some triangles of which so many are done, or all that are left.
fn next_of(tris: &[Tri], done: usize, most: usize) -> &[Tri]
    requires { done ≤ length tris.now }
    ensures { result.now ≡ take most (drop done tris.now) }
{
    let rest = &tris[done..];
    &rest[..most.min(rest.len())]
}

/// As `push_all`, of triangles that so many of the frame's come before, each with the winding of its batch. An empty
/// batch, and one that lies before the triangles or behind them, costs one turn.
pub(crate) fn push_batches(
    occluders: &Occluders,
    vertices: &[ScreenVertex],
    tris: &[Tri],
    skipped: usize,
    keeping: Keeping,
    list: &mut FrameList,
) -> u32
    requires vertices { AreShared occluders.now vertices.now }
    requires indices { All (HasClips (length occluders.now.clips.now)) tris.now }
    requires room { length list.old.list.members + 2 * length tris.now ≤ list.old.room }
    ensures { Took keeping list.old list.new result (list_of_some occluders.now tris.now skipped) }
{
    let batches = occluders.batches;
    // an accessor tells how long a list may be
    let _length = list.len();
    let mut before = skipped;
    let mut done = 0usize;
    let mut count = 0u32;
    for batch in batches {
        let of_batch = batch.count as usize;
        let part = next_of(tris, done, of_batch.saturating_sub(before));
        before = before.saturating_sub(of_batch);
        done += part.len();
        count += push_all(occluders, vertices, part, batch.winding, keeping, list);
    }
    count
}

/// As `push_batches`, of all of a frame's triangles.
pub(crate) fn push_whole(
    occluders: &Occluders,
    vertices: &[ScreenVertex],
    keeping: Keeping,
    list: &mut FrameList,
) -> u32
    requires vertices { AreShared occluders.now vertices.now }
    requires room { length list.old.list.members + 2 * length occluders.now.tris.now ≤ list.old.room }
    ensures { Took keeping list.old list.new result (list_of occluders.now) }
{
    push_batches(occluders, vertices, occluders.tris, 0, keeping, list)
}

/// The occluder pieces of the triangles, one triangle after another, each with the winding of its batch. All memory is
/// allocated first. Err: out of memory. Conditions: `near` is 1 to 1024, there are at most 65,536 triangles, each index
/// is below the number of clips, and the batches' counts sum to the number of triangles.
pub fn frame_list(
    alloc: Global,
    clips: &[ClipVertex],
    tris: &[Tri],
    near: u16,
    size: Size,
    batches: &[Batch],
    grade: Grade,
) -> Result<FrameList, Memory>
    requires near_least { 1 ≤ near }
    requires near_most { near ≤ 1024 }
    requires triangles { length tris.now ≤ 65536 }
    requires indices { All (HasClips (length clips.now)) tris.now }
    requires counted { AreBatchesOf batches.now (length tris.now) }
    ensures members { IfOk result
        (λ f. f.list.members ≡ list_of_batches clips.now tris.now (top_of grade) near size batches.now) }
    ensures size { IfOk result (λ f. f.list.size ≡ size) }
{
    let occluders = Occluders {
        clips,
        tris,
        near: Near { distance: near },
        size,
        batches,
        grade,
    };
    list_in_turn(alloc, &occluders)
}

/// As `frame_list`.
pub(crate) fn list_in_turn(alloc: Global, occluders: &Occluders) -> Result<FrameList, Memory>
    ensures members { IfOk result (λ f. f.list.members ≡ list_of occluders.now) }
    ensures size { IfOk result (λ f. f.list.size ≡ occluders.now.size) }
{
    let mut list = FrameList::with_room(alloc, occluders.size, 2 * occluders.tris.len() as u32)?;
    let vertices = shared_vertices(alloc, occluders)?;
    push_whole(occluders, vertices.as_slice(), Keeping::Each, &mut list);
    Ok(list)
}

// Where the vertices of a triangle stand among some clip vertices.
#[inline(always)]
fn corner_references<'a>(clips: &'a [ClipVertex], tri: &Tri) -> Corners<'a>
    requires { HasClips (length clips.now) tri.now }
    ensures first { result.v0.now ≡ clip_at clips.now tri.now 0 }
    ensures second { result.v1.now ≡ clip_at clips.now tri.now 1 }
    ensures third { result.v2.now ≡ clip_at clips.now tri.now 2 }
{
    let [a, b, c] = tri.0;
    Corners {
        v0: &clips[a as usize],
        v1: &clips[b as usize],
        v2: &clips[c as usize],
    }
}

// Where the vertices of a triangle stand among those on the screen.
#[inline(always)]
fn vertex_references<'a>(vertices: &'a [ScreenVertex], tri: &Tri) -> ScreenCorners<'a>
    requires { HasClips (length vertices.now) tri.now }
    ensures first { result.v0.now ≡ vertex_at vertices.now tri.now 0 }
    ensures second { result.v1.now ≡ vertex_at vertices.now tri.now 1 }
    ensures third { result.v2.now ≡ vertex_at vertices.now tri.now 2 }
    ensures three { length tri.now.0 ≡ 3 }
{
    let [a, b, c] = tri.0;
    ScreenCorners {
        v0: &vertices[a as usize],
        v1: &vertices[b as usize],
        v2: &vertices[c as usize],
    }
}

/// The three vertices of a triangle, by its indices among clip vertices. Condition: each index is below their number.
#[inline(always)]
pub fn corners(clips: &[ClipVertex], tri: &Tri) -> [ClipVertex; 3]
    requires { HasClips (length clips.now) tri.now }
    ensures first { corner result 0 ≡ clip_at clips.now tri.now 0 }
    ensures second { corner result 1 ≡ clip_at clips.now tri.now 1 }
    ensures third { corner result 2 ≡ clip_at clips.now tri.now 2 }
    ensures whole { result
        ≡ clip_at clips.now tri.now 0 ∷ clip_at clips.now tri.now 1 ∷ clip_at clips.now tri.now 2 ∷ [] }
{
    let Corners { v0, v1, v2 } = corner_references(clips, tri);
    [*v0, *v1, *v2]
}
