//! The pieces of a frame, made by threads side by side: each makes those of a run of triangles, and the runs are joined
//! in submission order.
ghost use Rattle.std.specs.Prelude.{◌≡◌, ◌<◌, ◌≤◌, ◌*◌, ◌+◌, length, IfOk};
ghost use Rattle.std.specs.List.{All};
ghost use Rattle.cull_base.specs.Screen.{Dimensions};
ghost use Rattle.cull_base.specs.Tiles.{with_members};
ghost use Rattle.snap_setup.specs.Occluders.{list_of, list_of_some};
ghost use Rattle.snap_setup.specs.Pieces.{HasClips};
ghost use Rattle.snap_setup.specs.Runs.{members_of, run_of, run_pieces};
ghost use Rattle.snap_setup.specs.Runs.{AreFilled, AreMade, IsFirstFor, IsRoom};
ghost use Rattle.snap_setup.specs.Vertices.{AreShared};

use crate::frame::{list_in_turn, push_batches};
use crate::keeping::Keeping;
use crate::occluders::Occluders;
use crate::vertices::{ScreenVertex, shared_vertices_by_workers};
use cull_base::{FrameList, Memory, Size, Tri};
use side_by_side::for_each_share;
use std::alloc::Global;
use std::mem;
use std::thread::Threads;

/// So many triangles are worth a thread's start.
const SHARE: usize = 1024;

// Empty lists for the pieces of so many runs. The first has room for those of all runs.
fn rooms_for(
    alloc: Global,
    size: Size,
    whole: usize,
    share: usize,
    runs: usize,
) -> Result<Vec<FrameList>, Memory>
    requires whole { whole ≤ 65536 }
    requires share { share ≤ whole }
    requires runs { 0 < runs }
    ensures empty { IfOk result (λ v. All (IsRoom size (2 * share)) v.items) }
    ensures first { IfOk result (λ v. IsFirstFor size (2 * whole) v.items) }
    ensures runs { IfOk result (λ v. length v.items ≡ runs) }
{
    let mut rooms = Vec::with_capacity(alloc, runs).map_err(|_| Memory)?;
    rooms.push_reserved(FrameList::with_room(alloc, size, 2 * whole as u32)?);
    for _ in 1..runs {
        rooms.push_reserved(FrameList::with_room(alloc, size, 2 * share as u32)?);
    }
    Ok(rooms)
}

// Run k of the triangles.
fn run(tris: &[Tri], share: usize, k: usize) -> &[Tri]
    requires triangles { length tris.now ≤ 65536 }
    requires share { share ≤ 65536 }
    requires run { k ≤ 65536 }
    ensures { result.now ≡ run_of tris.now share k }
{
    let start = tris.len().min(k * share);
    let end = tris.len().min(start + share);
    &tris[start..end]
}

// As `push_batches`, where each piece is kept. Meanwhile the list stands apart from those of other threads: side by
// side these are on one cache line, which each piece would take from the others.
fn push_all_apart(
    alloc: Global,
    occluders: &Occluders,
    vertices: &[ScreenVertex],
    tris: &[Tri],
    skipped: usize,
    list: &mut FrameList,
)
    requires vertices { AreShared occluders.now vertices.now }
    requires indices { All (HasClips (length occluders.now.clips.now)) tris.now }
    requires room { length list.old.list.members + 2 * length tris.now ≤ list.old.room }
    ensures { list.new ≡ with_members list.old (list_of_some occluders.now tris.now skipped) }
{
    match FrameList::with_room(alloc, occluders.size, 0) {
        Ok(empty) => {
            let mut apart = mem::replace(list, empty);
            push_batches(
                occluders,
                vertices,
                tris,
                skipped,
                Keeping::Each,
                &mut apart,
            );
            *list = apart;
        }
        Err(_) => {
            push_batches(occluders, vertices, tris, skipped, Keeping::Each, list);
        }
    }
}

// Fills each room with the pieces of its run.
fn fill<R: Threads + Sync>(
    rt: &R,
    alloc: Global,
    rooms: &mut [FrameList],
    occluders: &Occluders,
    vertices: &[ScreenVertex],
    share: usize,
)
    requires vertices { AreShared occluders.now vertices.now }
    requires share { share ≤ 65536 }
    requires runs { 0 < length rooms.old }
    requires few { length rooms.old ≤ 65536 }
    requires empty { All (IsRoom occluders.now.size (2 * share)) rooms.old }
    ensures filled { AreFilled occluders.now share rooms.old rooms.new }
    ensures runs { length rooms.new ≡ length rooms.old }
{
    let threads = rooms.len();
    for_each_share(
        rt,
        rooms,
        threads,
        &|k: usize, room: &mut FrameList|
            requires vertices { AreShared occluders.now vertices.now }
            requires share { share ≤ 65536 }
            requires run { k ≤ 65536 }
            requires empty { IsRoom occluders.now.size (2 * share) room.old }
            ensures { room.new ≡ with_members room.old (run_pieces occluders.entry.now share k) }
        {
            push_all_apart(
                alloc,
                occluders,
                vertices,
                run(occluders.tris, share, k),
                k * share,
                room,
            )
        },
    );
}

// The pieces of each of so many runs, made side by side. The first list has room for all of them.
fn make_runs<R: Threads + Sync>(
    rt: &R,
    alloc: Global,
    occluders: &Occluders,
    vertices: &[ScreenVertex],
    share: usize,
    runs: usize,
) -> Result<Vec<FrameList>, Memory>
    requires vertices { AreShared occluders.now vertices.now }
    requires share { share ≤ length occluders.now.tris.now }
    requires runs { 0 < runs }
    requires few { runs ≤ 65536 }
    ensures made { IfOk result (λ v. AreMade occluders.now share v.items) }
    ensures first { IfOk result
        (λ v. IsFirstFor occluders.now.size (2 * length occluders.now.tris.now) v.items) }
    ensures runs { IfOk result (λ v. length v.items ≡ runs) }
{
    let mut rooms = rooms_for(alloc, occluders.size, occluders.tris.len(), share, runs)?;
    fill(rt, alloc, rooms.as_mut_slice(), occluders, vertices, share);
    Ok(rooms)
}

// Appends the members of some lists, one list after another.
fn join_all(list: &mut FrameList, rooms: &[FrameList])
    requires { length list.old.list.members + length (members_of rooms.now) ≤ list.old.room }
    ensures { list.new ≡ with_members list.old (members_of rooms.now) }
{
    for room in rooms {
        list.append(room);
    }
}

/// The pieces that `frame_list` gives. One thread for each 1,024 triangles makes them, and at most `workers` threads;
/// where these would be fewer than two, the caller makes them. Err: out of memory.
pub fn frame_list_by_workers<R: Threads + Sync>(
    rt: &R,
    alloc: Global,
    occluders: &Occluders,
    workers: u32,
) -> Result<FrameList, Memory>
    ensures members { IfOk result (λ f. f.list.members ≡ list_of occluders.now) }
    ensures size { IfOk result (λ f. f.list.size ≡ occluders.now.size) }
{
    let runs = (occluders.tris.len() / SHARE).min(workers as usize);
    if runs <= 1 {
        return list_in_turn(alloc, occluders);
    }
    let share = occluders.tris.len().div_ceil(runs);
    let vertices = shared_vertices_by_workers(rt, alloc, occluders, workers)?;
    let mut rooms = make_runs(rt, alloc, occluders, vertices.as_slice(), share, runs)?;
    let mut list = rooms.remove(0);
    join_all(&mut list, rooms.as_slice());
    Ok(list)
}
