//! A pool with more workers than bins, and each bin drawn by one of them.
ghost use Rattle.std.specs.Prelude.{◌≡◌, ◌≤◌, IfOk, length};

use crate::tests::batches::opened;
use bin_queues::Batched;
use binning::{Cut, batch_size};
use cull_base::{FrameList, Memory, ScreenTri, Size};
use std::alloc::Global;
use std::process::Abort;
use std::sync::Wait;
use std::test::Fail;
use std::thread::Threads;
use steal_pool::{
    drain_pool, each_bin_is_in_one_list, owner_has_every_place, places_are_taken_once,
};
use tile_queues::{BinTask, OpenGate};

/// Three pieces with boxes in x from 0 to 10, from 20 to 40 and from 33 to 50.
pub fn three(rt: &HostRuntime) -> Result<FrameList, Fail> {
    let size = Size::new(64, 8).ok_or("a size")?;
    let mut list = FrameList::with_room(rt.alloc(), size, 3)?;
    for x in [[0, 159, 159], [320, 639, 639], [528, 799, 799]] {
        let piece = ScreenTri::new(x, [0, 0, 127], [9; 3]).ok_or("a piece")?;
        if list.len() < 3 {
            list.push(piece);
        }
    }
    Ok(list)
}

// What each of so many workers drew of a frame.
fn drawn_by<R: Threads + Wait + Sync>(
    rt: &R,
    alloc: Global,
    frame: &Batched,
    workers: u32,
) -> Result<Vec<Vec<BinTask>>, Memory>
    requires some { 1 ≤ workers }
    requires most { workers ≤ 64 }
    ensures { IfOk result (λ v. length v.items ≡ workers) }
{
    let list = frame.list;
    let (cells, queues, mut tasks) = opened(rt, alloc, frame)?;
    let drawn = drain_pool(
        rt, alloc, &queues, &mut tasks, &cells, list, workers, &OpenGate,
    )?;
    Ok(drawn)
}

// How many tasks of so many bins are in the lists, and how many pieces and batches these drew.
fn counted(lists: &[Vec<BinTask>], bins: u32) -> (usize, u32, u32) {
    let (mut tasks, mut pieces, mut batches) = (0usize, 0u32, 0u32);
    for list in lists {
        for task in list.iter() {
            if task.bin() < bins {
                tasks = tasks.saturating_add(1);
                pieces = pieces.saturating_add(task.taken());
                batches = batches.saturating_add(task.batches());
            }
        }
    }
    (tasks, pieces, batches)
}

// Each of so many workers has a list when a list of pieces is drawn in the bins of a cut, in batches of so many, and in
// the lists are so many tasks, pieces and batches.
fn assert_drawn<R: Threads + Wait + Sync + Abort>(
    rt: &R,
    list: &FrameList,
    cut: &Cut,
    asked: u32,
    workers: u32,
    wanted: (usize, u32, u32),
    alloc: Global,
) -> Result<(), Fail>
    requires asked { 1 ≤ asked }
    requires some { 1 ≤ workers }
    requires most { workers ≤ 64 }
{
    let size = batch_size(list.len(), asked);
    let frame = Batched { list, cut, size };
    let lists = drawn_by(rt, alloc, &frame, workers)?;
    assert_eq!(rt; lists.len(), workers as usize);
    assert_eq!(rt; counted(lists.as_slice(), cut.bins()), wanted);
    Ok(())
}

// Of the three pieces two meet each of two bins.
#[test]
fn each_bin_is_drawn_by_one_worker(rt: HostRuntime) -> Result<(), Fail> {
    let list = three(&rt)?;
    let cut = Cut::new(2, 1).ok_or("a cut")?;
    for workers in [1, 2, 3] {
        assert_drawn(&rt, &list, &cut, 2, workers, (2, 4, 4), rt.alloc())?;
    }
    Ok(())
}

#[test]
fn more_workers_than_bins_have_a_list_each(rt: HostRuntime) -> Result<(), Fail> {
    let list = three(&rt)?;
    let cut = Cut::new(1, 1).ok_or("a cut")?;
    assert_drawn(&rt, &list, &cut, 1, 64, (1, 3, 3), rt.alloc())
}

// Each place of a deque is taken once, front counts them, and so each bin is in one worker's list.
#[test]
fn each_task_is_handed_out_once() {
    places_are_taken_once();
    owner_has_every_place();
    each_bin_is_in_one_list();
}
