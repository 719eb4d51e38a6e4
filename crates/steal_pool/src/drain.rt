//! A pool of deques that draws all tasks of a frame.
ghost use Rattle.std.specs.Prelude.{◌≡◌, ◌*◌, ◌≤◌, ◌<◌, ℕ, [], All, length, slice_index_or, vec_items, vec_capacity};
ghost use Rattle.std.specs.Prelude.{IfOk, OnErr, OnOk};
ghost use Rattle.crossbeam_deque.specs.Handles.{stealer_deque};
ghost use Rattle.bin_queues.specs.Tasks.{Tasking};
ghost use Rattle.tile_queues.specs.Shares.{AreWhole};
ghost use Rattle.steal_pool.specs.DequeRule.{IsToldIn};
ghost use Rattle.steal_pool.specs.Finish.{AreAt, AreFinishedTo, lists_weigh, pushed_weigh};
ghost use Rattle.steal_pool.specs.Lists.{frame_at, joined, AreTold};
ghost use Rattle.steal_pool.specs.Making.{AreRoomy, HaveRoom, IsEmptySeat};
ghost use Rattle.steal_pool.specs.Pools.{call_of, frame_of, tasks_weigh};
ghost use Rattle.steal_pool.specs.Seats.{IsOpen};

use crate::deal::{deal, most_owned};
use crate::deque_rule::{DequePass, Thief};
use crate::lend::{lend_all, rows_of};
use crate::lists::lists_of;
use crate::making::{empty_seats, thieves_of};
use crate::pool::Pool;
use crate::seat::Seat;
use crate::several::drain_seats;
use binning::Cut;
use cull_base::{FrameList, Memory};
use std::alloc::Global;
use std::mem;
use std::sync::Wait;
use std::thread::Threads;
use tile_cells::TileCells;
use tile_queues::{BinQueues, BinTask, Gate};

/// Deals tasks to new seats and lends each worker its passes. Conditions: each seat owns the deque at its place, the
/// tasks are told of all batches, no worker gets more than a deque is for, and there is room for each worker's passes.
pub(crate) fn fill<R, G>(
    pool: &Pool<R, G>,
    thieves: &[Thief],
    seats: &mut [Seat],
    tasks: Vec<BinTask>,
    rows: Vec<Vec<DequePass>>,
)
    requires some { 0 < length seats.old }
    requires many { length seats.old ≡ length thieves.now }
    requires deques { AreAt stealer_deque thieves.now seats.old }
    requires empty { All (IsEmptySeat (call_of pool.now) (length seats.old)) seats.old }
    requires told { All (IsToldIn (call_of pool.now)) tasks.items }
    requires room { HaveRoom (length seats.old) pool.now.room tasks.items }
    requires rows { length rows.items ≡ length seats.old }
    requires roomy { AreRoomy vec_items vec_capacity (length seats.old) rows.items }
    ensures many { length seats.new ≡ length seats.old }
    ensures open { All (IsOpen stealer_deque (call_of pool.now) thieves.now) seats.new }
    ensures deques { AreAt stealer_deque thieves.now seats.new }
    ensures once { (k : ℕ → ℕ) → pushed_weigh k seats.new ≡ tasks_weigh k tasks.items }
{
    let workers = seats.len();
    deal(pool, seats, tasks, workers);
    lend_all(rows, seats, pool, thieves);
}

// The tasks are dealt to new seats and drawn. Err where memory gave out, and then they are as they were.
fn run<R: Threads + Wait + Sync, G: Gate>(
    pool: &Pool<R, G>,
    alloc: Global,
    seats: &mut [Seat],
    tasks: &mut Vec<BinTask>,
) -> Result<(), Memory>
    requires some { 0 < length seats.old }
    requires empty { All (IsEmptySeat (call_of pool.now) (length seats.old)) seats.old }
    requires told { All (IsToldIn (call_of pool.now)) tasks.old.items }
    requires room { HaveRoom (length seats.old) pool.now.room tasks.old.items }
    ensures many { OnOk result (length seats.new ≡ length seats.old) }
    ensures finished { OnOk result (AreFinishedTo (call_of pool.now) (length seats.new) seats.new) }
    ensures once { OnOk result ((k : ℕ → ℕ) → lists_weigh k seats.new ≡ tasks_weigh k tasks.old.items) }
    ensures undrawn { OnErr result (tasks.new ≡ tasks.old) }
{
    let thieves = thieves_of(alloc, seats)?;
    let rows = rows_of(alloc, seats.len())?;
    let given = mem::replace(tasks, Vec::new(alloc));
    let lent = thieves.as_slice();
    fill(pool, lent, seats, given, rows);
    drain_seats(pool, alloc, lent, seats);
    Ok(())
}

/// Draws all tasks by so many workers, each in a thread of its own, and gives what each drew. Err where memory gave
/// out, and then the tasks are as they were. Conditions: 1 to 64 workers, and the tasks are those of the pool's frame,
/// told of all batches.
pub(crate) fn drain_tasks<R: Threads + Wait + Sync, G: Gate>(
    pool: &Pool<R, G>,
    alloc: Global,
    tasks: &mut Vec<BinTask>,
    workers: usize,
) -> Result<Vec<Vec<BinTask>>, Memory>
    requires some { 1 ≤ workers }
    requires few { pool.now.room ≤ 64 }
    requires small { workers * pool.now.room ≤ 4096 }
    requires room { HaveRoom workers pool.now.room tasks.old.items }
    requires tasks { AreTold pool.now.queues.now (frame_of pool.now) tasks.old.items }
    ensures count { IfOk result (λ v. length v.items ≡ workers) }
    ensures whole { IfOk result (λ v.
        AreWhole pool.now.queues.now (frame_of pool.now) (joined vec_items v.items)) }
    ensures undrawn { OnErr result (tasks.new ≡ tasks.old) }
{
    let mut seats = empty_seats(alloc, pool, workers)?;
    let room = Vec::with_capacity(alloc, workers).map_err(|_| Memory)?;
    run(pool, alloc, seats.as_mut_slice(), tasks)?;
    Ok(lists_of(pool, seats, room))
}

// How the screen is cut for a task.
fn cut_at(tasks: &[BinTask], place: usize) -> Cut
    requires { place < length tasks.now }
    ensures { (t : Tasking) → result ≡ (slice_index_or tasks.now place t).of.frame.cut }
{
    *tasks[place].cut()
}

// How many pieces a batch has for a task.
fn size_at(tasks: &[BinTask], place: usize) -> u32
    requires { place < length tasks.now }
    ensures { (t : Tasking) → result ≡ (slice_index_or tasks.now place t).of.frame.size }
{
    tasks[place].size()
}

/// Draws all tasks of a frame by so many workers: a worker takes those of its own deque, in their order, and where
/// that is empty those that are left to others. Gives each worker's list of the tasks that it drew: together they have
/// one task of each bin, with all batches drawn, of these queues and of this frame. All memory is taken before the
/// first task is. Err where memory gave out: the tasks are as they were then, so none is drawn. Conditions: the tasks
/// are those of all bins of the frame, in any order, each told of all batches; the cells and the list are the frame's;
/// 1 to 64 workers.
pub fn drain_pool<R: Threads + Wait + Sync, G: Gate>(
    rt: &R,
    alloc: Global,
    queues: &BinQueues,
    tasks: &mut Vec<BinTask>,
    cells: &TileCells,
    list: &FrameList,
    workers: u32,
    gate: &G,
) -> Result<Vec<Vec<BinTask>>, Memory>
    requires tasks { AreTold queues.now (frame_at tasks.old.items) tasks.old.items }
    requires cells { (frame_at tasks.old.items).cells ≡ cells.now }
    requires list { (frame_at tasks.old.items).list ≡ list.now.list }
    requires some { 1 ≤ workers }
    requires most { workers ≤ 64 }
    ensures count { IfOk result (λ v. length v.items ≡ workers) }
    ensures whole { IfOk result (λ v.
        AreWhole queues.now (frame_at tasks.old.items) (joined vec_items v.items)) }
    ensures undrawn { OnErr result (tasks.new ≡ tasks.old) }
{
    let workers = workers as usize;
    let given = tasks.as_slice();
    let cut = cut_at(given, 0);
    let size = size_at(given, 0);
    // an accessor tells how many bins there are
    let _bins = cut.bins();
    let room = most_owned(given, workers);
    let pool = Pool {
        rt,
        queues,
        cells,
        list,
        gate,
        cut,
        size,
        room,
    };
    let lists = drain_tasks(&pool, alloc, tasks, workers)?;
    Ok(lists)
}
