//! A frame drawn through cells by a pool of deques, while a caller reads them.
ghost use Rattle.std.specs.Prelude.{◌≡◌, ◌≤◌, ◌<◌, ◌+◌, ◌*◌, ℕ, All, length, IfOk, OnErr, OnOk};
ghost use Rattle.crossbeam_deque.specs.Handles.{stealer_deque};
ghost use Rattle.binning.specs.Parts.{batch_count_of};
ghost use Rattle.cull_base.specs.Screen.{tile_count_of};
ghost use Rattle.cull_base.specs.Tiles.{ArePieces};
ghost use Rattle.tile_cells.specs.Cells.{AreFresh};
ghost use Rattle.tile_cells.specs.Standing.{AreStanding, IsReading};
ghost use Rattle.bin_queues.specs.Frames.{over};
ghost use Rattle.bin_queues.specs.Tasks.{IsSubmitterOf};
ghost use Rattle.tile_queues.specs.Callers.{Follows};
ghost use Rattle.tile_queues.specs.Shares.{AreWhole};
ghost use Rattle.steal_pool.specs.DequeRule.{IsToldIn};
ghost use Rattle.steal_pool.specs.Finish.{AreAt, AreFinishedTo, lists_weigh, pushed_weigh};
ghost use Rattle.steal_pool.specs.Lists.{AreTold};
ghost use Rattle.steal_pool.specs.Making.{HaveRoom, IsEmptySeat};
ghost use Rattle.steal_pool.specs.Pools.{call_of, frame_of, tasks_weigh};
ghost use Rattle.steal_pool.specs.Seats.{IsOpen};

use crate::deal::most_owned;
use crate::deque_rule::Thief;
use crate::drain::fill;
use crate::lend::rows_of;
use crate::lists::{join_lists, lists_of};
use crate::making::{empty_seats, thieves_of};
use crate::pool::Pool;
use crate::seat::Seat;
use crate::several::drain_seats;
use crate::submitting::{submit_all, tell_all};
use bin_queues::Batched;
use binning::Cut;
use cull_base::{FrameList, Memory};
use std::alloc::Global;
use std::mem;
use std::sync::Wait;
use std::thread::{Threads, join_mut};
use tile_cells::{TileCells, TileReader, TileWriter};
use tile_queues::{BinQueues, BinTask, Caller, Gate, Submitter, read_cells};

/// The queues of a frame with their submitter, which submitted all batches, and the task of each bin, told of them. Err
/// where memory gave out. Conditions: the cells are of the list, and the writers are those that were made with them.
pub(crate) fn open_frame<R: Threads + Wait + Sync, G: Gate>(
    rt: &R,
    alloc: Global,
    frame: &Batched,
    _cells: &TileCells,
    writers: Vec<TileWriter>,
    gate: &G,
    workers: u32,
) -> Result<(BinQueues, Submitter, Vec<BinTask>), Memory>
    requires whole { length _cells.now ≡ tile_count_of frame.now.list.now.list.size }
    requires writers { AreFresh _cells.now frame.now.list.now.list (length _cells.now) writers.items }
    ensures submitter { IfOk result (λ r. IsSubmitterOf r.0 r.1) }
    ensures frame { IfOk result (λ r. r.1.frame ≡ over frame.now _cells.now) }
    ensures tasks { IfOk result (λ r. AreTold r.0 (over frame.now _cells.now) r.2.items) }
{
    let (list, cut, size) = (frame.list, frame.cut, frame.size);
    // an accessor tells that there is a bin
    let _bins = cut.bins();
    let (queues, mut submitter, mut tasks) = BinQueues::make(rt, alloc, list, cut, size, writers)?;
    submit_all(rt, alloc, &queues, &mut submitter, frame, gate, workers)?;
    tell_all(rt, &queues, &mut submitter, tasks.as_mut_slice());
    Ok((queues, submitter, tasks))
}

// All tasks of all deques are drawn, while the caller reads the cells. The caller has a thread of its own.
fn drain_beside<R: Threads + Wait + Sync, G: Gate, C: Caller>(
    pool: &Pool<R, G>,
    alloc: Global,
    thieves: &[Thief],
    seats: &mut [Seat],
    reader: &mut TileReader,
    caller: &mut C,
)
    requires many { length seats.old ≡ length thieves.now }
    requires open { All (IsOpen stealer_deque (call_of pool.now) thieves.now) seats.old }
    requires deques { AreAt stealer_deque thieves.now seats.old }
    requires reader { IsReading pool.now.cells.now pool.now.list.now.list reader.old }
    requires ready { C.ready caller.old pool.now.list.now.list }
    ensures many { length seats.new ≡ length seats.old }
    ensures finished { AreFinishedTo (call_of pool.now) (length seats.old) seats.new }
    ensures once { (k : ℕ → ℕ) → lists_weigh k seats.new ≡ pushed_weigh k seats.old }
    ensures done { C.done caller.new pool.now.list.now.list reader.new }
    ensures keeps { C.keeps caller.old caller.new }
    ensures follows { Follows reader.old reader.new }
{
    let (rt, cells, list) = (pool.rt, pool.cells, pool.list);
    join_mut(
        rt,
        &mut ||
            requires reader { IsReading cells.now list.now.list reader.now }
            requires ready { C.ready caller.now list.now.list }
            ensures done { C.done caller.exit.now list.entry.now.list reader.exit.now }
            ensures keeps { C.keeps caller.entry.now caller.exit.now }
            ensures follows { Follows reader.entry.now reader.exit.now }
        { read_cells(rt, cells, reader, list, caller) },
        &mut ||
            requires many { length seats.now ≡ length thieves.now }
            requires open { All (IsOpen stealer_deque (call_of pool.now) thieves.now) seats.now }
            requires deques { AreAt stealer_deque thieves.now seats.now }
            ensures many { length seats.exit.now ≡ length seats.entry.now }
            ensures finished { AreFinishedTo (call_of pool.entry.now) (length seats.entry.now) seats.exit.now }
            ensures once { (k : ℕ → ℕ) → lists_weigh k seats.exit.now ≡ pushed_weigh k seats.entry.now }
        { drain_seats(pool, alloc, thieves, seats) },
    );
}

// The tasks are dealt to new seats and drawn, while the caller reads the cells. Err where memory gave out: then the
// tasks, the reader and the caller are as they were.
fn run_beside<R: Threads + Wait + Sync, G: Gate, C: Caller>(
    pool: &Pool<R, G>,
    alloc: Global,
    seats: &mut [Seat],
    tasks: &mut Vec<BinTask>,
    reader: &mut TileReader,
    caller: &mut C,
) -> Result<(), Memory>
    requires some { 0 < length seats.old }
    requires empty { All (IsEmptySeat (call_of pool.now) (length seats.old)) seats.old }
    requires told { All (IsToldIn (call_of pool.now)) tasks.old.items }
    requires room { HaveRoom (length seats.old) pool.now.room tasks.old.items }
    requires reader { IsReading pool.now.cells.now pool.now.list.now.list reader.old }
    requires ready { C.ready caller.old pool.now.list.now.list }
    ensures many { OnOk result (length seats.new ≡ length seats.old) }
    ensures finished { OnOk result (AreFinishedTo (call_of pool.now) (length seats.new) seats.new) }
    ensures once { OnOk result ((k : ℕ → ℕ) → lists_weigh k seats.new ≡ tasks_weigh k tasks.old.items) }
    ensures done { OnOk result (C.done caller.new pool.now.list.now.list reader.new) }
    ensures keeps { OnOk result (C.keeps caller.old caller.new) }
    ensures follows { OnOk result (Follows reader.old reader.new) }
    ensures undrawn { OnErr result (tasks.new ≡ tasks.old) }
    ensures unread { OnErr result ((reader.new ≡ reader.old) × (caller.new ≡ caller.old)) }
{
    let thieves = thieves_of(alloc, seats)?;
    let rows = rows_of(alloc, seats.len())?;
    let given = mem::replace(tasks, Vec::new(alloc));
    let lent = thieves.as_slice();
    fill(pool, lent, seats, given, rows);
    drain_beside(pool, alloc, lent, seats, reader, caller);
    Ok(())
}

// All tasks, drawn by so many workers while the caller reads the cells. Err where memory gave out: then the tasks, the
// reader and the caller are as they were. Conditions: those of `drain_tasks`.
fn draw_tasks<R: Threads + Wait + Sync, G: Gate, C: Caller>(
    pool: &Pool<R, G>,
    alloc: Global,
    tasks: &mut Vec<BinTask>,
    workers: usize,
    reader: &mut TileReader,
    caller: &mut C,
) -> Result<Vec<BinTask>, Memory>
    requires some { 1 ≤ workers }
    requires few { pool.now.room ≤ 64 }
    requires small { workers * pool.now.room ≤ 4096 }
    requires room { HaveRoom workers pool.now.room tasks.old.items }
    requires tasks { AreTold pool.now.queues.now (frame_of pool.now) tasks.old.items }
    requires reader { IsReading pool.now.cells.now pool.now.list.now.list reader.old }
    requires ready { C.ready caller.old pool.now.list.now.list }
    ensures whole { IfOk result (λ v. AreWhole pool.now.queues.now (frame_of pool.now) v.items) }
    ensures done { OnOk result (C.done caller.new pool.now.list.now.list reader.new) }
    ensures keeps { OnOk result (C.keeps caller.old caller.new) }
    ensures follows { OnOk result (Follows reader.old reader.new) }
    ensures undrawn { OnErr result (tasks.new ≡ tasks.old) }
    ensures unread { OnErr result ((reader.new ≡ reader.old) × (caller.new ≡ caller.old)) }
{
    let all = Vec::with_capacity(alloc, tasks.len()).map_err(|_| Memory)?;
    let room = Vec::with_capacity(alloc, workers).map_err(|_| Memory)?;
    let mut seats = empty_seats(alloc, pool, workers)?;
    run_beside(pool, alloc, seats.as_mut_slice(), tasks, reader, caller)?;
    Ok(join_lists(all, lists_of(pool, seats, room)))
}

/// A frame drawn by workers through cells, while a caller reads them, as `draw_frame` draws it: each member of a tile's
/// list is a store in its cell, and the writers are given back in tile order, each of these cells and at the length of
/// its tile's list, whatever the cut, the number of workers and the size of batches. All batches are binned first, of
/// many pieces by the workers side by side, and submitted in order. Then each worker draws the bins of its own, bin b
/// belonging to worker b mod workers, and when it is done with them those that are left to others; each bin is drawn
/// whole, by one of them. The caller is lent these cells and this reader, in a thread of its own, and is done
/// afterwards. The gate is asked before a batch is binned, and before a bin draws a member, with the number that it has
/// drawn. Err where memory gave out: the writers are given up then, and the reader and the caller are as they were.
/// Conditions: the cells are of this list, the writers and the reader are those that were made with them, and no member
/// is drawn; the caller is ready; 1 to 64 workers, and a batch has at least one piece, so that there are at most 2048.
pub fn draw_stolen<R: Threads + Wait + Sync, G: Gate, C: Caller>(
    rt: &R,
    alloc: Global,
    list: &FrameList,
    cells: &TileCells,
    writers: Vec<TileWriter>,
    reader: &mut TileReader,
    cut: &Cut,
    workers: u32,
    batch: u32,
    gate: &G,
    caller: &mut C,
) -> Result<Vec<TileWriter>, Memory>
    requires whole { length cells.now ≡ tile_count_of list.now.list.size }
    requires writers { AreFresh cells.now list.now.list (length cells.now) writers.items }
    requires reader { IsReading cells.now list.now.list reader.old }
    requires some { 1 ≤ workers }
    requires most { workers ≤ 64 }
    requires batch { 1 ≤ batch }
    requires few { batch_count_of (length list.now.list.members) batch ≤ 2048 }
    requires ready { C.ready caller.old list.now.list }
    ensures standing { IfOk result (λ v.
        AreStanding cells.now list.now.list (length list.now.list.members) v.items) }
    ensures done { OnOk result (C.done caller.new list.now.list reader.new) }
    ensures keeps { OnOk result (C.keeps caller.old caller.new) }
    ensures follows { OnOk result (Follows reader.old reader.new) }
    ensures pieces { OnOk result (ArePieces list.now.list.members) }
    ensures unread { OnErr result ((reader.new ≡ reader.old) × (caller.new ≡ caller.old)) }
{
    // accessors tell what is held of a cut and of a list
    let (bins, _columns, _len) = (cut.bins(), cut.columns(), list.len());
    let workers = workers.min(bins);
    let frame = Batched {
        list,
        cut,
        size: batch,
    };
    let (queues, submitter, mut tasks) = open_frame(
        rt, alloc, &frame, cells, writers, gate, workers,
    )?;
    let given = tasks.as_slice();
    let room = most_owned(given, workers as usize);
    let pool = Pool {
        rt,
        queues: &queues,
        cells,
        list,
        gate,
        cut: *cut,
        size: batch,
        room,
    };
    let drawn = draw_tasks(&pool, alloc, &mut tasks, workers as usize, reader, caller)?;
    Ok(queues.close(submitter, drawn))
}
