//! A frame over plain tiles, which nobody reads while they are drawn.
ghost use Rattle.std.specs.Prelude.{◌≡◌, ◌≤◌, ◌<◌, ◌+◌, length, IfOk, OnOk};
ghost use Rattle.cull_base.specs.Tiles.{ArePieces};
ghost use Rattle.binning.specs.Cut.{bin_count_of};
ghost use Rattle.binning.specs.Parts.{batch_count_of};
ghost use Rattle.bin_tiles.specs.Bins.{AreBinsAt};
ghost use Rattle.bin_tiles.specs.Plain.{StandsPlain};

use crate::finishing::finish_all;
use crate::plain_tasks::first_tasks;
use crate::turns::submit_and_take;
use bin_queues::{Batched, PartQueues};
use bin_tasks::Drawing;
use bin_tiles::{Gate, Screen, draw_batches, draw_unbinned};
use binning::{Cut, bin_span};
use cull_base::{FrameList, Memory};
use masked_update::Canvas;
use std::alloc::Global;
use std::sync::Wait;
use std::thread::Threads;

// The one bin of a screen that isn't cut. It needs neither workers nor parts.
fn draw_one_bin<G: Gate>(
    alloc: Global,
    list: &FrameList,
    cut: &Cut,
    batch: u32,
    gate: &G,
) -> Result<Vec<Canvas>, Memory>
    requires one { bin_count_of cut.now ≡ 1 }
    requires batch { 1 ≤ batch }
    ensures { let drawn = length list.now.list.members in
        IfOk result (λ v. AreBinsAt StandsPlain (tt {0}) list.now.list cut.now drawn v.items) }
{
    let mut bins = Vec::with_capacity(alloc, 1).map_err(|_| Memory)?;
    let mut canvas = Canvas::empty(alloc, bin_span(list.size(), cut, 0))?;
    let beside = &();
    let screen = Screen {
        list,
        cut,
        beside,
        gate,
    };
    draw_unbinned(&mut canvas, &screen, 0, batch);
    bins.push_reserved(canvas);
    Ok(bins)
}

// The tiles of all bins, all empty.
fn empty_bins(alloc: Global, list: &FrameList, cut: &Cut) -> Result<Vec<Canvas>, Memory>
    ensures { IfOk result (λ v. AreBinsAt StandsPlain (tt {0}) list.now.list cut.now 0 v.items) }
{
    let count = cut.bins();
    let mut bins = Vec::with_capacity(alloc, count as usize).map_err(|_| Memory)?;
    for bin in 0..count {
        let window = bin_span(list.size(), cut, bin);
        let canvas = Canvas::empty(alloc, window)?;
        bins.push_reserved(canvas);
    }
    Ok(bins)
}

// All bins, drawn by one worker.
fn draw_by_one<G: Gate>(
    alloc: Global,
    list: &FrameList,
    cut: &Cut,
    batch: u32,
    gate: &G,
) -> Result<Vec<Canvas>, Memory>
    requires batch { 1 ≤ batch }
    ensures { let drawn = length list.now.list.members in
        IfOk result (λ v. AreBinsAt StandsPlain (tt {0}) list.now.list cut.now drawn v.items) }
{
    let mut bins = empty_bins(alloc, list, cut)?;
    let beside = &();
    let screen = Screen {
        list,
        cut,
        beside,
        gate,
    };
    draw_batches(alloc, bins.as_mut_slice(), &screen, batch)?;
    Ok(bins)
}

// All bins, drawn by so many workers while the batches are binned.
fn draw_by_workers<R: Threads + Wait + Sync, G: Gate>(
    rt: &R,
    alloc: Global,
    frame: Batched,
    workers: u32,
    gate: &G,
) -> Result<Vec<Canvas>, Memory>
    ensures { let list = frame.entry.list.now.list in IfOk result (λ v.
        AreBinsAt StandsPlain (tt {0}) list frame.entry.cut.now (length list.members) v.items) }
{
    let (queues, mut sender, intakes) = PartQueues::open(alloc, &frame)?;
    let slots = first_tasks(alloc, &queues, &frame, intakes)?;
    let beside = &();
    let drawing = Drawing {
        rt,
        queues: &queues,
        frame,
        beside,
        gate,
    };
    let slots = submit_and_take(&drawing, alloc, &mut sender, slots, workers)?;
    finish_all(&drawing, alloc, &mut sender, slots)
}

/// The bins of a frame over plain tiles, which nobody reads while they are drawn, in order: each tile of the screen has
/// the states after the whole list, whatever the cut, the number of workers and the size of batches. Of counts nothing
/// is said. Two or more workers draw batches from the queues of bins while these are binned: each takes a bin that
/// waits, owns its tiles while it draws some of it, and puts it back; one needs no queue, and one bin no parts. The gate
/// is asked before a batch is binned, and before a bin draws a member, with the number that it has drawn. Err where
/// memory gave out. Conditions: 1 to 64 workers, and a batch has at least one piece, so that there are at most 2048.
pub fn draw_plain_frame<R: Threads + Wait + Sync, G: Gate>(
    rt: &R,
    alloc: Global,
    list: &FrameList,
    cut: &Cut,
    workers: u32,
    batch: u32,
    gate: &G,
) -> Result<Vec<Canvas>, Memory>
    requires some { 1 ≤ workers }
    requires most { workers ≤ 64 }
    requires batch { 1 ≤ batch }
    requires few { batch_count_of (length list.now.list.members) batch ≤ 2048 }
    ensures drawn { let drawn = length list.now.list.members in
        IfOk result (λ v. AreBinsAt StandsPlain (tt {0}) list.now.list cut.now drawn v.items) }
    ensures pieces { OnOk result (ArePieces list.now.list.members) }
{
    // accessors tell what is held of a cut and of a list
    let (_columns, _len) = (cut.columns(), list.len());
    let bins = cut.bins();
    let workers = workers.min(bins);
    if bins == 1 {
        draw_one_bin(alloc, list, cut, batch, gate)
    } else if workers == 1 {
        draw_by_one(alloc, list, cut, batch, gate)
    } else {
        let frame = Batched {
            list,
            cut,
            size: batch,
        };
        draw_by_workers(rt, alloc, frame, workers, gate)
    }
}
