//! A frame drawn by workers through cells, while a caller reads them.
ghost use Rattle.std.specs.Prelude.{◌≡◌, ◌≤◌, ◌<◌, length, IfOk, OnOk};
ghost use Rattle.binning.specs.Parts.{batch_count_of};
ghost use Rattle.cull_base.specs.Screen.{tile_count_of};
ghost use Rattle.cull_base.specs.Tiles.{ArePieces};
ghost use Rattle.tile_cells.specs.Cells.{AreFresh};
ghost use Rattle.tile_cells.specs.Standing.{AreStanding, IsReading};
ghost use Rattle.tile_queues.specs.Callers.{Follows};
ghost use Rattle.bin_queues.specs.QueueParts.{batches_in};
ghost use Rattle.tile_queues.specs.Shares.{AreDrained, AreShares, frame_over};
ghost use Rattle.bin_queues.specs.Tasks.{IsSubmitterOf};

use crate::caller::Caller;
use crate::cell_bin::InCells;
use crate::close_queues::hand_back_all;
use crate::drawing::draw_all;
use crate::make_queues::make_over_cells;
use crate::share::Share;
use crate::submitter::Submitter;
use bin_queues::{Batched, Sender};
use bin_tasks::Drawing;
use bin_tiles::Gate;
use binning::Cut;
use cull_base::{FrameList, Memory};
use std::alloc::Global;
use std::sync::Wait;
use std::thread::{Threads, join_mut};
use tile_cells::{TileCells, TileReader, TileWriter};

/// The caller reads the cells of a list. Conditions: the reader is of these and of the list, and the caller is ready.
pub fn read_cells<R: Threads + Wait + Sync, C: Caller>(
    rt: &R,
    cells: &TileCells,
    reader: &mut TileReader,
    _list: &FrameList,
    caller: &mut C,
)
    requires reader { IsReading cells.now _list.now.list reader.old }
    requires ready { C.ready caller.old _list.now.list }
    ensures done { C.done caller.new _list.now.list reader.new }
    ensures keeps { C.keeps caller.old caller.new }
    ensures follows { Follows reader.old reader.new }
{
    caller.beside(rt, cells, reader);
}

// Draws all batches into the cells, while the caller reads them. The caller has a thread of its own.
fn draw_and_read<R: Threads + Wait + Sync, G: Gate, C: Caller>(
    drawing: &Drawing<R, InCells<R>, G>,
    alloc: Global,
    sender: &mut Sender,
    shares: &mut [Share],
    reader: &mut TileReader,
    caller: &mut C,
) -> Result<(), Memory>
    requires sender { IsSubmitterOf drawing.now.queues.now sender.old }
    requires frame { sender.old.frame ≡ frame_over drawing.now }
    requires none { sender.old.batches ≡ 0 }
    requires shares { let d = drawing.now in
        AreShares d.queues.now (frame_over d) (length shares.old) shares.old }
    requires reader { IsReading drawing.now.beside.now.cells.now drawing.now.frame.list.now.list reader.old }
    requires ready { C.ready caller.old drawing.now.frame.list.now.list }
    ensures submitted { OnOk result
        (sender.new ≡ record sender.old { batches = batches_in sender.old.frame }) }
    ensures drawn { let d = drawing.now in
        OnOk result (AreDrained d.queues.now (frame_over d) (length shares.new) shares.new) }
    ensures done { C.done caller.new drawing.now.frame.list.now.list reader.new }
    ensures keeps { C.keeps caller.old caller.new }
    ensures follows { Follows reader.old reader.new }
{
    let (rt, cells, list) = (drawing.rt, drawing.beside.cells, drawing.frame.list);
    let ((), drawn) = join_mut(
        rt,
        &mut ||
            requires reader { IsReading cells.now list.now.list reader.now }
            requires ready { C.ready caller.now list.now.list }
            ensures done { C.done caller.exit.now list.entry.now.list reader.exit.now }
            ensures keeps { C.keeps caller.entry.now caller.exit.now }
            ensures follows { Follows reader.entry.now reader.exit.now }
        { read_cells(rt, cells, reader, list, caller) },
        &mut || -> Result<(), Memory>
            requires sender { IsSubmitterOf drawing.now.queues.now sender.now }
            requires frame { sender.now.frame ≡ frame_over drawing.now }
            requires none { sender.now.batches ≡ 0 }
            requires shares { let d = drawing.now in
                AreShares d.queues.now (frame_over d) (length shares.now) shares.now }
            ensures submitted { OnOk result
                (sender.exit.now ≡ record sender.entry.now { batches = batches_in sender.entry.now.frame }) }
            ensures drawn { let d = drawing.entry.now in OnOk result
                (AreDrained d.queues.now (frame_over d) (length shares.exit.now) shares.exit.now) }
        { draw_all(drawing, alloc, sender, shares) },
    );
    drawn
}

/// A frame drawn by workers through cells, while a caller reads them: each member of a tile's list is a store in its
/// cell. The writers are given back in tile order, each of these cells and at the length of its tile's list, whatever
/// the cut, the number of workers and the size of batches. Batches are binned and submitted to the queues of bins in
/// order, while the workers drain these; bin b belongs to worker b mod workers. The caller is lent
/// these cells and this reader, in a thread of its own, and is done afterwards. The gate is asked before a batch is
/// binned, and before a bin draws a member, with the number that it has drawn. Err where memory gave out: the writers
/// are given up then. Conditions: the cells are of this list, the writers and the reader are those that were made with
/// them, and no member is drawn; the caller is ready; 1 to 64 workers, and a batch has at least one piece, so that
/// there are at most 2048.
pub fn draw_frame<R: Threads + Wait + Sync, G: Gate, C: Caller>(
    rt: &R,
    alloc: Global,
    list: &FrameList,
    cells: &TileCells,
    writers: Vec<TileWriter>,
    reader: &mut TileReader,
    cut: &Cut,
    workers: u32,
    batch: u32,
    gate: &G,
    caller: &mut C,
) -> Result<Vec<TileWriter>, Memory>
    requires whole { length cells.now ≡ tile_count_of list.now.list.size }
    requires writers { AreFresh cells.now list.now.list (length cells.now) writers.items }
    requires reader { IsReading cells.now list.now.list reader.old }
    requires some { 1 ≤ workers }
    requires most { workers ≤ 64 }
    requires batch { 1 ≤ batch }
    requires few { batch_count_of (length list.now.list.members) batch ≤ 2048 }
    requires ready { C.ready caller.old list.now.list }
    ensures standing { IfOk result (λ v.
        AreStanding cells.now list.now.list (length list.now.list.members) v.items) }
    ensures done { OnOk result (C.done caller.new list.now.list reader.new) }
    ensures keeps { OnOk result (C.keeps caller.old caller.new) }
    ensures follows { OnOk result (Follows reader.old reader.new) }
    ensures pieces { OnOk result (ArePieces list.now.list.members) }
{
    // accessors tell what is held of a cut and of a list
    let (_columns, _len) = (cut.columns(), list.len());
    let workers = workers.min(cut.bins());
    let frame = Batched {
        list,
        cut,
        size: batch,
    };
    let (queues, submitter, mut shares) = make_over_cells(alloc, &frame, writers, workers)?;
    let (mut sender, slots, room) = submitter.into_parts();
    let beside = InCells { rt, cells };
    let drawing = Drawing {
        rt,
        queues: &queues,
        frame,
        beside: &beside,
        gate,
    };
    let lent = shares.as_mut_slice();
    draw_and_read(&drawing, alloc, &mut sender, lent, reader, caller)?;
    Ok(hand_back_all(&queues, Submitter::of(sender, slots, room), shares))
}
