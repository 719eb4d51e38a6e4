//! The drawing of all batches: binned, submitted and drained at once, and drained to the end.
ghost use Rattle.std.specs.Prelude.{◌≡◌, ◌<◌, ◌+◌, All, length, OnOk};
ghost use Rattle.bin_queues.specs.Frames.{over};
ghost use Rattle.bin_queues.specs.QueueParts.{batches_in};
ghost use Rattle.bin_queues.specs.Tasks.{IsSubmitterOf};
ghost use Rattle.bin_tasks.specs.Drains.{HasDrained, WasTold};
ghost use Rattle.tile_queues.specs.Shares.{AreAllIn, AreChanged, AreChangedIn, AreDrained, AreShares};
ghost use Rattle.tile_queues.specs.Shares.{MayDraw, frame_over};

use crate::bin_task::BinTask;
use crate::cell_bin::InCells;
use crate::share::Share;
use bin_queues::Sender;
use bin_tasks::Drawing;
use bin_tiles::Gate;
use cull_base::Memory;
use side_by_side::for_each_beside;
use std::alloc::Global;
use std::sync::Wait;
use std::thread::{Threads, yield_now};

/// A worker that hasn't drawn all batches looks so often for more, and then leaves them to the last drain.
const LOOKS: u32 = 0x1_0000;

// Draws what is in the queues of some bins, bin by bin.
fn drain_in_order<R: Wait, G: Gate>(drawing: &Drawing<R, InCells<R>, G>, tasks: &mut [BinTask])
    requires { All (MayDraw drawing.now) tasks.old }
    ensures may { All (MayDraw drawing.now) tasks.new }
    ensures drained { AreChanged HasDrained tasks.old tasks.new }
{
    for j in 0..tasks.len() {
        tasks[j].drain(drawing);
    }
}

// Draws what is in the queues of a worker's bins, each once: from the middle of the screen on, and then those before.
// There most is drawn, so that the submitter is ahead when bins come that are drawn faster than it bins.
fn drain_each<R: Wait, G: Gate>(drawing: &Drawing<R, InCells<R>, G>, tasks: &mut [BinTask])
    requires { All (MayDraw drawing.now) tasks.old }
    ensures may { All (MayDraw drawing.now) tasks.new }
    ensures drained { AreChanged HasDrained tasks.old tasks.new }
{
    let middle = tasks.len() / 2;
    let (before, behind) = tasks.split_at_mut(middle);
    drain_in_order(drawing, behind);
    drain_in_order(drawing, before);
}

// Whether each of some tasks has drawn so many batches.
fn have_drawn(tasks: &[BinTask], batches: u32) -> bool {
    tasks.iter().all(|task| task.batches() == batches)
}

// Draws what is in the queues of a worker's bins, again and again, until all batches are drawn: the submitter may be
// behind. After so many looks it gives up, since nobody waits for another without end.
fn drain_share<R: Wait, G: Gate>(drawing: &Drawing<R, InCells<R>, G>, tasks: &mut [BinTask])
    requires { All (MayDraw drawing.now) tasks.old }
    ensures may { All (MayDraw drawing.now) tasks.new }
    ensures drained { AreChanged HasDrained tasks.old tasks.new }
{
    let batches = drawing.frame.batches();
    drain_each(drawing, tasks);
    for _ in 0..LOOKS {
        if have_drawn(tasks, batches) {
            return;
        }
        yield_now();
        drain_each(drawing, tasks);
    }
}

// Draws what is in the queues, the workers side by side in at most so many threads, while the caller does its own work.
// With no threads it draws behind that.
fn drain_all<R: Threads + Wait + Sync, G: Gate, O: FnMut() -> A, A>(
    drawing: &Drawing<R, InCells<R>, G>,
    shares: &mut [Share],
    threads: usize,
    own: &mut O,
) -> A
    requires shares { AreAllIn (MayDraw drawing.now) shares.old }
    requires own { O.pre own.old }
    ensures may { AreAllIn (MayDraw drawing.now) shares.new }
    ensures drained { AreChangedIn HasDrained shares.old shares.new }
    ensures own { O.step own.old result own.new }
{
    for_each_beside(
        drawing.rt,
        shares,
        threads,
        &|_w: usize, share: &mut Share|
            requires { All (MayDraw drawing.now) share.old.tasks.items }
            ensures may { All (MayDraw drawing.entry.now) share.new.tasks.items }
            ensures drained { AreChanged HasDrained share.old.tasks.items share.new.tasks.items }
        { drain_share(drawing, share.tasks.as_mut_slice()) },
        own,
    )
}

// Tells each task of a worker.
fn tell_share<R: Wait, G: Gate>(
    drawing: &Drawing<R, InCells<R>, G>,
    sender: &mut Sender,
    tasks: &mut [BinTask],
)
    requires sender { IsSubmitterOf drawing.now.queues.now sender.old }
    requires frame { sender.old.frame ≡ frame_over drawing.now }
    requires tasks { All (MayDraw drawing.now) tasks.old }
    ensures same { sender.new ≡ sender.old }
    ensures may { All (MayDraw drawing.now) tasks.new }
    ensures told { AreChanged (WasTold sender.old.batches) tasks.old tasks.new }
{
    for j in 0..tasks.len() {
        tasks[j].tell(drawing, sender);
    }
}

// Tells each task of a worker, which is lent whole.
fn tell_worker<R: Wait, G: Gate>(
    drawing: &Drawing<R, InCells<R>, G>,
    sender: &mut Sender,
    own: &mut Share,
)
    requires sender { IsSubmitterOf drawing.now.queues.now sender.old }
    requires frame { sender.old.frame ≡ frame_over drawing.now }
    requires tasks { All (MayDraw drawing.now) own.old.tasks.items }
    ensures same { sender.new ≡ sender.old }
    ensures may { All (MayDraw drawing.now) own.new.tasks.items }
    ensures told { AreChanged (WasTold sender.old.batches) own.old.tasks.items own.new.tasks.items }
{
    tell_share(drawing, sender, own.tasks.as_mut_slice());
}

// Tells the tasks of all workers.
fn tell_all<R: Wait, G: Gate>(
    drawing: &Drawing<R, InCells<R>, G>,
    sender: &mut Sender,
    shares: &mut [Share],
)
    requires sender { IsSubmitterOf drawing.now.queues.now sender.old }
    requires frame { sender.old.frame ≡ frame_over drawing.now }
    requires shares { AreAllIn (MayDraw drawing.now) shares.old }
    ensures same { sender.new ≡ sender.old }
    ensures may { AreAllIn (MayDraw drawing.now) shares.new }
    ensures told { AreChangedIn (WasTold sender.old.batches) shares.old shares.new }
{
    for w in 0..shares.len() {
        tell_worker(drawing, sender, &mut shares[w]);
    }
}

// Submits all batches, a first part of them before the workers begin, and the others while these drain what is there.
// So each finds batches when it has started. Nobody waits for another without end.
fn submit_and_drain<R: Threads + Wait + Sync, G: Gate>(
    drawing: &Drawing<R, InCells<R>, G>,
    alloc: Global,
    sender: &mut Sender,
    shares: &mut [Share],
) -> Result<(), Memory>
    requires sender { IsSubmitterOf drawing.now.queues.now sender.old }
    requires frame { sender.old.frame ≡ frame_over drawing.now }
    requires none { sender.old.batches ≡ 0 }
    requires shares { AreAllIn (MayDraw drawing.now) shares.old }
    ensures submitted { OnOk result
        (sender.new ≡ record sender.old { batches = batches_in sender.old.frame }) }
    ensures may { OnOk result (AreAllIn (MayDraw drawing.now) shares.new) }
    ensures drained { OnOk result (AreChangedIn HasDrained shares.old shares.new) }
{
    let workers = shares.len();
    let ahead = drawing.batches_ahead();
    let left = drawing.frame.batches() - ahead;
    drawing.submit(alloc, sender, ahead)?;
    drain_all(
        drawing,
        shares,
        workers,
        &mut || -> Result<(), Memory>
            requires queues { IsSubmitterOf drawing.now.queues.now sender.now }
            requires frame { sender.now.frame ≡ over drawing.now.frame sender.now.frame.cells }
            requires left { sender.now.batches + left ≡ batches_in sender.now.frame }
            ensures { OnOk result
                (sender.exit.now ≡ record sender.entry.now { batches = batches_in sender.entry.now.frame }) }
        { drawing.submit(alloc, sender, left) },
    )
}

// In how many threads of their own the rest is drained: in none where all batches are drawn.
fn threads_for_rest(shares: &[Share], batches: u32) -> usize {
    if shares
        .iter()
        .all(|share| have_drawn(share.tasks.as_slice(), batches))
    {
        0
    } else {
        shares.len()
    }
}

/// Draws all batches. The submitter bins and submits them, while each worker drains its bins; when these have returned
/// each task is told that all are submitted, and the workers drain to the end. Err where memory gave out.
/// Conditions: the sender and the tasks are of these queues and of this frame, and nothing is submitted yet.
pub(crate) fn draw_all<R: Threads + Wait + Sync, G: Gate>(
    drawing: &Drawing<R, InCells<R>, G>,
    alloc: Global,
    sender: &mut Sender,
    shares: &mut [Share],
) -> Result<(), Memory>
    requires sender { IsSubmitterOf drawing.now.queues.now sender.old }
    requires frame { sender.old.frame ≡ frame_over drawing.now }
    requires none { sender.old.batches ≡ 0 }
    requires shares { let d = drawing.now in
        AreShares d.queues.now (frame_over d) (length shares.old) shares.old }
    ensures submitted { OnOk result
        (sender.new ≡ record sender.old { batches = batches_in sender.old.frame }) }
    ensures drawn { let d = drawing.now in
        OnOk result (AreDrained d.queues.now (frame_over d) (length shares.new) shares.new) }
{
    submit_and_drain(drawing, alloc, sender, shares)?;
    tell_all(drawing, sender, shares);
    let threads = threads_for_rest(shares, drawing.frame.batches());
    drain_all(drawing, shares, threads, &mut || {});
    Ok(())
}
