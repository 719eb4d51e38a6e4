//! All batches of a frame, submitted one after another, and tasks that are told of them.
ghost use Rattle.std.specs.Prelude.{◌≡◌, ◌<◌, ◌+◌, All, length, vec_items, OnOk};
ghost use Rattle.bin_queues.specs.Frames.{over};
ghost use Rattle.bin_queues.specs.QueueParts.{batches_in};
ghost use Rattle.bin_queues.specs.Tasks.{IsSubmitterOf, IsTaskOf};
ghost use Rattle.tile_queues.specs.Shares.{AreChanged};
ghost use Rattle.steal_pool.specs.Binned.{AreBinned, IsBinned};
ghost use Rattle.steal_pool.specs.Telling.{IsToldMore};

use crate::binned::{Slot, bin_all, binning_threads, empty_slots};
use bin_queues::Batched;
use cull_base::Memory;
use std::alloc::Global;
use std::sync::Wait;
use std::thread::Threads;
use tile_queues::{BinQueues, BinTask, Gate, Submitter};

// Submits the parts of the next batch. Err where their slot is empty: memory gave out for them.
fn submit_slot<R: Wait>(
    rt: &R,
    queues: &BinQueues,
    submitter: &mut Submitter,
    _frame: &Batched,
    slot: Slot,
) -> Result<(), Memory>
    requires queues { IsSubmitterOf queues.now submitter.old }
    requires frame { submitter.old.frame ≡ over _frame.now submitter.old.frame.cells }
    requires short { submitter.old.batches < batches_in submitter.old.frame }
    requires binned { IsBinned vec_items _frame.now submitter.old.batches slot }
    ensures { OnOk result (submitter.new ≡ record submitter.old { batches = submitter.old.batches + 1 }) }
{
    match slot {
        Some(parts) => {
            queues.submit(rt, submitter, parts);
            Ok(())
        }
        None => Err(Memory),
    }
}

// Submits what is in the slots, in order. Err where one is empty.
fn submit_slots<R: Wait>(
    rt: &R,
    queues: &BinQueues,
    submitter: &mut Submitter,
    frame: &Batched,
    slots: Vec<Slot>,
) -> Result<(), Memory>
    requires queues { IsSubmitterOf queues.now submitter.old }
    requires frame { submitter.old.frame ≡ over frame.now submitter.old.frame.cells }
    requires none { submitter.old.batches ≡ 0 }
    requires slots { length slots.items ≡ batches_in submitter.old.frame }
    requires binned { AreBinned vec_items frame.now slots.items }
    ensures { OnOk result (submitter.new ≡ record submitter.old { batches = batches_in submitter.old.frame }) }
{
    let mut done = 0usize;
    for slot in slots {
        submit_slot(rt, queues, submitter, frame, slot)?;
        done += 1;
    }
    Ok(())
}

/// Bins all batches and submits them, in order. Where there are many pieces, so many workers bin them side by side. The
/// gate is asked before each is binned. Err where memory gave out. Conditions: the submitter is of these queues and of
/// this frame, and submitted nothing yet.
pub(crate) fn submit_all<R: Threads + Wait + Sync, G: Gate>(
    rt: &R,
    alloc: Global,
    queues: &BinQueues,
    submitter: &mut Submitter,
    frame: &Batched,
    gate: &G,
    workers: u32,
) -> Result<(), Memory>
    requires queues { IsSubmitterOf queues.now submitter.old }
    requires frame { submitter.old.frame ≡ over frame.now submitter.old.frame.cells }
    requires none { submitter.old.batches ≡ 0 }
    ensures { OnOk result (submitter.new ≡ record submitter.old { batches = batches_in submitter.old.frame }) }
{
    let threads = binning_threads(frame, workers);
    let mut slots = empty_slots(alloc, frame)?;
    bin_all(rt, alloc, frame, gate, slots.as_mut_slice(), threads);
    submit_slots(rt, queues, submitter, frame, slots)
}

/// Tells each task how many batches were submitted. Condition: the submitter and the tasks are of these queues.
pub(crate) fn tell_all<R: Wait>(
    rt: &R,
    queues: &BinQueues,
    submitter: &mut Submitter,
    tasks: &mut [BinTask],
)
    requires submitter { IsSubmitterOf queues.now submitter.old }
    requires tasks { All (IsTaskOf queues.now) tasks.old }
    ensures same { submitter.new ≡ submitter.old }
    ensures told { AreChanged (IsToldMore submitter.old.batches) tasks.old tasks.new }
{
    for j in 0..tasks.len() {
        queues.tell(rt, submitter, &mut tasks[j]);
    }
}
