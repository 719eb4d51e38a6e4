//! Batches that are submitted to the queues of a frame, and tasks that are told of them.
ghost use Rattle.std.specs.Prelude.{◌≡◌, ◌<◌, ◌+◌, All, IfOk, OnOk};
ghost use Rattle.binning.specs.Parts.{parts_of};
ghost use Rattle.bin_queues.specs.Frames.{over};
ghost use Rattle.bin_queues.specs.QueueParts.{batches_in};
ghost use Rattle.bin_queues.specs.Tasks.{IsSubmitterOf, IsTaskOf};
ghost use Rattle.tile_queues.specs.Shares.{AreChanged};
ghost use Rattle.steal_pool.specs.Lists.{AreTold};
ghost use Rattle.steal_pool.specs.Telling.{IsToldMore};

use bin_queues::Batched;
use binning::{BinPart, bin_batch};
use cull_base::Memory;
use std::alloc::Global;
use std::sync::Wait;
use tile_cells::TileCells;
use tile_queues::{BinQueues, BinTask, Submitter};

// Bins the next batch. Condition: there is one.
fn bin_next(alloc: Global, submitter: &Submitter, frame: &Batched) -> Result<Vec<BinPart>, Memory>
    requires frame { submitter.now.frame ≡ over frame.now submitter.now.frame.cells }
    requires short { submitter.now.batches < batches_in submitter.now.frame }
    ensures { let of = submitter.now.frame in
        IfOk result (λ v. v.items ≡ parts_of of.list of.cut of.size submitter.now.batches) }
{
    let (list, size) = (frame.list, frame.size);
    let batch = submitter.batches();
    let len = list.len();
    let from = len.min(batch.saturating_mul(size));
    let to = len.min((batch + 1).saturating_mul(size));
    let parts = bin_batch(alloc, list, batch, from, to, frame.cut)?;
    Ok(parts)
}

// Bins and submits the next batch.
fn submit_next<R: Wait>(
    rt: &R,
    alloc: Global,
    queues: &BinQueues,
    submitter: &mut Submitter,
    frame: &Batched,
) -> Result<(), Memory>
    requires queues { IsSubmitterOf queues.now submitter.old }
    requires frame { submitter.old.frame ≡ over frame.now submitter.old.frame.cells }
    requires short { submitter.old.batches < batches_in submitter.old.frame }
    ensures { OnOk result (submitter.new ≡ record submitter.old { batches = submitter.old.batches + 1 }) }
{
    let parts = bin_next(alloc, submitter, frame)?;
    queues.submit(rt, submitter, parts);
    Ok(())
}

// Bins and submits all batches, in order.
fn submit_all<R: Wait>(
    rt: &R,
    alloc: Global,
    queues: &BinQueues,
    submitter: &mut Submitter,
    frame: &Batched,
) -> Result<(), Memory>
    requires queues { IsSubmitterOf queues.now submitter.old }
    requires frame { submitter.old.frame ≡ over frame.now submitter.old.frame.cells }
    requires none { submitter.old.batches ≡ 0 }
    ensures { OnOk result
        (submitter.new ≡ record submitter.old { batches = batches_in submitter.old.frame }) }
{
    let count = frame.batches();
    for _ in 0..count {
        submit_next(rt, alloc, queues, submitter, frame)?;
    }
    Ok(())
}

// Tells each task how many batches were submitted.
fn tell_all<R: Wait>(rt: &R, queues: &BinQueues, submitter: &mut Submitter, tasks: &mut [BinTask])
    requires submitter { IsSubmitterOf queues.now submitter.old }
    requires tasks { All (IsTaskOf queues.now) tasks.old }
    ensures { AreChanged (IsToldMore submitter.old.batches) tasks.old tasks.new }
{
    for j in 0..tasks.len() {
        queues.tell(rt, submitter, &mut tasks[j]);
    }
}

/// Cells for a list, the queues of its batches, to which all are submitted, and the bins' tasks, told of them.
pub fn opened<R: Wait>(
    rt: &R,
    alloc: Global,
    frame: &Batched,
) -> Result<(TileCells, BinQueues, Vec<BinTask>), Memory>
    ensures { IfOk result (λ r. AreTold r.1 (over frame.now r.0) r.2.items) }
{
    let (list, cut, size) = (frame.list, frame.cut, frame.size);
    // an accessor tells that there is a bin
    let _bins = cut.bins();
    let (cells, writers, _readers) = TileCells::make(rt, alloc, list, 0)?;
    let (queues, mut submitter, mut tasks) = BinQueues::make(rt, alloc, list, cut, size, writers)?;
    submit_all(rt, alloc, &queues, &mut submitter, frame)?;
    tell_all(rt, &queues, &mut submitter, tasks.as_mut_slice());
    Ok((cells, queues, tasks))
}
