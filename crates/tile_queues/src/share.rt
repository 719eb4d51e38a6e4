//! The tasks of a worker.
ghost use Rattle.std.specs.Prelude.{◌≡◌, ◌<◌, List, length, IfOk, OnOk};
ghost use Rattle.atomic_table.specs.Seated.{TableId};
ghost use Rattle.cull_base.specs.Screen.{tile_count_of};
ghost use Rattle.bin_queues.specs.Frames.{over};
ghost use Rattle.bin_queues.specs.Tasks.{AreFirstTasks};
ghost use Rattle.tile_queues.specs.Owners.{AreLeft};
ghost use Rattle.tile_queues.specs.Shares.{AreFirstShares, AreIdle, IsGiven};

use crate::bin_task::BinTask;
use crate::submitter::Submitter;
use crate::tile_slots::take_bin;
use bin_queues::{Batched, Intake, PartQueues};
use cull_base::Memory;
use std::alloc::Global;
use tile_cells::TileWriter;

/// The tasks of the bins that a worker drains, in the order of their bins.
#[derive(Drop)]
pub(crate) struct Share {
    pub(crate) tasks: Vec<BinTask>,
}

// So many workers with no task. Err where memory gave out.
fn empty_shares(alloc: Global, workers: u32) -> Result<Vec<Share>, Memory>
    ensures { IfOk result (λ v. AreIdle workers v.items) }
{
    let mut shares = Vec::with_capacity(alloc, workers as usize).map_err(|_| Memory)?;
    for _ in 0..workers {
        shares.push_reserved(Share {
            tasks: Vec::new(alloc),
        });
    }
    Ok(shares)
}

// Gives a worker one task more, behind its own. Err where memory gave out. Condition: there is such a worker.
fn give(shares: &mut [Share], worker: usize, task: BinTask) -> Result<(), Memory>
    requires { worker < length shares.old }
    ensures { OnOk result (IsGiven worker task shares.old shares.new) }
{
    shares[worker].tasks.push(task).map_err(|_| Memory)
}

// Gives the task of each bin, with the bin's writers, to the worker to which the bin belongs.
fn deal_to(
    alloc: Global,
    shares: &mut [Share],
    _queues: &PartQueues,
    frame: &Batched,
    intakes: Vec<Intake>,
    slots: &mut [Option<TileWriter>],
    workers: u32,
) -> Result<(), Memory>
    ghost cells: { List TableId }
    requires some { 0 < workers }
    requires none { AreIdle workers shares.old }
    requires first { AreFirstTasks _queues.now (over frame.now cells) intakes.items }
    requires whole { length slots.old ≡ tile_count_of frame.now.list.now.list.size }
    requires left { AreLeft (over frame.now cells) 0 0 slots.old }
    ensures whole { length slots.new ≡ length slots.old }
    ensures dealt { OnOk result (AreFirstShares _queues.now (over frame.now cells) workers shares.new) }
{
    let mut bin = 0usize;
    for intake in intakes {
        let keeper = take_bin(alloc, slots, &intake, frame.list)?;
        give(shares, bin % workers as usize, BinTask::of(intake, keeper))?;
        bin += 1;
    }
    Ok(())
}

/// So many workers with the tasks of their bins, each with the bin's writers. Err where memory gave out. Conditions:
/// there is a worker, the tasks are those of all bins of the frame before the first batch, and the slots have the
/// writers of all tiles.
pub(crate) fn deal(
    alloc: Global,
    queues: &PartQueues,
    frame: &Batched,
    intakes: Vec<Intake>,
    slots: &mut [Option<TileWriter>],
    workers: u32,
) -> Result<Vec<Share>, Memory>
    ghost cells: { List TableId }
    requires some { 0 < workers }
    requires first { AreFirstTasks queues.now (over frame.now cells) intakes.items }
    requires whole { length slots.old ≡ tile_count_of frame.now.list.now.list.size }
    requires left { AreLeft (over frame.now cells) 0 0 slots.old }
    ensures whole { length slots.new ≡ length slots.old }
    ensures dealt { IfOk result (λ v. AreFirstShares queues.now (over frame.now cells) workers v.items) }
{
    let mut shares = empty_shares(alloc, workers)?;
    let lent = shares.as_mut_slice();
    deal_to(alloc, lent, queues, frame, intakes, slots, workers)?;
    Ok(shares)
}

/// The tasks of a sole worker: those of all bins, in order.
pub(crate) fn all_tasks(
    _queues: &PartQueues,
    _submitter: &Submitter,
    mut shares: Vec<Share>,
) -> Vec<BinTask>
    requires { AreFirstShares _queues.now _submitter.now.frame 1 shares.items }
    ensures { AreFirstTasks _queues.now _submitter.now.frame result.items }
{
    shares.pop().unwrap().tasks
}
