//! The queues of all bins over cells, through which batches go from the submitter to the bins' tasks. They are for
//! callers that deal out tasks themselves, as steal_pool does: `draw_frame` draws from `PartQueues`.
ghost use Rattle.std.specs.Prelude.{◌≡◌, ◌≤◌, ◌<◌, ◌+◌, max, length, IfOk};
ghost use Rattle.binning.specs.Parts.{batch_count_of, parts_of};
ghost use Rattle.bin_queues.specs.QueueParts.{batched, batches_in, taken_before};
ghost use Rattle.bin_queues.specs.Tasks.{AreFirstTasks, GoesOn, IsSubmitterOf, IsTaskOf};
ghost use Rattle.bin_queues.specs.Frames.{over};
ghost use Rattle.bin_tasks.specs.Drains.{HasDrained, IsAnswer};
ghost use Rattle.tile_queues.specs.Owners.{AreFirst, AreHandedBack, AreTasksOf, cells_of};
ghost use Rattle.tile_queues.specs.Shares.{IsTaskOver};

use crate::bin_task::BinTask;
use crate::cell_bin::InCells;
use crate::close_queues::hand_back;
use crate::make_queues::make_over_cells;
use crate::share::all_tasks;
use crate::submitter::Submitter;
use bin_queues::{Batched, PartQueues};
use bin_tasks::{Drained, Drawing};
use bin_tiles::Gate;
use binning::{BinPart, Cut};
use cull_base::{FrameList, Memory};
use std::alloc::Global;
use std::marker::Model;
use std::sync::Wait;
use tile_cells::{TileCells, TileWriter};

/// One queue for each bin, with room for the parts of all batches, and the number of batches that were submitted.
#[derive(Drop)]
pub struct BinQueues {
    queues: PartQueues,
}

impl Model for BinQueues {
    ghost use Rattle.bin_queues.specs.Tasks.{QueuesOf};

    ghost Value = { QueuesOf };

    ghost view = { λ s. s.queues };
}

// Draws what is in the queue of a task's bin.
fn drain_in<'a, R: Wait, G: Gate>(
    task: &mut BinTask,
    queues: &'a PartQueues,
    frame: Batched<'a>,
    beside: &'a InCells<'a, R>,
    gate: &'a G,
) -> Drained
    requires { IsTaskOver queues.now (over frame beside.now.cells.now) task.old }
    ensures answer { IsAnswer result task.old task.new }
    ensures drained { HasDrained task.old task.new }
{
    let rt = beside.rt;
    let drawing = Drawing {
        rt,
        queues,
        frame,
        beside,
        gate,
    };
    task.drain(&drawing)
}

impl BinQueues {
    /// The queues of all bins of a cut, all empty, with their submitter and a task for each bin, in order, which owns
    /// the writers of the bin's tiles. Err where memory gave out; then the writers are given up. All memory is taken
    /// here, also that which `close` needs. Conditions: a batch has at least one piece, there are at most 2048 batches,
    /// and the writers are those of a new frame of this list, in tile order.
    pub fn make<R: Wait>(
        _rt: &R,
        alloc: Global,
        list: &FrameList,
        cut: &Cut,
        batch: u32,
        writers: Vec<TileWriter>,
    ) -> Result<(BinQueues, Submitter, Vec<BinTask>), Memory>
        requires batch { 1 ≤ batch }
        requires few { batch_count_of (length list.now.list.members) batch ≤ 2048 }
        requires writers { AreFirst list.now.list writers.items }
        ensures submitter { IfOk result (λ r. IsSubmitterOf r.0 r.1) }
        ensures frame { IfOk result (λ r.
            (r.1.frame ≡ batched list.now.list cut.now batch (cells_of writers.items)) × (r.1.batches ≡ 0)) }
        ensures tasks { IfOk result (λ r. AreFirstTasks r.0 r.1.frame r.2.items) }
    {
        let frame = Batched {
            list,
            cut,
            size: batch,
        };
        let (queues, submitter, shares) = make_over_cells(alloc, &frame, writers, 1)?;
        let tasks = all_tasks(&queues, &submitter, shares);
        Ok((BinQueues { queues }, submitter, tasks))
    }

    /// Submits the next batch: appends each part to its bin's queue, and then raises the number of batches that tasks
    /// see. Conditions: the submitter is of these queues, a batch is left, and these are its parts, one for each bin.
    pub fn submit<R: Wait>(&self, rt: &R, submitter: &mut Submitter, parts: Vec<BinPart>)
        requires queues { IsSubmitterOf self.now submitter.old }
        requires short { submitter.old.batches < batches_in submitter.old.frame }
        requires parts { let frame = submitter.old.frame in
            parts.items ≡ parts_of frame.list frame.cut frame.size submitter.old.batches }
        ensures { submitter.new ≡ record submitter.old { batches = submitter.old.batches + 1 } }
    {
        submitter.submit(rt, &self.queues, parts);
    }

    /// Tells a task how many batches were submitted: told is the greater of that and what it was. All else stays.
    /// Condition: the submitter and the task are of these queues.
    pub fn tell<R: Wait>(&self, _rt: &R, submitter: &mut Submitter, task: &mut BinTask)
        requires submitter { IsSubmitterOf self.now submitter.old }
        requires task { IsTaskOf self.now task.old }
        ensures same { submitter.new ≡ submitter.old }
        ensures told { task.new ≡ record task.old { told = max task.old.told submitter.old.batches } }
    {
        submitter.tell(&self.queues, task);
    }

    /// Draws the parts of a task's bin in order, each once. Whole where all batches are drawn then. Empty where fewer
    /// are, and this call looked and heard of no more. Conditions: the task is of these queues, of these cells and of
    /// this list.
    pub fn drain<R: Wait, G: Gate>(
        &self,
        rt: &R,
        task: &mut BinTask,
        cells: &TileCells,
        list: &FrameList,
        gate: &G,
    ) -> Drained
        requires queues { IsTaskOf self.now task.old }
        requires cells { task.old.of.frame.cells ≡ cells.now }
        requires list { task.old.of.frame.list ≡ list.now.list }
        ensures on { GoesOn task.old task.new }
        ensures taken { task.new.taken ≡ taken_before task.new.of task.new.batches }
        ensures answer { IsAnswer result task.old task.new }
        ensures told { task.old.told ≡ batches_in task.old.of.frame → result ≡ Drained.Whole }
    {
        let cut = *task.cut();
        let size = task.size();
        let frame = Batched {
            list,
            cut: &cut,
            size,
        };
        let beside = InCells { rt, cells };
        let drained = drain_in(task, &self.queues, frame, &beside, gate);
        // an accessor tells what is held of a task
        let _taken = task.taken();
        drained
    }

    /// The writers of all tiles, in tile order, each after the batches that the task of its bin drew. Conditions: the
    /// submitter and the tasks are of these queues and of one frame, and there is one task for each bin, in any order.
    pub fn close(self, submitter: Submitter, tasks: Vec<BinTask>) -> Vec<TileWriter>
        requires submitter { IsSubmitterOf self submitter }
        requires tasks { AreTasksOf self submitter.frame tasks.items }
        ensures { AreHandedBack submitter.frame tasks.items result.items }
    {
        hand_back(&self.queues, submitter, tasks)
    }
}
