//! What is left of the bins after the workers: each is drawn to the end.
ghost use Rattle.std.specs.Prelude.{◌≡◌, ◌<◌, [], length, IfOk, MatchOption};
ghost use Rattle.bin_tiles.specs.Bins.{AreBinsAt, IsBinAt};
ghost use Rattle.bin_tiles.specs.Plain.{StandsPlain};
ghost use Rattle.bin_queues.specs.Frames.{over};
ghost use Rattle.bin_queues.specs.QueueParts.{batches_in};
ghost use Rattle.bin_queues.specs.Tasks.{IsSubmitterOf};
ghost use Rattle.plain_turns.specs.Waiting.{AreWaiting, IsPlainTask, IsWaitingTask};

use crate::plain_tasks::{WaitingTask, begun};
use bin_queues::Sender;
use bin_tasks::{Drawing, Task};
use bin_tiles::Gate;
use cull_base::Memory;
use masked_update::Canvas;
use seats::Loan;
use std::alloc::Global;
use std::sync::Wait;

// The bin of a task, drawn to the end.
fn drawn_on<R: Wait, G: Gate>(
    drawing: &Drawing<R, (), G>,
    sender: &mut Sender,
    task: Task<Canvas>,
) -> Canvas
    requires sender { IsSubmitterOf drawing.now.queues.now sender.old }
    requires frame { sender.old.frame ≡ over drawing.now.frame [] }
    requires all { sender.old.batches ≡ batches_in sender.old.frame }
    requires task { IsPlainTask drawing.now.queues.now (over drawing.now.frame []) task }
    ensures same { sender.new ≡ sender.old }
    ensures drawn { let list = drawing.now.frame.list.now.list in
        IsBinAt StandsPlain (tt {0}) list drawing.now.frame.cut.now (length list.members) task.intake.of.bin result }
{
    let mut task = task;
    drawing.tell(sender, &mut task);
    drawing.drain(&mut task);
    task.keeper
}

// A bin at the whole list.
fn finish<R: Wait, G: Gate>(
    drawing: &Drawing<R, (), G>,
    alloc: Global,
    sender: &mut Sender,
    slot: Option<Loan<WaitingTask>>,
    _bin: u32,
) -> Result<Canvas, Memory>
    requires sender { IsSubmitterOf drawing.now.queues.now sender.old }
    requires frame { sender.old.frame ≡ over drawing.now.frame [] }
    requires all { sender.old.batches ≡ batches_in sender.old.frame }
    requires there { MatchOption slot ⊥
        (λ l. IsWaitingTask drawing.now.queues.now (over drawing.now.frame []) _bin l.task) }
    ensures same { sender.new ≡ sender.old }
    ensures drawn { let list = drawing.now.frame.list.now.list in IfOk result (λ c.
        IsBinAt StandsPlain (tt {0}) list drawing.now.frame.cut.now (length list.members) _bin c) }
{
    let loan = slot.unwrap();
    let task = begun(drawing, alloc, loan.task).map_err(|_| Memory)?;
    Ok(drawn_on(drawing, sender, task))
}

/// The tiles of all bins in order, at the whole list. Err where memory gave out. Conditions: the sender submitted all
/// batches, and the tasks are of these queues and of this frame.
pub(crate) fn finish_all<R: Wait, G: Gate>(
    drawing: &Drawing<R, (), G>,
    alloc: Global,
    sender: &mut Sender,
    slots: Vec<Option<Loan<WaitingTask>>>,
) -> Result<Vec<Canvas>, Memory>
    requires sender { IsSubmitterOf drawing.now.queues.now sender.old }
    requires frame { sender.old.frame ≡ over drawing.now.frame [] }
    requires all { sender.old.batches ≡ batches_in sender.old.frame }
    requires slots { AreWaiting drawing.now.queues.now (over drawing.now.frame []) slots.items }
    ensures { let list = drawing.now.frame.list.now.list in IfOk result (λ v.
        AreBinsAt StandsPlain (tt {0}) list drawing.now.frame.cut.now (length list.members) v.items) }
{
    let count = drawing.frame.cut.bins();
    let mut bins = Vec::with_capacity(alloc, count as usize).map_err(|_| Memory)?;
    let mut bin = 0u32;
    for slot in slots {
        let canvas = finish(drawing, alloc, sender, slot, bin)?;
        bins.push_reserved(canvas);
        bin += 1;
    }
    Ok(bins)
}
