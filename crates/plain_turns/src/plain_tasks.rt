//! The tasks of bins over plain tiles: each waits in the seat of its bin, and has its tiles once they are drawn.
ghost use Rattle.std.specs.Prelude.{◌≡◌, [], None, Some, IfErr, IfOk, OnErr};
ghost use Rattle.bin_queues.specs.Frames.{over};
ghost use Rattle.bin_queues.specs.Tasks.{AreFirstTasks};
ghost use Rattle.plain_turns.specs.Waiting.{AreWaiting, IsPlainTask, MayBegin};
ghost use Rattle.bin_tasks.specs.declared.task.Task.{Task};
ghost use Rattle.masked_update.specs.Canvas.{CanvasOf};
ghost use Rattle.std.specs.declared.option.Option.{Option};

use bin_queues::{Batched, Intake, PartQueues};
use bin_tasks::{Drawing, Task};
use bin_tiles::Gate;
use binning::bin_span;
use cull_base::Memory;
use masked_update::Canvas;
use seats::Loan;
use std::alloc::Global;
use std::sync::Wait;

/// A bin's task as it waits. Its tiles are made by who draws the bin first.
pub(crate) type WaitingTask = Task<Option<Canvas>>;

/// A task that waits again, with its tiles.
pub(crate) fn waiting_of(task: Task<Canvas>) -> WaitingTask
    ensures intake { result.intake ≡ task.intake }
    ensures keeper { result.keeper ≡ Some task.keeper }
{
    Task {
        intake: task.intake,
        keeper: Some(task.keeper),
    }
}

// A bin's tiles: empty ones where none are made yet.
fn made<R: Wait, G: Gate>(
    drawing: &Drawing<R, (), G>,
    alloc: Global,
    intake: &Intake,
    keeper: Option<Canvas>,
) -> Result<Canvas, Memory>
    requires { let task : Task (Option CanvasOf) = record { intake = intake.now; keeper = keeper } in
        MayBegin drawing.now.queues.now (over drawing.now.frame []) task }
    ensures made { IfOk result (λ c. let task : Task CanvasOf = record { intake = intake.now; keeper = c } in
        IsPlainTask drawing.now.queues.now (over drawing.now.frame []) task) }
    ensures none { OnErr result (keeper ≡ None) }
{
    let (list, cut) = (drawing.frame.list, drawing.frame.cut);
    match keeper {
        Some(canvas) => Ok(canvas),
        None => Canvas::empty(alloc, bin_span(list.size(), cut, intake.bin())),
    }
}

/// The task of a bin with its tiles. Err gives the task back, where memory gave out for them. Condition: it is of these
/// queues and this frame.
pub(crate) fn begun<R: Wait, G: Gate>(
    drawing: &Drawing<R, (), G>,
    alloc: Global,
    task: WaitingTask,
) -> Result<Task<Canvas>, WaitingTask>
    requires { MayBegin drawing.now.queues.now (over drawing.now.frame []) task }
    ensures task { IfOk result (IsPlainTask drawing.now.queues.now (over drawing.now.frame [])) }
    ensures intake { IfOk result (λ t. t.intake ≡ task.intake) }
    ensures same { IfErr result (λ t. t ≡ task) }
{
    let Task { intake, keeper } = task;
    match made(drawing, alloc, &intake, keeper) {
        Ok(keeper) => Ok(Task { intake, keeper }),
        Err(_) => Err(Task {
            intake,
            keeper: None,
        }),
    }
}

/// The tasks of all bins in their seats, none of which has its tiles yet. Err where memory gave out.
pub(crate) fn first_tasks(
    alloc: Global,
    _queues: &PartQueues,
    frame: &Batched,
    intakes: Vec<Intake>,
) -> Result<Vec<Option<Loan<WaitingTask>>>, Memory>
    requires { AreFirstTasks _queues.now (over frame.now []) intakes.items }
    ensures { IfOk result (λ v. AreWaiting _queues.now (over frame.now []) v.items) }
{
    let count = frame.cut.bins();
    let mut slots = Vec::with_capacity(alloc, count as usize).map_err(|_| Memory)?;
    for intake in intakes {
        let keeper = None;
        let bin = slots.len();
        slots.push_reserved(Some(Loan::new(bin, Task { intake, keeper })));
    }
    Ok(slots)
}
