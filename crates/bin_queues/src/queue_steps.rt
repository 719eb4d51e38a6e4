//! The steps on one queue.
ghost use Rattle.std.specs.Prelude.{◌≡◌, ◌+◌, ◌<◌, ◌≤◌, IfOk, MatchOption};
ghost use Rattle.crossbeam_queue.specs.Passes.{view, IsPassOf, IsSamePass, ruled_capacity};
ghost use Rattle.bin_queues.specs.QueueParts.{BinOfFrame, batches_in, nth_part};
ghost use Rattle.bin_queues.specs.QueueRule.{nameless, submitter, taker, note, told_by, Popped, IsSubmitter, IsTaker, IsNote};

use crate::queue_rule::{Hear, Name, Naming, Pop, Push, Queue, QueuePass, Tell};
use binning::BinPart;
use std::alloc::{AllocError, Global};
use std::marker::Brand;
use std::sync::Wait;

/// An empty queue, and the pass of its one view. Condition: there is room.
pub(crate) fn opened(alloc: Global, room: usize) -> Result<(Queue, QueuePass), AllocError>
    requires { 0 < room }
    ensures { IfOk result (λ c. IsPassOf c.0 c.1 × (view c.1 ≡ nameless) × (c.1.id ≡ 0) × (ruled_capacity c.0 ≡ room)) }
{
    Queue::ruled(alloc, room)
}

fn named<B: Naming>(queue: &Queue, pass: &mut QueuePass) -> QueuePass
    requires own { IsPassOf queue.now pass.old × (pass.old.id ≡ 0) }
    requires nameless { view pass.old ≡ nameless }
    ensures own { IsSamePass pass.old pass.new × IsPassOf queue.now result }
    ensures named { (view pass.new ≡ submitter B.bin 0) × (view result ≡ taker B.bin 0 0) }
{
    queue.another::<Name<B>>(pass)
}

/// Names a new queue after a bin. The pass is now the submitter's, and the other is that of the bin's task.
pub(crate) fn name(queue: &Queue, pass: &mut QueuePass) -> QueuePass
    ghost of: { BinOfFrame }
    requires own { IsPassOf queue.now pass.old × (pass.old.id ≡ 0) }
    requires nameless { view pass.old ≡ nameless }
    ensures own { IsSamePass pass.old pass.new × IsPassOf queue.now result }
    ensures submits { view pass.new ≡ submitter of 0 }
    ensures takes { view result ≡ taker of 0 0 }
{
    named::<Brand>(queue, pass)
}

/// Appends the next part. Conditions: it is, and there is room for all.
pub(crate) fn push<R: Wait>(rt: &R, queue: &Queue, pass: &mut QueuePass, value: BinPart)
    requires own { IsPassOf queue.now pass.old }
    requires submits { IsSubmitter (view pass.old) }
    requires next { value ≡ nth_part (view pass.old).of (view pass.old).number }
    requires short { (view pass.old).number < batches_in (view pass.old).of.frame }
    requires room { batches_in (view pass.old).of.frame ≤ ruled_capacity queue.now }
    ensures own { IsSamePass pass.old pass.new }
    ensures pushed { view pass.new ≡ submitter (view pass.old).of ((view pass.old).number + 1) }
{
    match queue.push_as::<Push, R>(rt, pass, value) {
        Ok(()) => {}
        Err(_) => unreachable!(),
    }
}

/// Takes the next part. None where the queue was empty: then no more were pushed than were popped.
pub(crate) fn pop<R: Wait>(rt: &R, queue: &Queue, pass: &mut QueuePass) -> Option<BinPart>
    requires own { IsPassOf queue.now pass.old }
    requires takes { IsTaker (view pass.old) }
    ensures own { IsSamePass pass.old pass.new }
    ensures popped { MatchOption result
        ((view pass.new ≡ view pass.old) × ((view pass.old).told ≤ (view pass.old).number))
        (λ x. Popped (view pass.old) x (view pass.new)) }
{
    queue.pop_as::<Pop, R>(rt, pass)
}

/// A note of how many parts were pushed.
pub(crate) fn tell(queue: &Queue, pass: &mut QueuePass) -> QueuePass
    requires own { IsPassOf queue.now pass.old }
    requires submits { IsSubmitter (view pass.old) }
    ensures own { IsSamePass pass.old pass.new × IsPassOf queue.now result }
    ensures same { view pass.new ≡ view pass.old }
    ensures told { view result ≡ note (view pass.old).of (view pass.old).number }
{
    queue.another::<Tell>(pass)
}

/// Takes a note into the task's view. Both are of one queue, and so of one bin: the rule tells that.
pub(crate) fn hear(queue: &Queue, pass: &mut QueuePass, note: QueuePass)
    requires own { IsPassOf queue.now pass.old × IsPassOf queue.now note }
    requires roles { IsTaker (view pass.old) × IsNote (view note) }
    ensures own { IsSamePass pass.old pass.new }
    ensures heard { view pass.new ≡ told_by (view pass.old) (view note) }
{
    queue.absorb::<Hear>(pass, note);
}
