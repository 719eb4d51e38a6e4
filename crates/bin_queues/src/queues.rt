//! The queues of all bins, through which batches go from the sender to the bins' tasks.
ghost use Rattle.std.specs.Prelude.{◌≡◌, ◌≤◌, ◌<◌, ◌+◌, max, map, All, MatchOption};
ghost use Rattle.binning.specs.Parts.{parts_of};
ghost use Rattle.crossbeam_queue.specs.Passes.{ruled_capacity};
ghost use Rattle.bin_queues.specs.QueueParts.{batches_in, nth_part};
ghost use Rattle.bin_queues.specs.Tasks.{IsSubmitterOf, IsTaskOf, after_look, after_part};

use crate::intake::Intake;
use crate::number_rule::Number;
use crate::queue_rule::Queue;
use crate::sender::Sender;
use binning::BinPart;
use std::marker::Model;
use std::sync::Wait;

/// One queue for each bin, with room for the parts of all batches, and the number of batches that were submitted.
#[derive(Drop)]
pub struct PartQueues {
    queues: Vec<Queue>,
    number: Number,
    most: u32,
}

impl Model for PartQueues {
    ghost use Rattle.std.specs.Prelude.{map};
    ghost use Rattle.bin_queues.specs.Tasks.{QueuesOf};

    ghost Value = { QueuesOf };

    ghost view = { λ s. record {
      queues = map (λ q. q.table.shared.table_id) s.queues.items;
      number = s.number.table.shared.table_id;
      room = s.most;
    } };

    ghost use Rattle.std.specs.Prelude.{◌≤◌, All};
    ghost use Rattle.crossbeam_queue.specs.Passes.{ruled_capacity};

    ghost invariant = { λ s. All (λ q. s.most ≤ ruled_capacity q) s.queues.items };
}

impl PartQueues {
    /// Condition: each queue has room for so many parts.
    pub(crate) fn of(queues: Vec<Queue>, number: Number, most: u32) -> PartQueues
        requires { All (λ q. most ≤ ruled_capacity q) queues.items }
        ensures { result ≡ record {
          queues = map (λ q. q.table.shared.table_id) queues.items;
          number = number.table.shared.table_id;
          room = most;
        } }
    {
        PartQueues {
            queues,
            number,
            most,
        }
    }

    /// Submits the next batch: appends each part to its bin's queue, and then raises the number of batches that tasks
    /// see. Conditions: the sender is of these queues, a batch is left, and these are its parts, one for each bin.
    pub fn send<R: Wait>(&self, rt: &R, sender: &mut Sender, parts: Vec<BinPart>)
        requires queues { IsSubmitterOf self.now sender.old }
        requires short { sender.old.batches < batches_in sender.old.frame }
        requires parts { let frame = sender.old.frame in
            parts.items ≡ parts_of frame.list frame.cut frame.size sender.old.batches }
        ensures { sender.new ≡ record sender.old { batches = sender.old.batches + 1 } }
    {
        sender.submit(rt, self.queues.as_slice(), &self.number, parts);
    }

    /// Takes the next part of a task's bin. None where there is none: then no more were told of than were taken.
    /// Condition: the task is of these queues.
    pub fn next<R: Wait>(&self, rt: &R, intake: &mut Intake) -> Option<BinPart>
        requires { IsTaskOf self.now intake.old }
        ensures { MatchOption result
            ((intake.new ≡ intake.old) × (intake.old.told ≤ intake.old.batches))
            (λ x. (intake.new ≡ after_part intake.old) × (x ≡ nth_part intake.old.of intake.old.batches)
            × (intake.old.batches < batches_in intake.old.of.frame)) }
    {
        let queue = &self.queues[intake.bin() as usize];
        intake.next(rt, queue)
    }

    /// How many batches are published. Condition: the task is of these queues.
    pub fn look<R: Wait>(&self, rt: &R, intake: &mut Intake) -> u64
        requires { IsTaskOf self.now intake.old }
        ensures looked { intake.new ≡ after_look intake.old result }
        ensures rises { intake.old.heard ≤ result }
    {
        intake.look(rt, &self.number)
    }

    /// Tells a task how many batches were submitted: told is the greater of that and what it was. Condition: the sender
    /// and the task are of these queues.
    pub fn tell(&self, sender: &mut Sender, intake: &mut Intake)
        requires sender { IsSubmitterOf self.now sender.old }
        requires task { IsTaskOf self.now intake.old }
        ensures sender { sender.new ≡ sender.old }
        ensures told { intake.new ≡ record intake.old { told = max intake.old.told sender.old.batches } }
    {
        let bin = intake.bin();
        let queue = &self.queues[bin as usize];
        let note = sender.note(queue, bin);
        intake.hear(queue, note);
    }
}
