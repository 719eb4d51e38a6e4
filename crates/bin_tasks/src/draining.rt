//! How the task of a bin draws the parts of the bin's queue, and is told of batches.
ghost use Rattle.std.specs.Prelude.{◌≡◌, ◌≤◌, ◌<◌, ◌+◌, true, false, IfSome};
ghost use Rattle.bin_queues.specs.Frames.{over};
ghost use Rattle.bin_queues.specs.QueueParts.{batches_in};
ghost use Rattle.bin_queues.specs.Tasks.{GoesOn, IsSubmitterOf, IsTaskOf, after_part};
ghost use Rattle.bin_tasks.specs.Drains.{HasDrained, IsAnswer, MayDrain, WasTold};

use crate::drawing::Drawing;
use crate::task::{Drained, Task};
use bin_queues::{Intake, Sender};
use bin_tiles::{Gate, Keeper, Screen, draw_part};
use std::sync::Wait;

impl<'a, R: Wait, B, G: Gate> Drawing<'a, R, B, G> {
    // Takes the next part from the queue and draws it. False where there was none.
    fn draw_next<K: Keeper<B>>(&self, task: &mut Task<K>) -> bool
        requires { MayDrain K.stands K.cells self.now task.old }
        ensures may { MayDrain K.stands K.cells self.now task.new }
        ensures drawn { result ≡ true → task.new.intake ≡ after_part task.old.intake }
        ensures none { result ≡ false
            → (task.new.intake ≡ task.old.intake) × (task.old.intake.told ≤ task.old.intake.batches) }
    {
        let (list, cut) = (self.frame.list, self.frame.cut);
        let len = list.len();
        let bin = task.intake.bin();
        let batch = task.intake.batches();
        let taken = task.intake.taken();
        let from = task.intake.place(batch, len);
        match self.queues.next(self.rt, &mut task.intake) {
            Some(part) => {
                let to = task.intake.place(batch + 1, len);
                let (beside, gate) = (self.beside, self.gate);
                let screen = Screen {
                    list,
                    cut,
                    beside,
                    gate,
                };
                draw_part(
                    &mut task.keeper,
                    &screen,
                    bin,
                    part.indices(),
                    from,
                    to,
                    taken,
                );
                true
            }
            None => false,
        }
    }

    // Whether all batches are drawn.
    fn is_whole(&self, intake: &Intake) -> bool
        requires { intake.now.of.frame ≡ over self.now.frame intake.now.of.frame.cells }
        ensures whole { result ≡ true → intake.now.batches ≡ batches_in intake.now.of.frame }
        ensures short { result ≡ false → intake.now.batches < batches_in intake.now.of.frame }
    {
        intake.batches() == self.frame.batches()
    }

    // Looks how many batches are published. Some where no more are than were drawn: the gate is asked, and the call
    // ends.
    fn look_for_more(&self, intake: &mut Intake) -> Option<Drained>
        requires queues { IsTaskOf self.now.queues.now intake.old }
        requires short { intake.old.batches < batches_in intake.old.of.frame }
        requires told { intake.old.told ≤ intake.old.batches }
        ensures on { GoesOn intake.old intake.new }
        ensures same { intake.new.batches ≡ intake.old.batches }
        ensures answer { IfSome result (λ d. IsAnswer d intake.old intake.new) }
    {
        let batches = u64::from(intake.batches());
        if self.queues.look(self.rt, intake) > batches {
            return None;
        }
        self.gate.idle(intake.bin());
        Some(Drained::Empty)
    }

    // Draws one part, or finds how the call ends.
    fn turn<K: Keeper<B>>(&self, task: &mut Task<K>) -> Option<Drained>
        requires { MayDrain K.stands K.cells self.now task.old }
        ensures may { MayDrain K.stands K.cells self.now task.new }
        ensures on { GoesOn task.old.intake task.new.intake }
        ensures answer { IfSome result (λ d. IsAnswer d task.old.intake task.new.intake) }
    {
        if self.is_whole(&task.intake) {
            return Some(Drained::Whole);
        }
        if self.draw_next(task) {
            return None;
        }
        self.look_for_more(&mut task.intake)
    }

    /// Draws the parts of a task's bin in order, until all batches are drawn or no more are published. A task that was
    /// told of all batches draws them all. Condition: the task is of this frame and of these queues, and its tiles
    /// stand at the batches that it drew.
    pub fn drain<K: Keeper<B>>(&self, task: &mut Task<K>) -> Drained
        requires { MayDrain K.stands K.cells self.now task.old }
        ensures may { MayDrain K.stands K.cells self.now task.new }
        ensures answer { IsAnswer result task.old.intake task.new.intake }
        ensures drained { HasDrained task.old.intake task.new.intake }
    {
        for _ in self.rt.forever() {
            if let Some(drained) = self.turn(task) {
                return drained;
            }
        }
        unreachable!()
    }

    /// Draws parts of a task's bin in order, until so many members are drawn, all batches are, or no more are
    /// published. Condition: that of `drain`.
    pub fn drain_some<K: Keeper<B>>(&self, task: &mut Task<K>, most: u32)
        requires { MayDrain K.stands K.cells self.now task.old }
        ensures may { MayDrain K.stands K.cells self.now task.new }
        ensures on { GoesOn task.old.intake task.new.intake }
    {
        let end = task.intake.taken().saturating_add(most);
        for _ in self.rt.forever() {
            let ended = self.turn(task).is_some();
            if ended || end <= task.intake.taken() {
                return;
            }
        }
    }

    /// Tells a task how many batches were submitted. Conditions: the sender is of these queues and of the task's frame,
    /// and the task may be drained.
    pub fn tell<K: Keeper<B>>(&self, sender: &mut Sender, task: &mut Task<K>)
        requires sender { IsSubmitterOf self.now.queues.now sender.old }
        requires frame { sender.old.frame ≡ task.old.intake.of.frame }
        requires task { MayDrain K.stands K.cells self.now task.old }
        ensures same { sender.new ≡ sender.old }
        ensures may { MayDrain K.stands K.cells self.now task.new }
        ensures told { WasTold sender.old.batches task.old.intake task.new.intake }
    {
        self.queues.tell(sender, &mut task.intake);
    }
}
