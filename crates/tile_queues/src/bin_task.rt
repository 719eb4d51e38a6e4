//! A bin's task over the cells of its tiles.
ghost use Rattle.std.specs.Prelude.{◌≡◌, ◌≤◌, ◌<◌, max};
ghost use Rattle.binning.specs.Cut.{bin_count_of};
ghost use Rattle.bin_queues.specs.QueueParts.{IsBatched, batches_in, taken_before};
ghost use Rattle.bin_queues.specs.Tasks.{IsSubmitterOf, IsTaskOf};
ghost use Rattle.tile_queues.specs.CellBins.{HoldsBin, StandsInCells};
ghost use Rattle.tile_queues.specs.Shares.{MayDraw, frame_over};
ghost use Rattle.bin_tasks.specs.Drains.{HasDrained, IsAnswer, IsTaskIn, WasTold};

use crate::cell_bin::{CellBin, InCells};
use bin_queues::{Intake, PartQueues, Sender};
use bin_tasks::{Drained, Drawing, Task};
use bin_tiles::Gate;
use binning::Cut;
use std::marker::Model;
use std::sync::Wait;

/// Draws the parts of a bin's queue into the cells of the bin's tiles, whose writers it owns. They stand at the members
/// of the parts that are drawn.
#[derive(Drop)]
pub struct BinTask {
    task: Task<CellBin>,
}

impl Model for BinTask {
    ghost use Rattle.bin_queues.specs.Tasks.{Tasking};
    ghost use Rattle.tile_queues.specs.CellBins.{HoldsBin};

    ghost Value = { Tasking };

    ghost view = { λ s. s.task.intake };

    ghost invariant = { λ s. HoldsBin s.task.intake s.task.keeper };
}

// Draws what is in the queue of a bin.
fn drain_in<R: Wait, G: Gate>(
    task: &mut Task<CellBin>,
    drawing: &Drawing<R, InCells<R>, G>,
) -> Drained
    requires may { MayDraw drawing.now task.old.intake }
    requires holds { HoldsBin task.old.intake task.old.keeper }
    ensures may { MayDraw drawing.now task.new.intake }
    ensures holds { HoldsBin task.new.intake task.new.keeper }
    ensures answer { IsAnswer result task.old.intake task.new.intake }
    ensures drained { HasDrained task.old.intake task.new.intake }
{
    drawing.drain(task)
}

// Tells it how many batches were submitted.
fn tell_in<R: Wait, G: Gate>(
    task: &mut Task<CellBin>,
    drawing: &Drawing<R, InCells<R>, G>,
    sender: &mut Sender,
)
    requires sender { IsSubmitterOf drawing.now.queues.now sender.old }
    requires frame { sender.old.frame ≡ frame_over drawing.now }
    requires may { MayDraw drawing.now task.old.intake }
    requires holds { HoldsBin task.old.intake task.old.keeper }
    ensures same { sender.new ≡ sender.old }
    ensures may { MayDraw drawing.now task.new.intake }
    ensures holds { HoldsBin task.new.intake task.new.keeper }
    ensures told { WasTold sender.old.batches task.old.intake task.new.intake }
{
    drawing.tell(sender, task);
}

// The same, whatever frame it is of.
fn hear_in(task: &mut Task<CellBin>, queues: &PartQueues, sender: &mut Sender)
    requires sender { IsSubmitterOf queues.now sender.old }
    requires task { IsTaskOf queues.now task.old.intake }
    requires holds { HoldsBin task.old.intake task.old.keeper }
    ensures same { sender.new ≡ sender.old }
    ensures holds { HoldsBin task.new.intake task.new.keeper }
    ensures told { task.new.intake ≡ record task.old.intake { told = max task.old.intake.told sender.old.batches } }
{
    queues.tell(sender, &mut task.intake);
}

impl BinTask {
    pub(crate) fn of(intake: Intake, keeper: CellBin) -> BinTask
        requires { HoldsBin intake keeper }
        ensures { result ≡ intake }
    {
        BinTask {
            task: Task { intake, keeper },
        }
    }

    /// The bin's number.
    pub fn bin(&self) -> u32
        ensures value { result ≡ self.now.of.bin }
        ensures real { result < bin_count_of self.now.of.frame.cut }
    {
        self.task.intake.bin()
    }

    /// How the screen is cut.
    pub fn cut(&self) -> &Cut
        ensures { result.now ≡ self.now.of.frame.cut }
    {
        self.task.intake.cut()
    }

    /// How many pieces a batch has.
    pub fn size(&self) -> u32
        ensures value { result ≡ self.now.of.frame.size }
        ensures batched { IsBatched self.now.of.frame }
    {
        // an accessor tells what is held of a frame
        let _bin = self.task.intake.bin();
        self.task.intake.size()
    }

    /// How many batches are drawn.
    pub fn batches(&self) -> u32
        ensures value { result ≡ self.now.batches }
        ensures within { result ≤ batches_in self.now.of.frame }
    {
        self.task.intake.batches()
    }

    /// How many pieces the drawn parts have.
    pub fn taken(&self) -> u32
        ensures value { result ≡ self.now.taken }
        ensures sum { result ≡ taken_before self.now.of self.now.batches }
    {
        self.task.intake.taken()
    }

    /// Draws what is in the bin's queue. Condition: the task is of these queues and of this frame.
    pub(crate) fn drain<R: Wait, G: Gate>(&mut self, drawing: &Drawing<R, InCells<R>, G>) -> Drained
        requires { MayDraw drawing.now self.old }
        ensures may { MayDraw drawing.now self.new }
        ensures answer { IsAnswer result self.old self.new }
        ensures drained { HasDrained self.old self.new }
    {
        drain_in(&mut self.task, drawing)
    }

    /// Tells the task how many batches were submitted. Conditions: the sender and the task are of these queues and of
    /// this frame.
    pub(crate) fn tell<R: Wait, G: Gate>(
        &mut self,
        drawing: &Drawing<R, InCells<R>, G>,
        sender: &mut Sender,
    )
        requires sender { IsSubmitterOf drawing.now.queues.now sender.old }
        requires frame { sender.old.frame ≡ frame_over drawing.now }
        requires task { MayDraw drawing.now self.old }
        ensures same { sender.new ≡ sender.old }
        ensures may { MayDraw drawing.now self.new }
        ensures told { WasTold sender.old.batches self.old self.new }
    {
        tell_in(&mut self.task, drawing, sender);
    }

    /// Tells the task how many batches were submitted. Condition: the sender and the task are of these queues.
    pub(crate) fn hear(&mut self, queues: &PartQueues, sender: &mut Sender)
        requires sender { IsSubmitterOf queues.now sender.old }
        requires task { IsTaskOf queues.now self.old }
        ensures same { sender.new ≡ sender.old }
        ensures told { self.new ≡ record self.old { told = max self.old.told sender.old.batches } }
    {
        hear_in(&mut self.task, queues, sender);
    }

    /// What it takes in, and the writers of the bin's tiles.
    pub(crate) fn into_parts(self) -> (Intake, CellBin)
        ensures intake { result.0 ≡ self }
        ensures bin { HoldsBin self result.1 }
    {
        let BinTask { task } = self;
        let Task { intake, keeper } = task;
        (intake, keeper)
    }
}
