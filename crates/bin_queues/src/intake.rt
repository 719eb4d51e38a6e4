//! What a bin's task takes in: the parts from the bin's queue, and how many batches were published.
ghost use Rattle.std.specs.Prelude.{◌≡◌, ◌+◌, ◌*◌, ◌<◌, ◌≤◌, [], min, max, length, MatchOption};
ghost use Rattle.binning.specs.Cut.{bin_count_of};
ghost use Rattle.binning.specs.Parts.{batch_count_of};
ghost use Rattle.crossbeam_queue.specs.Passes.{view, IsPassOf};
ghost use Rattle.crossbeam_utils.specs.Seq.{cell_view};
ghost use Rattle.bin_queues.specs.NumberRule.{listener};
ghost use Rattle.bin_queues.specs.QueueParts.{BinOfFrame, IsBatched, batches_in, nth_part, places_before, taken_before};
ghost use Rattle.bin_queues.specs.QueueRule.{taker, note, IsNote};
ghost use Rattle.bin_queues.specs.Tasks.{first_task, after_part, after_look};

use crate::number_rule::{Number, NumberPass};
use crate::queue_rule::{Queue, QueuePass};
use crate::{number_steps, queue_steps};
use binning::{BinPart, Cut};
use std::marker::Model;
use std::sync::Wait;

/// The passes of a bin's task, and what it took in.
#[derive(Drop)]
pub struct Intake {
    pass: QueuePass,
    number: NumberPass,
    cut: Cut,
    size: u32,
    bin: u32,
    batches: u32,
    taken: u32,
}

impl Model for Intake {
    ghost use Rattle.bin_queues.specs.Tasks.{Tasking};
    ghost use Rattle.bin_queues.specs.Intakes.{tasking, IsIntake};

    ghost Value = { Tasking };

    ghost view = { λ s. tasking s.taken s.pass s.number };

    ghost invariant = { λ s. IsIntake s.cut s.size s.bin s.batches s.taken s.pass s.number };
}

impl Intake {
    /// Before the first batch.
    pub(crate) fn first(
        pass: QueuePass,
        number: NumberPass,
        cut: Cut,
        size: u32,
        bin: u32,
    ) -> Intake
        requires takes { (view pass ≡ taker (view pass).of 0 0) × (pass.me.1 ≡ []) }
        requires listens { cell_view number ≡ listener 0 0 }
        requires batched { IsBatched (view pass).of.frame }
        requires real { (view pass).of.bin < bin_count_of (view pass).of.frame.cut }
        requires cut { cut ≡ (view pass).of.frame.cut }
        requires size { size ≡ (view pass).of.frame.size }
        requires bin { bin ≡ (view pass).of.bin }
        ensures { result ≡ first_task pass.table_id number.table_id (view pass).of }
    {
        Intake {
            pass,
            number,
            cut,
            size,
            bin,
            batches: 0,
            taken: 0,
        }
    }

    /// The bin.
    pub fn bin(&self) -> u32
        ensures value { result ≡ self.now.of.bin }
        ensures real { result < bin_count_of self.now.of.frame.cut }
        ensures batched { IsBatched self.now.of.frame }
    {
        let _size = self.size;
        self.bin
    }

    /// How many pieces a batch has.
    pub fn size(&self) -> u32
        ensures value { result ≡ self.now.of.frame.size }
        ensures some { 1 ≤ result }
    {
        self.size
    }

    /// How the screen is cut.
    pub fn cut(&self) -> &Cut
        ensures { result.now ≡ self.now.of.frame.cut }
    {
        &self.cut
    }

    /// How many parts it took.
    pub fn batches(&self) -> u32
        ensures value { result ≡ self.now.batches }
        ensures within { result ≤ batches_in self.now.of.frame }
        ensures batched { IsBatched self.now.of.frame }
        ensures real { self.now.of.bin < bin_count_of self.now.of.frame.cut }
    {
        self.batches
    }

    /// How many members these parts have.
    pub fn taken(&self) -> u32
        ensures value { result ≡ self.now.taken }
        ensures sum { result ≡ taken_before self.now.of self.now.batches }
    {
        let _batches = self.batches;
        self.taken
    }

    /// The first place of the list after so many batches.
    pub fn place(&self, batches: u32, len: u32) -> u32
        requires few { batches ≤ batches_in self.now.of.frame }
        requires len { len ≡ length self.now.of.frame.list.members }
        ensures { result ≡ places_before self.now.of.frame batches }
    {
        len.min(batches.saturating_mul(self.size))
    }

    /// Takes the next part. None where there is none: then no more were told of than were taken.
    pub(crate) fn next<R: Wait>(&mut self, rt: &R, queue: &Queue) -> Option<BinPart>
        requires { self.old.queue ≡ queue.now.table.shared.table_id }
        ensures { MatchOption result
            ((self.new ≡ self.old) × (self.old.told ≤ self.old.batches))
            (λ x. (self.new ≡ after_part self.old) × (x ≡ nth_part self.old.of self.old.batches)
            × (self.old.batches < batches_in self.old.of.frame)) }
    {
        let part = queue_steps::pop(rt, queue, &mut self.pass)?;
        self.batches += 1;
        self.taken += part.indices().len() as u32;
        Some(part)
    }

    /// How many batches are published.
    pub(crate) fn look<R: Wait>(&mut self, rt: &R, number: &Number) -> u64
        requires { self.old.number ≡ number.now.table.shared.table_id }
        ensures looked { self.new ≡ after_look self.old result }
        ensures rises { self.old.heard ≤ result }
    {
        number_steps::look(rt, number, &mut self.number)
    }

    /// Hears a note of the submitter's.
    pub(crate) fn hear(&mut self, queue: &Queue, note: QueuePass)
        requires queue { self.old.queue ≡ queue.now.table.shared.table_id }
        requires note { IsPassOf queue.now note × IsNote (view note) }
        ensures { self.new ≡ record self.old { told = max self.old.told (view note).number } }
    {
        queue_steps::hear(queue, &mut self.pass, note);
    }
}
