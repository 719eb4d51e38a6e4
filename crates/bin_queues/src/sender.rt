//! What batches are submitted with: the passes of all queues and of the published number.
ghost use Rattle.std.specs.Prelude.{◌≡◌, ◌≤◌, ◌<◌, ◌+◌, All, map, length};
ghost use Rattle.crossbeam_queue.specs.Passes.{view, IsPassOf, ruled_capacity};
ghost use Rattle.crossbeam_utils.specs.Seq.{IsSamePass, cell_view};
ghost use Rattle.binning.specs.Parts.{parts_of};
ghost use Rattle.bin_queues.specs.NumberRule.{publisher};
ghost use Rattle.bin_queues.specs.QueueParts.{IsBatched, batches_in, bin_of_frame};
ghost use Rattle.bin_queues.specs.QueueRule.{note};
ghost use Rattle.bin_queues.specs.Submitters.{HavePushed, frame_of, queues_of, submitting};
ghost use Rattle.bin_queues.specs.Tasks.{IsAt};

use crate::number_rule::{Number, NumberPass};
use crate::queue_rule::{Queue, QueuePass};
use crate::{number_steps, queue_steps};
use binning::BinPart;
use std::marker::Model;
use std::sync::Wait;

/// The passes with which the batches of a frame are submitted, one after another.
#[derive(Drop)]
pub struct Sender {
    passes: Vec<QueuePass>,
    number: NumberPass,
    batches: u32,
}

impl Model for Sender {
    ghost use Rattle.bin_queues.specs.Tasks.{Submitting};
    ghost use Rattle.bin_queues.specs.Submitters.{AreSubmitting, submitting};

    ghost Value = { Submitting };

    ghost view = { λ s. submitting s.passes.items s.number };

    ghost invariant = { λ s. AreSubmitting s.batches s.passes.items s.number };
}

// Pushes each part of a batch to its bin's queue. The passes come as a Vec, since one of a slice has no place of its own:
// it has no bytes.
fn push_all<R: Wait>(
    rt: &R,
    queues: &[Queue],
    passes: &mut Vec<QueuePass>,
    parts: Vec<BinPart>,
    _batch: u32,
)
    requires batched { IsBatched (frame_of passes.old.items) }
    requires pushed { HavePushed (frame_of passes.old.items) _batch 0 passes.old.items }
    requires own { queues_of passes.old.items ≡ map (λ q. q.table.shared.table_id) queues.now }
    requires room { All (λ q. batches_in (frame_of passes.old.items) ≤ ruled_capacity q) queues.now }
    requires short { _batch < batches_in (frame_of passes.old.items) }
    requires parts { let frame = frame_of passes.old.items in
        parts.items ≡ parts_of frame.list frame.cut frame.size _batch }
    ensures same { queues_of passes.new.items ≡ queues_of passes.old.items }
    ensures frame { frame_of passes.new.items ≡ frame_of passes.old.items }
    ensures pushed { HavePushed (frame_of passes.new.items) (_batch + 1) 0 passes.new.items }
{
    let mut bin = 0usize;
    for part in parts {
        queue_steps::push(rt, &queues[bin], &mut passes[bin], part);
        bin += 1;
    }
}

// Publishes the next batch. Condition: its parts are pushed to all bins.
fn publish<R: Wait>(
    rt: &R,
    number: &Number,
    pass: &mut NumberPass,
    _passes: &Vec<QueuePass>,
    batches: u32,
)
    requires own { pass.old.table_id ≡ number.now.table.shared.table_id }
    requires before { cell_view pass.old ≡ publisher batches }
    requires pushed { HavePushed (frame_of _passes.now.items) (batches + 1) 0 _passes.now.items }
    ensures own { IsSamePass pass.old pass.new }
    ensures published { cell_view pass.new ≡ publisher (batches + 1) }
{
    number_steps::raise(rt, number, pass, u64::from(batches) + 1);
}

impl Sender {
    /// Before the first batch.
    pub(crate) fn first(passes: Vec<QueuePass>, number: NumberPass) -> Sender
        requires batched { IsBatched (frame_of passes.items) }
        requires pushed { HavePushed (frame_of passes.items) 0 0 passes.items }
        requires published { cell_view number ≡ publisher 0 }
        ensures { result ≡ submitting passes.items number }
    {
        Sender {
            passes,
            number,
            batches: 0,
        }
    }

    /// How many batches were submitted.
    pub fn batches(&self) -> u32
        ensures value { result ≡ self.now.batches }
        ensures within { result ≤ batches_in self.now.frame }
        ensures batched { IsBatched self.now.frame }
    {
        self.batches
    }

    /// Pushes the parts of the next batch, and then publishes it.
    pub(crate) fn submit<R: Wait>(
        &mut self,
        rt: &R,
        queues: &[Queue],
        number: &Number,
        parts: Vec<BinPart>,
    )
        requires queues { self.old.queues ≡ map (λ q. q.table.shared.table_id) queues.now }
        requires number { self.old.number ≡ number.now.table.shared.table_id }
        requires room { All (λ q. batches_in self.old.frame ≤ ruled_capacity q) queues.now }
        requires short { self.old.batches < batches_in self.old.frame }
        requires parts { let frame = self.old.frame in
            parts.items ≡ parts_of frame.list frame.cut frame.size self.old.batches }
        ensures { self.new ≡ record self.old { batches = self.old.batches + 1 } }
    {
        push_all(rt, queues, &mut self.passes, parts, self.batches);
        publish(rt, number, &mut self.number, &self.passes, self.batches);
        self.batches += 1;
    }

    /// A note for the task of a bin, of how many batches were submitted. Condition: the queue is that of the bin.
    pub(crate) fn note(&mut self, queue: &Queue, bin: u32) -> QueuePass
        requires { IsAt self.old.queues bin queue.now.table.shared.table_id }
        ensures same { self.new ≡ self.old }
        ensures own { IsPassOf queue.now result }
        ensures told { view result ≡ note (bin_of_frame self.old.frame bin) self.old.batches }
    {
        queue_steps::tell(queue, &mut self.passes[bin as usize])
    }
}
