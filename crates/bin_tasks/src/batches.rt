//! The batches of a frame, binned and submitted one after another.
ghost use Rattle.std.specs.Prelude.{◌≡◌, ◌≤◌, ◌<◌, ◌+◌, length, IfOk, OnOk};
ghost use Rattle.binning.specs.Parts.{batch_count_of, parts_of};
ghost use Rattle.bin_queues.specs.Frames.{over};
ghost use Rattle.bin_queues.specs.QueueParts.{batches_in};
ghost use Rattle.bin_queues.specs.Tasks.{IsSubmitterOf};

use crate::drawing::Drawing;
use bin_queues::{Batched, Sender};
use bin_tiles::Gate;
use binning::{BinPart, bin_batch};
use cull_base::Memory;
use std::alloc::Global;
use std::sync::Wait;

/// Of so many batches one is submitted before the workers begin, so that each finds something to draw when it has
/// started. More of them only keep the workers waiting.
const AHEAD: u32 = 32;

/// The parts of a batch, once the gate has returned. Err where memory gave out. Condition: there is such a batch.
pub fn parts_at<G: Gate>(
    alloc: Global,
    frame: &Batched,
    gate: &G,
    batch: u32,
) -> Result<Vec<BinPart>, Memory>
    requires { batch < batch_count_of (length frame.now.list.now.list.members) frame.now.size }
    ensures { IfOk result (λ v.
        v.items ≡ parts_of frame.now.list.now.list frame.now.cut.now frame.now.size batch) }
{
    // an accessor tells that there are few batches
    let _batches = frame.batches();
    let (list, size) = (frame.list, frame.size);
    gate.submits(batch);
    let len = list.len();
    let from = len.min(batch.saturating_mul(size));
    let to = len.min((batch + 1).saturating_mul(size));
    let parts = bin_batch(alloc, list, batch, from, to, frame.cut)?;
    Ok(parts)
}

impl<'a, R: Wait, B, G: Gate> Drawing<'a, R, B, G> {
    /// How many batches are submitted before the workers begin.
    pub fn batches_ahead(&self) -> u32
        ensures { let frame = self.now.frame in
            result ≤ batch_count_of (length frame.list.now.list.members) frame.size }
    {
        self.frame.batches() / AHEAD
    }

    // Bins the next batch, once the gate has returned, and submits it.
    fn submit_next(&self, alloc: Global, sender: &mut Sender) -> Result<(), Memory>
        requires queues { IsSubmitterOf self.now.queues.now sender.old }
        requires frame { sender.old.frame ≡ over self.now.frame sender.old.frame.cells }
        requires short { sender.old.batches < batches_in sender.old.frame }
        ensures { OnOk result (sender.new ≡ record sender.old { batches = sender.old.batches + 1 }) }
    {
        let batch = sender.batches();
        let parts = parts_at(alloc, &self.frame, self.gate, batch)?;
        self.queues.send(self.rt, sender, parts);
        Ok(())
    }

    /// Bins and submits so many batches more, in order. The gate is asked before each. Err where memory gave out, and
    /// then no batch comes any more. Conditions: the sender is of these queues and of this frame, which has so many
    /// more.
    pub fn submit(&self, alloc: Global, sender: &mut Sender, count: u32) -> Result<(), Memory>
        requires queues { IsSubmitterOf self.now.queues.now sender.old }
        requires frame { sender.old.frame ≡ over self.now.frame sender.old.frame.cells }
        requires left { sender.old.batches + count ≤ batches_in sender.old.frame }
        ensures { OnOk result (sender.new ≡ record sender.old { batches = sender.old.batches + count }) }
    {
        for _ in 0..count {
            self.submit_next(alloc, sender)?;
        }
        Ok(())
    }
}
