//! How the queues of a frame are opened, with their sender and what the bins' tasks take in.
ghost use Rattle.std.specs.Prelude.{◌≡◌, ◌≤◌, ◌<◌, List, [], All, map, IfOk};
ghost use Rattle.atomic_table.specs.Seated.{TableId};
ghost use Rattle.binning.specs.Cut.{bin_count_of};
ghost use Rattle.crossbeam_queue.specs.Passes.{view, ruled_capacity};
ghost use Rattle.crossbeam_utils.specs.Seq.{IsSamePass, cell_view};
ghost use Rattle.bin_queues.specs.NumberRule.{publisher};
ghost use Rattle.bin_queues.specs.Frames.{over};
ghost use Rattle.bin_queues.specs.QueueParts.{BinOfFrame, IsBatched, batches_in};
ghost use Rattle.bin_queues.specs.QueueRule.{submitter};
ghost use Rattle.bin_queues.specs.Submitters.{AreOpenedTo};
ghost use Rattle.bin_queues.specs.Tasks.{AreFirstTasks, IsSubmitterOf, first_task};

use crate::batched::Batched;
use crate::intake::Intake;
use crate::number_rule::{Number, NumberPass};
use crate::queue_rule::{Queue, QueuePass};
use crate::queues::PartQueues;
use crate::sender::Sender;
use crate::{number_steps, queue_steps};
use cull_base::Memory;
use std::alloc::Global;

// The queue of a bin, with room for so many parts, the submitter's pass of it, and what the bin's task takes in.
fn open_bin(
    alloc: Global,
    frame: &Batched,
    bin: u32,
    most: u32,
    number: &Number,
    pass: &mut NumberPass,
) -> Result<(Queue, QueuePass, Intake), Memory>
    ghost of: { BinOfFrame }
    requires cut { frame.now.cut.now ≡ of.frame.cut }
    requires size { frame.now.size ≡ of.frame.size }
    requires bin { bin ≡ of.bin }
    requires real { of.bin < bin_count_of of.frame.cut }
    requires most { most ≡ batches_in of.frame }
    requires batched { IsBatched of.frame }
    requires own { pass.old.table_id ≡ number.now.table.shared.table_id }
    requires publishes { cell_view pass.old ≡ publisher 0 }
    ensures own { IsSamePass pass.old pass.new × (cell_view pass.new ≡ cell_view pass.old) }
    ensures queue { IfOk result (λ r. (r.1.table_id ≡ r.0.table.shared.table_id) × (most ≤ ruled_capacity r.0)) }
    ensures pass { IfOk result (λ r. (r.1.me.1 ≡ []) × (view r.1 ≡ submitter of 0)) }
    ensures intake { IfOk result (λ r.
        r.2 ≡ first_task r.0.table.shared.table_id number.now.table.shared.table_id of) }
{
    let room = most.max(1) as usize;
    let (queue, mut submits) = queue_steps::opened(alloc, room).map_err(|_| Memory)?;
    let takes = queue_steps::name(&queue, &mut submits);
    let listens = number_steps::listen(number, pass);
    let intake = Intake::first(takes, listens, *frame.cut, frame.size, bin);
    Ok((queue, submits, intake))
}

// The same for all bins, in order.
fn open_all(
    alloc: Global,
    frame: &Batched,
    number: &Number,
    pass: &mut NumberPass,
) -> Result<(Vec<Queue>, Vec<QueuePass>, Vec<Intake>), Memory>
    ghost cells: { List TableId }
    requires batched { IsBatched (over frame.now cells) }
    requires own { pass.old.table_id ≡ number.now.table.shared.table_id }
    requires publishes { cell_view pass.old ≡ publisher 0 }
    ensures own { IsSamePass pass.old pass.new × (cell_view pass.new ≡ cell_view pass.old) }
    ensures opened { IfOk result (λ r.
        AreOpenedTo (over frame.now cells) number.now.table.shared.table_id (bin_count_of frame.now.cut.now)
        (map (λ q. q.table.shared.table_id) r.0.items) r.1.items r.2.items) }
    ensures room { IfOk result (λ r. All (λ q. batches_in (over frame.now cells) ≤ ruled_capacity q) r.0.items) }
{
    let bins = frame.cut.bins();
    let most = frame.batches();
    let mut queues = Vec::with_capacity(alloc, bins as usize).map_err(|_| Memory)?;
    let mut passes = Vec::with_capacity(alloc, bins as usize).map_err(|_| Memory)?;
    let mut intakes = Vec::with_capacity(alloc, bins as usize).map_err(|_| Memory)?;
    for bin in 0..bins {
        let (queue, submits, intake) = open_bin(alloc, frame, bin, most, number, pass)?;
        queues.push_reserved(queue);
        passes.push_reserved(submits);
        intakes.push_reserved(intake);
    }
    Ok((queues, passes, intakes))
}

impl PartQueues {
    /// The queues of all bins of a batched list, all empty, what its batches are submitted with, and what each bin's
    /// task takes in, in order. They are for a frame over cells of any identities. Err where memory gave out.
    pub fn open(alloc: Global, frame: &Batched) -> Result<(PartQueues, Sender, Vec<Intake>), Memory>
        ghost cells: { List TableId }
        ensures sender { IfOk result (λ r. IsSubmitterOf r.0 r.1) }
        ensures frame { IfOk result (λ r. (r.1.frame ≡ over frame.now cells) × (r.1.batches ≡ 0)) }
        ensures intakes { IfOk result (λ r. AreFirstTasks r.0 r.1.frame r.2.items) }
    {
        // accessors tell what is held of a size, of a cut and of a list
        let (_width, _columns, _len) = (
            frame.list.size().width(),
            frame.cut.columns(),
            frame.list.len(),
        );
        let most = frame.batches();
        let (number, mut pass) = number_steps::opened(alloc).map_err(|_| Memory)?;
        let (queues, passes, intakes) = open_all(alloc, frame, &number, &mut pass)?;
        let sender = Sender::first(passes, pass);
        Ok((PartQueues::of(queues, number, most), sender, intakes))
    }
}
