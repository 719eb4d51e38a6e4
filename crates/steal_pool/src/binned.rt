//! The parts of batches, and slots for them that several threads fill.
ghost use Rattle.std.specs.Prelude.{◌≡◌, ◌<◌, length, vec_items, IfOk};
ghost use Rattle.binning.specs.Parts.{batch_count_of};
ghost use Rattle.steal_pool.specs.Binned.{AreBinned, IsBinned};

use bin_queues::Batched;
use bin_tasks::parts_at;
use binning::BinPart;
use cull_base::Memory;
use side_by_side::for_each_share;
use std::alloc::Global;
use std::sync::Wait;
use std::thread::Threads;
use tile_queues::Gate;

/// The parts of a batch, or none where memory gave out.
pub type Slot = Option<Vec<BinPart>>;

/// So many pieces are worth a thread's start.
const SHARE: u32 = 1024;

/// By how many threads the batches are binned: by no more than there are workers, and each has pieces enough and at
/// least two batches. Where it is less than two, the caller bins them.
pub(crate) fn binning_threads(frame: &Batched, workers: u32) -> usize {
    let shares = frame.list.len() / SHARE;
    let threads = shares.min(frame.batches() / 2).min(workers);
    threads as usize
}

/// An empty slot for each batch. Err where memory gave out.
pub(crate) fn empty_slots(alloc: Global, frame: &Batched) -> Result<Vec<Slot>, Memory>
    ensures { IfOk result (λ v.
        length v.items ≡ batch_count_of (length frame.now.list.now.list.members) frame.now.size) }
{
    let batches = frame.batches();
    let mut slots = Vec::with_capacity(alloc, batches as usize).map_err(|_| Memory)?;
    for _ in 0..batches {
        slots.push_reserved(None);
    }
    Ok(slots)
}

// Puts the parts of a batch into a slot, unless memory gives out.
fn bin_into<G: Gate>(alloc: Global, frame: &Batched, gate: &G, batch: usize, slot: &mut Slot)
    requires { batch < batch_count_of (length frame.now.list.now.list.members) frame.now.size }
    ensures { IsBinned vec_items frame.now batch slot.new }
{
    // an accessor tells that there are few batches
    let _batches = frame.batches();
    match parts_at(alloc, frame, gate, batch as u32) {
        Ok(parts) => *slot = Some(parts),
        Err(Memory) => *slot = None,
    }
}

/// Puts the parts of each batch into its slot, by so many threads. Where memory gives out, a slot is empty. Condition:
/// there is a slot for each batch.
pub(crate) fn bin_all<R: Threads + Wait + Sync, G: Gate>(
    rt: &R,
    alloc: Global,
    frame: &Batched,
    gate: &G,
    slots: &mut [Slot],
    threads: usize,
)
    requires { length slots.old ≡ batch_count_of (length frame.now.list.now.list.members) frame.now.size }
    ensures many { length slots.new ≡ length slots.old }
    ensures binned { AreBinned vec_items frame.now slots.new }
{
    for_each_share(
        rt,
        slots,
        threads,
        &|batch: usize, slot: &mut Slot|
            requires { batch < batch_count_of (length frame.now.list.now.list.members) frame.now.size }
            ensures { IsBinned vec_items frame.entry.now batch slot.new }
        { bin_into(alloc, frame, gate, batch, slot) },
    );
}
