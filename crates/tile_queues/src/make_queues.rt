//! How the queues of a frame over cells are made, with their submitter and the workers' tasks.
ghost use Rattle.std.specs.Prelude.{◌≡◌, ◌≤◌, ◌<◌, List, [], length, vec_capacity, IfOk};
ghost use Rattle.atomic_table.specs.Seated.{TableId};
ghost use Rattle.cull_base.specs.Screen.{tile_count_of};
ghost use Rattle.bin_queues.specs.Frames.{over};
ghost use Rattle.bin_queues.specs.Tasks.{AreFirstTasks, IsSubmitterOf};
ghost use Rattle.tile_queues.specs.Owners.{AreFirst, cells_of};
ghost use Rattle.tile_queues.specs.Shares.{AreFirstShares};

use crate::share::{Share, deal};
use crate::submitter::Submitter;
use crate::tile_slots::into_slots;
use bin_queues::{Batched, Intake, PartQueues, Sender};
use cull_base::Memory;
use std::alloc::Global;
use tile_cells::TileWriter;

// The queues of a frame over the cells of these writers.
fn open_over(
    alloc: Global,
    frame: &Batched,
    _writers: &[TileWriter],
) -> Result<(PartQueues, Sender, Vec<Intake>), Memory>
    ghost cells: { List TableId }
    requires cells { cells ≡ cells_of _writers.now }
    ensures sender { IfOk result (λ r. IsSubmitterOf r.0 r.1) }
    ensures frame { IfOk result (λ r.
        (r.1.frame ≡ over frame.now (cells_of _writers.now)) × (r.1.batches ≡ 0)) }
    ensures intakes { IfOk result (λ r.
        AreFirstTasks r.0 (over frame.now (cells_of _writers.now)) r.2.items) }
{
    PartQueues::open(alloc, frame)
}

// Gives each bin's task its writers, and each worker its tasks. With these come the slots of all tiles, and an empty
// list with room for all writers.
fn deal_writers(
    alloc: Global,
    queues: &PartQueues,
    frame: &Batched,
    intakes: Vec<Intake>,
    writers: Vec<TileWriter>,
    workers: u32,
) -> Result<(Vec<Option<TileWriter>>, Vec<TileWriter>, Vec<Share>), Memory>
    ghost cells: { List TableId }
    requires cells { cells ≡ cells_of writers.items }
    requires writers { AreFirst frame.now.list.now.list writers.items }
    requires some { 0 < workers }
    requires first { AreFirstTasks queues.now (over frame.now cells) intakes.items }
    ensures slots { IfOk result (λ r. length r.0.items ≡ tile_count_of frame.now.list.now.list.size) }
    ensures room { IfOk result (λ r. (r.1.items ≡ []) × (length r.0.items ≤ vec_capacity r.1)) }
    ensures shares { IfOk result (λ r. AreFirstShares queues.now (over frame.now cells) workers r.2.items) }
{
    let room = Vec::with_capacity(alloc, writers.len()).map_err(|_| Memory)?;
    let mut slots = into_slots(alloc, writers)?;
    let shares = deal(alloc, queues, frame, intakes, slots.as_mut_slice(), workers)?;
    Ok((slots, room, shares))
}

/// The queues of a frame over the cells of these writers, all empty, with their submitter and so many workers, each
/// with the tasks of its bins. Err where memory gave out. Conditions: there is a worker, and the writers are those of a
/// new frame of this list, in tile order.
pub(crate) fn make_over_cells(
    alloc: Global,
    frame: &Batched,
    writers: Vec<TileWriter>,
    workers: u32,
) -> Result<(PartQueues, Submitter, Vec<Share>), Memory>
    requires writers { AreFirst frame.now.list.now.list writers.items }
    requires some { 0 < workers }
    ensures submitter { IfOk result (λ r. IsSubmitterOf r.0 r.1) }
    ensures frame { IfOk result (λ r.
        (r.1.frame ≡ over frame.now (cells_of writers.items)) × (r.1.batches ≡ 0)) }
    ensures shares { IfOk result (λ r.
        AreFirstShares r.0 (over frame.now (cells_of writers.items)) workers r.2.items) }
{
    let (queues, sender, intakes) = open_over(alloc, frame, writers.as_slice())?;
    let (slots, room, shares) = deal_writers(alloc, &queues, frame, intakes, writers, workers)?;
    Ok((queues, Submitter::of(sender, slots, room), shares))
}
