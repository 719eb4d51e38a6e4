//! How the tasks of a frame hand back their writers.
ghost use Rattle.std.specs.Prelude.{◌≡◌, length};
ghost use Rattle.cull_base.specs.Screen.{tile_count_of};
ghost use Rattle.tile_cells.specs.Standing.{AreStanding};
ghost use Rattle.bin_queues.specs.QueueParts.{BatchedFrame, IsBatched};
ghost use Rattle.bin_queues.specs.Tasks.{IsSubmitterOf};
ghost use Rattle.tile_queues.specs.Owners.{AreBinsOf, AreHandedBack, ArePutBack, AreSlotsAt, AreTasksOf};
ghost use Rattle.tile_queues.specs.Shares.{AreDrained};

use crate::bin_task::BinTask;
use crate::share::Share;
use crate::submitter::Submitter;
use crate::tile_slots::{empty_slots, put_writers};
use bin_queues::PartQueues;
use tile_cells::TileWriter;

// Puts the writers of some tasks into the slots of their tiles.
fn put_tasks(slots: &mut [Option<TileWriter>], tasks: Vec<BinTask>)
    ghost frame: { BatchedFrame }
    requires whole { length slots.old ≡ tile_count_of frame.list.size }
    requires bins { AreBinsOf frame tasks.items }
    ensures whole { length slots.new ≡ length slots.old }
    ensures back { ArePutBack frame tasks.items (length tasks.items) slots.old slots.new }
{
    let mut done = 0usize;
    for task in tasks {
        let (intake, bin) = task.into_parts();
        // an accessor tells what is held of an intake
        let _bin = intake.bin();
        put_writers(slots, bin.writers);
        done += 1;
    }
}

/// What `BinQueues::close` gives.
pub(crate) fn hand_back(
    _queues: &PartQueues,
    submitter: Submitter,
    tasks: Vec<BinTask>,
) -> Vec<TileWriter>
    ghost frame: { BatchedFrame }
    requires frame { submitter.frame ≡ frame }
    requires tasks { AreTasksOf _queues.now frame tasks.items }
    ensures { AreHandedBack frame tasks.items result.items }
{
    let (mut slots, room) = submitter.into_room();
    put_tasks(slots.as_mut_slice(), tasks);
    empty_slots(slots.as_mut_slice(), room)
}

// Puts the writers of all workers' tasks into the slots of their tiles.
fn put_shares(_queues: &PartQueues, slots: &mut [Option<TileWriter>], shares: Vec<Share>)
    ghost frame: { BatchedFrame }
    requires batched { IsBatched frame }
    requires whole { length slots.old ≡ tile_count_of frame.list.size }
    requires drawn { AreDrained _queues.now frame (length shares.items) shares.items }
    ensures whole { length slots.new ≡ length slots.old }
    ensures back { AreSlotsAt frame (length frame.list.members) slots.new }
{
    let mut done = 0usize;
    for share in shares {
        put_tasks(slots, share.tasks);
        done += 1;
    }
}

/// The writers of all tiles, in tile order, at the whole list. Condition: the workers' tasks are those of this frame,
/// over a cell for each tile, and drew all batches.
pub(crate) fn hand_back_all(
    queues: &PartQueues,
    submitter: Submitter,
    shares: Vec<Share>,
) -> Vec<TileWriter>
    ghost frame: { BatchedFrame }
    requires frame { submitter.frame ≡ frame }
    requires cells { length frame.cells ≡ tile_count_of frame.list.size }
    requires drawn { AreDrained queues.now frame (length shares.items) shares.items }
    ensures { AreStanding frame.cells frame.list (length frame.list.members) result.items }
{
    let (mut slots, room) = submitter.into_room();
    put_shares(queues, slots.as_mut_slice(), shares);
    empty_slots(slots.as_mut_slice(), room)
}
