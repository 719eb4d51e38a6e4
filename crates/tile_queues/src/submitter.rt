//! The submitter of batches to the queues of all bins.
ghost use Rattle.std.specs.Prelude.{◌≡◌, ◌≤◌, ◌<◌, ◌+◌, [], max, length, vec_capacity};
ghost use Rattle.binning.specs.Parts.{parts_of};
ghost use Rattle.cull_base.specs.Screen.{tile_count_of};
ghost use Rattle.bin_queues.specs.QueueParts.{IsBatched, batches_in};
ghost use Rattle.bin_queues.specs.Tasks.{IsSubmitterOf, IsTaskOf};

use crate::bin_task::BinTask;
use bin_queues::{PartQueues, Sender};
use binning::BinPart;
use std::marker::Model;
use std::sync::Wait;
use tile_cells::TileWriter;

/// Submits the batches of a frame, one after another.
#[derive(Drop)]
pub struct Submitter {
    sender: Sender,
    /// For the writers that tasks hand back: a slot for each tile, and a list with room for all.
    slots: Vec<Option<TileWriter>>,
    room: Vec<TileWriter>,
}

impl Model for Submitter {
    ghost use Rattle.std.specs.Prelude.{◌≡◌, ◌≤◌, [], length, vec_capacity};
    ghost use Rattle.cull_base.specs.Screen.{tile_count_of};
    ghost use Rattle.bin_queues.specs.Tasks.{Submitting};

    ghost Value = { Submitting };

    ghost view = { λ s. s.sender };

    ghost invariant = { λ s. (length s.slots.items ≡ tile_count_of s.sender.frame.list.size)
        × (s.room.items ≡ []) × (length s.slots.items ≤ vec_capacity s.room) };
}

impl Submitter {
    /// Conditions: there is a slot for each tile, and room for each tile's writer.
    pub(crate) fn of(
        sender: Sender,
        slots: Vec<Option<TileWriter>>,
        room: Vec<TileWriter>,
    ) -> Submitter
        requires slots { length slots.items ≡ tile_count_of sender.frame.list.size }
        requires room { (room.items ≡ []) × (length slots.items ≤ vec_capacity room) }
        ensures { result ≡ sender }
    {
        Submitter {
            sender,
            slots,
            room,
        }
    }

    /// What it submits with, the slots, and the empty list with room.
    pub(crate) fn into_parts(self) -> (Sender, Vec<Option<TileWriter>>, Vec<TileWriter>)
        ensures sender { result.0 ≡ self }
        ensures slots { length result.1.items ≡ tile_count_of self.frame.list.size }
        ensures room { (result.2.items ≡ []) × (length result.1.items ≤ vec_capacity result.2) }
    {
        let Submitter {
            sender,
            slots,
            room,
        } = self;
        (sender, slots, room)
    }

    /// The slots, and the empty list with room.
    pub(crate) fn into_room(self) -> (Vec<Option<TileWriter>>, Vec<TileWriter>)
        ensures slots { length result.0.items ≡ tile_count_of self.frame.list.size }
        ensures room { (result.1.items ≡ []) × (length result.0.items ≤ vec_capacity result.1) }
        ensures batched { IsBatched self.frame }
    {
        let (sender, slots, room) = self.into_parts();
        // an accessor tells what is held of a frame
        let _batches = sender.batches();
        (slots, room)
    }

    /// How many batches were submitted.
    pub fn batches(&self) -> u32
        ensures value { result ≡ self.now.batches }
        ensures within { result ≤ batches_in self.now.frame }
    {
        self.sender.batches()
    }

    /// Submits the next batch. Conditions: those of `BinQueues::submit`.
    pub(crate) fn submit<R: Wait>(&mut self, rt: &R, queues: &PartQueues, parts: Vec<BinPart>)
        requires queues { IsSubmitterOf queues.now self.old }
        requires short { self.old.batches < batches_in self.old.frame }
        requires parts { let frame = self.old.frame in
            parts.items ≡ parts_of frame.list frame.cut frame.size self.old.batches }
        ensures { self.new ≡ record self.old { batches = self.old.batches + 1 } }
    {
        queues.send(rt, &mut self.sender, parts);
    }

    /// Tells a task how many batches were submitted. Conditions: those of `BinQueues::tell`.
    pub(crate) fn tell(&mut self, queues: &PartQueues, task: &mut BinTask)
        requires queues { IsSubmitterOf queues.now self.old }
        requires task { IsTaskOf queues.now task.old }
        ensures same { self.new ≡ self.old }
        ensures told { task.new ≡ record task.old { told = max task.old.told self.old.batches } }
    {
        task.hear(queues, &mut self.sender);
    }
}
