//! The parts of one batch at a time for some bins, in rooms that are kept from batch to batch.
ghost use Rattle.std.specs.Prelude.{◌≡◌, [], ◌<◌, ◌≤◌, ◌&&◌, length, IfOk, OnOk};
ghost use Rattle.cull_base.specs.Rectangle.{meets};
ghost use Rattle.binning.specs.Bins.{bin_rect_of};
ghost use Rattle.binning.specs.Cut.{bin_count_of};
ghost use Rattle.binning.specs.Rooms.{ChangedEach, IsAround, RoomOf, emptied, filled, offered, room};

use crate::bins::bin_rect;
use crate::cut::Cut;
use cull_base::{FrameList, Memory, Rect, Size};
use std::alloc::Global;
use std::marker::Model;

/// For one bin, of one batch at a time, the indices of the pieces that meet it.
#[derive(Drop)]
pub struct BinRoom {
    rect: Rect,
    indices: Vec<u32>,
}

impl Model for BinRoom {
    ghost Value = { RoomOf };

    ghost view = { λ r. record { rect = r.rect; indices = r.indices.items } };
}

impl BinRoom {
    /// A bin's room, empty, with memory for so many indices. Err if out of memory. Condition: the bin is below the
    /// bins.
    pub fn of(alloc: Global, size: Size, cut: &Cut, bin: u32, most: u32) -> Result<BinRoom, Memory>
        requires { bin < bin_count_of cut.now }
        ensures { IfOk result (λ r. r ≡ room (bin_rect_of size cut.now bin) []) }
    {
        match Vec::with_capacity(alloc, most as usize) {
            Ok(indices) => Ok(BinRoom {
                rect: bin_rect(size, cut, bin),
                indices,
            }),
            Err(_) => Err(Memory),
        }
    }

    /// The pixels of its bin's tiles.
    #[inline(always)]
    pub(crate) fn rect(&self) -> &Rect
        ensures { result.now ≡ self.now.rect }
    {
        &self.rect
    }

    /// The indices in the frame list, rising.
    pub fn indices(&self) -> &[u32]
        ensures { result.now ≡ self.now.indices }
    {
        self.indices.as_slice()
    }

    fn empty(&mut self)
        ensures { self.new ≡ emptied self.old }
    {
        self.indices.clear();
    }

    // Appends an index where its piece's box meets the bin.
    #[inline(always)]
    fn offer(&mut self, boxed: &Rect, index: u32) -> Result<(), Memory>
        ensures { OnOk result (self.new ≡ offered boxed.now index self.old) }
    {
        if boxed.meets(&self.rect) {
            self.indices.push(index).map_err(|_| Memory)?;
        }
        Ok(())
    }
}

fn empty_all(rooms: &mut [BinRoom])
    ensures { ChangedEach emptied rooms.old rooms.new }
{
    for j in 0..rooms.len() {
        rooms[j].empty();
    }
}

// Appends an index to the rooms of the bins that its piece's box meets.
#[inline(always)]
fn offer_to_all(rooms: &mut [BinRoom], boxed: &Rect, index: u32) -> Result<(), Memory>
    ensures { OnOk result (ChangedEach (offered boxed.now index) rooms.old rooms.new) }
{
    for j in 0..rooms.len() {
        rooms[j].offer(boxed, index)?;
    }
    Ok(())
}

// The same: a box that misses the rectangle around all bins needn't be offered.
#[inline(always)]
fn offer_near(rooms: &mut [BinRoom], around: &Rect, boxed: &Rect, index: u32) -> Result<(), Memory>
    requires { IsAround around.now rooms.old }
    ensures { OnOk result (ChangedEach (offered boxed.now index) rooms.old rooms.new) }
{
    if boxed.meets(around) {
        offer_to_all(rooms, boxed, index)?;
    }
    Ok(())
}

/// Puts into each room its bin's part of a batch in place of what it had: the indices from one to before another whose
/// piece's box meets the bin's rectangle, rising. Conditions: from is at most to, and to at most the length; a box that
/// meets a bin meets the rectangle around them. Err if out of memory, which it isn't where the rooms have memory
/// for the batch.
pub fn bin_into(
    rooms: &mut [BinRoom],
    around: &Rect,
    list: &FrameList,
    from: u32,
    to: u32,
) -> Result<(), Memory>
    requires order { from ≤ to }
    requires within { to ≤ length list.now.list.members }
    requires around { IsAround around.now rooms.old }
    ensures { OnOk result (ChangedEach (filled list.now.list.members from to) rooms.old rooms.new) }
{
    empty_all(rooms);
    for index in from..to {
        offer_near(rooms, around, &list.get(index).boxed(), index)?;
    }
    Ok(())
}
