//! All bins drawn by one worker: batch by batch, and each batch's parts bin by bin.
ghost use Rattle.std.specs.Prelude.{◌≡◌, ◌≤◌, ◌<◌, ◌+◌, length, IfOk, OnOk};
ghost use Rattle.binning.specs.Cut.{bin_count_of};
ghost use Rattle.binning.specs.Rooms.{IsAround};
ghost use Rattle.cull_base.specs.Tiles.{PieceList};
ghost use Rattle.bin_tiles.specs.Bins.{AreBinsAt, AreRoomsOf, HavePlaces, HaveTaken};

use crate::gate::Gate;
use crate::keeper::Keeper;
use crate::part::draw_part;
use crate::screen::Screen;
use binning::{BinRoom, Cut, batch_count, bin_into, rect_around};
use cull_base::{FrameList, Memory, Rect};
use std::alloc::Global;

// Rooms for the parts of all bins, with memory for a batch of a size.
fn make_rooms(alloc: Global, list: &FrameList, cut: &Cut, size: u32) -> Result<Vec<BinRoom>, Memory>
    ensures { IfOk result (λ v. AreRoomsOf list.now.list.size cut.now v.items) }
{
    let count = cut.bins();
    let most = size.min(list.len());
    let mut rooms = Vec::with_capacity(alloc, count as usize).map_err(|_| Memory)?;
    for bin in 0..count {
        let room = BinRoom::of(alloc, list.size(), cut, bin, most)?;
        rooms.push_reserved(room);
    }
    Ok(rooms)
}

// For each bin that it has drawn none.
fn none_taken(alloc: Global, cut: &Cut) -> Result<Vec<u32>, Memory>
    ensures { IfOk result (λ v. (list : PieceList) → HaveTaken list cut.now 0 v.items) }
{
    let count = cut.bins();
    let taken = vec![in alloc; 0u32; count as usize].map_err(|_| Memory)?;
    Ok(taken)
}

// Draws the parts of a batch into the tiles of their bins.
fn draw_parts<B, K: Keeper<B>, G: Gate>(
    bins: &mut [K],
    taken: &mut [u32],
    screen: &Screen<B, G>,
    rooms: &[BinRoom],
    from: u32,
    to: u32,
)
    requires order { from ≤ to }
    requires within { to ≤ length screen.now.list.now.list.members }
    requires count { length rooms.now ≡ length bins.old }
    requires places { let s = screen.now in HavePlaces s.list.now.list s.cut.now from to rooms.now }
    requires taken { let s = screen.now in HaveTaken s.list.now.list s.cut.now from taken.old }
    requires bins { let s = screen.now in
        AreBinsAt K.stands s.beside.now s.list.now.list s.cut.now from bins.old }
    ensures taken { let s = screen.now in HaveTaken s.list.now.list s.cut.now to taken.new }
    ensures bins { let s = screen.now in
        AreBinsAt K.stands s.beside.now s.list.now.list s.cut.now to bins.new }
{
    let _bins = screen.cut.bins();
    for bin in 0..bins.len() {
        let indices = rooms[bin].indices();
        taken[bin] = draw_part(
            &mut bins[bin],
            screen,
            bin as u32,
            indices,
            from,
            to,
            taken[bin],
        );
    }
}

// Bins a batch and draws its parts.
fn draw_batch<B, K: Keeper<B>, G: Gate>(
    bins: &mut [K],
    taken: &mut [u32],
    screen: &Screen<B, G>,
    rooms: &mut [BinRoom],
    around: &Rect,
    from: u32,
    to: u32,
) -> Result<(), Memory>
    requires order { from ≤ to }
    requires within { to ≤ length screen.now.list.now.list.members }
    requires rooms { AreRoomsOf screen.now.list.now.list.size screen.now.cut.now rooms.old }
    requires around { IsAround around.now rooms.old }
    requires taken { let s = screen.now in HaveTaken s.list.now.list s.cut.now from taken.old }
    requires bins { let s = screen.now in
        AreBinsAt K.stands s.beside.now s.list.now.list s.cut.now from bins.old }
    ensures rooms { let s = screen.now in
        OnOk result (AreRoomsOf s.list.now.list.size s.cut.now rooms.new) }
    ensures around { OnOk result (IsAround around.now rooms.new) }
    ensures taken { let s = screen.now in
        OnOk result (HaveTaken s.list.now.list s.cut.now to taken.new) }
    ensures bins { let s = screen.now in
        OnOk result (AreBinsAt K.stands s.beside.now s.list.now.list s.cut.now to bins.new) }
{
    bin_into(rooms, around, screen.list, from, to)?;
    draw_parts(bins, taken, screen, rooms, from, to);
    Ok(())
}

// Draws all batches of a size, with these rooms.
fn draw_in_rooms<B, K: Keeper<B>, G: Gate>(
    bins: &mut [K],
    taken: &mut [u32],
    screen: &Screen<B, G>,
    rooms: &mut [BinRoom],
    size: u32,
) -> Result<(), Memory>
    requires size { 1 ≤ size }
    requires rooms { AreRoomsOf screen.now.list.now.list.size screen.now.cut.now rooms.old }
    requires taken { let s = screen.now in HaveTaken s.list.now.list s.cut.now 0 taken.old }
    requires bins { let s = screen.now in
        AreBinsAt K.stands s.beside.now s.list.now.list s.cut.now 0 bins.old }
    ensures { let s = screen.now in let drawn = length s.list.now.list.members in
        OnOk result (AreBinsAt K.stands s.beside.now s.list.now.list s.cut.now drawn bins.new) }
{
    let len = screen.list.len();
    let around = rect_around(rooms);
    let mut from = 0u32;
    for batch in 0..batch_count(len, size) {
        let to = len.min(from.saturating_add(size));
        screen.gate.submits(batch);
        draw_batch(bins, taken, screen, rooms, &around, from, to)?;
        from = to;
    }
    Ok(())
}

/// Draws all batches of a size into the tiles of all bins, one batch after another. The gate is asked before each batch
/// is binned. Err where memory gave out. Conditions: a batch has at least one piece, and no member is drawn.
pub fn draw_batches<B, K: Keeper<B>, G: Gate>(
    alloc: Global,
    bins: &mut [K],
    screen: &Screen<B, G>,
    size: u32,
) -> Result<(), Memory>
    requires size { 1 ≤ size }
    requires bins { let s = screen.now in
        AreBinsAt K.stands s.beside.now s.list.now.list s.cut.now 0 bins.old }
    ensures { let s = screen.now in let drawn = length s.list.now.list.members in
        OnOk result (AreBinsAt K.stands s.beside.now s.list.now.list s.cut.now drawn bins.new) }
{
    let mut rooms = make_rooms(alloc, screen.list, screen.cut, size)?;
    let mut taken = none_taken(alloc, screen.cut)?;
    let (rooms, taken) = (rooms.as_mut_slice(), taken.as_mut_slice());
    draw_in_rooms(bins, taken, screen, rooms, size)
}
