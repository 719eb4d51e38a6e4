//! The writers of all tiles, each in the slot of its tile: bins take those of their tiles, and put them back.
ghost use Rattle.std.specs.Prelude.{◌≡◌, ◌≤◌, ◌<◌, ◌+◌, ℕ, [], None, Some, All, length, map, slice_set, slice_index_or};
ghost use Rattle.std.specs.Prelude.{vec_capacity, IfOk, IsSome, OnOk};
ghost use Rattle.cull_base.specs.Screen.{tile_count_of};
ghost use Rattle.cull_base.specs.Span.{IsSpan, tiles_in};
ghost use Rattle.tile_queues.specs.CellBins.{tile_numbered, HoldsBin};
ghost use Rattle.tile_queues.specs.Owners.{AreLeft, ArePut};
ghost use Rattle.tile_cells.specs.Cells.{Writing};

use crate::cell_bin::CellBin;
use bin_queues::Intake;
use binning::bin_span;
use cull_base::{FrameList, Memory, Size, TileSpan};
use std::alloc::Global;
use tile_cells::TileWriter;

/// The slots of writers that come in tile order. Err where memory gave out.
pub(crate) fn into_slots(
    alloc: Global,
    writers: Vec<TileWriter>,
) -> Result<Vec<Option<TileWriter>>, Memory>
    ensures { IfOk result (λ v. v.items ≡ map (λ w. Some w) writers.items) }
{
    let mut slots = Vec::with_capacity(alloc, writers.len()).map_err(|_| Memory)?;
    for writer in writers {
        slots.push_reserved(Some(writer));
    }
    Ok(slots)
}

// The writer in a slot, which is left empty. Condition: there is one.
fn take_writer(slots: &mut [Option<TileWriter>], tile: usize) -> TileWriter
    requires within { tile < length slots.old }
    requires full { IsSome (slice_index_or slots.old tile None) }
    ensures taken { slice_index_or slots.old tile None ≡ Some result }
    ensures left { slots.new ≡ slice_set slots.old tile None }
{
    slots[tile].take().unwrap()
}

// The screen's tile at a number of a window.
fn tile_at_number(size: Size, window: TileSpan, number: usize) -> usize
    requires window { IsSpan size window }
    requires number { number < tiles_in window }
    ensures value { result ≡ tile_numbered size window number }
    ensures within { result < tile_count_of size }
{
    // an accessor tells how many tiles there may be
    let _count = size.tile_count();
    let columns = window.columns() as usize;
    let row = window.first_row as usize + number / columns;
    let column = window.first_column as usize + number % columns;
    row * size.tile_columns() as usize + column
}

/// The writers of the tiles of a task's bin. Err where memory gave out. Conditions: the task drew no batch, and the
/// slots of the tiles of its bin, and of the bins behind it, are full.
pub(crate) fn take_bin(
    alloc: Global,
    slots: &mut [Option<TileWriter>],
    intake: &Intake,
    list: &FrameList,
) -> Result<CellBin, Memory>
    requires list { intake.now.of.frame.list ≡ list.now.list }
    requires first { intake.now.batches ≡ 0 }
    requires whole { length slots.old ≡ tile_count_of intake.now.of.frame.list.size }
    requires left { AreLeft intake.now.of.frame intake.now.of.bin 0 slots.old }
    ensures whole { length slots.new ≡ length slots.old }
    ensures left { OnOk result (AreLeft intake.now.of.frame (intake.now.of.bin + 1) 0 slots.new) }
    ensures bin { IfOk result (λ v. HoldsBin intake.now v) }
{
    let size = list.size();
    // accessors tell what is held of a size and of a cut
    let (_width, _columns) = (size.width(), intake.cut().columns());
    let window = bin_span(size, intake.cut(), intake.bin());
    let count = window.columns() as usize * window.rows() as usize;
    let mut writers = Vec::with_capacity(alloc, count).map_err(|_| Memory)?;
    for number in 0..count {
        let tile = tile_at_number(size, window, number);
        writers.push_reserved(take_writer(slots, tile));
    }
    Ok(CellBin { window, writers })
}

/// Puts writers into the slots of their tiles. Condition: there is a slot for each.
pub(crate) fn put_writers(slots: &mut [Option<TileWriter>], writers: Vec<TileWriter>)
    requires { All (λ w. w.tile < length slots.old) writers.items }
    ensures { ArePut writers.items (length writers.items) slots.old slots.new }
{
    let mut done = 0usize;
    for writer in writers {
        let tile = writer.tile();
        slots[tile as usize] = Some(writer);
        done += 1;
    }
}

/// The writers of all slots, in tile order. Conditions: each slot has one, and there is room.
pub(crate) fn empty_slots(
    slots: &mut [Option<TileWriter>],
    mut room: Vec<TileWriter>,
) -> Vec<TileWriter>
    requires room { (room.items ≡ []) × (length slots.old ≤ vec_capacity room) }
    requires full { (t : ℕ) → t < length slots.old → IsSome (slice_index_or slots.old t None) }
    ensures whole { length result.items ≡ length slots.old }
    ensures each { (t : ℕ) (d : Writing) → t < length slots.old
        → slice_index_or slots.old t None ≡ Some (slice_index_or result.items t d) }
{
    for tile in 0..slots.len() {
        room.push_reserved(take_writer(slots, tile));
    }
    room
}
