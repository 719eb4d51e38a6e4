//! The steps on one cell.
ghost use Rattle.std.specs.Prelude.{◌≡◌, ◌≤◌, [], slice_index, IfOk};
ghost use Rattle.crossbeam_utils.specs.Seq.{IsSamePass, cell_view};
ghost use Rattle.tile_cells.specs.Words.{HoldsAt};
ghost use Rattle.tile_cells.specs.Rule.{nameless, writer, note_of, after_store, after_load, learned, ended};
ghost use Rattle.tile_cells.specs.Rule.{HoldsNext, IsWriter, IsReader, AreOfOne};

use crate::kinds::{Check, End, Learn, Load, Move, Name, Naming, Store, Tell};
use crate::rule::{Cell, CellPass};
use cull_base::FrameList;
use std::alloc::{AllocError, Global};
use std::marker::Brand;
use std::sync::Wait;

/// A cell whose words are 0, and the pass of its one view.
pub(crate) fn opened(alloc: Global) -> Result<(Cell, CellPass), AllocError>
    ensures { IfOk result (λ c. (c.1.table_id ≡ c.0.table.shared.table_id) × (cell_view c.1 ≡ nameless)) }
{
    Cell::ruled(alloc, [0; 13])
}

fn named<B: Naming>(cell: &Cell, pass: &mut CellPass, _list: &FrameList, _tile: u32)
    requires own { pass.old.table_id ≡ cell.now.table.shared.table_id }
    requires nameless { cell_view pass.old ≡ nameless }
    ensures own { IsSamePass pass.old pass.new }
    ensures named { cell_view pass.new ≡ writer B.list B.tile 0 0 }
{
    cell.split_pass::<Name<B>>(pass);
}

/// Names a new cell after a tile of a list. The pass is now its writer's.
pub(crate) fn name(cell: &Cell, pass: &mut CellPass, list: &FrameList, tile: u32)
    requires own { pass.old.table_id ≡ cell.now.table.shared.table_id }
    requires nameless { cell_view pass.old ≡ nameless }
    ensures own { IsSamePass pass.old pass.new }
    ensures named { cell_view pass.new ≡ writer list.now.list tile 0 0 }
{
    named::<Brand>(cell, pass, list, tile);
}

/// A pass for a reader, or a note, that has seen as many members as the writer took.
pub(crate) fn tell(cell: &Cell, pass: &mut CellPass) -> CellPass
    requires own { pass.old.table_id ≡ cell.now.table.shared.table_id }
    requires writes { IsWriter (cell_view pass.old) }
    ensures own { IsSamePass pass.old pass.new × (cell_view pass.new ≡ cell_view pass.old) }
    ensures joinable { (result.table_id ≡ pass.old.table_id) × (result.me.1 ≡ []) }
    ensures told { cell_view result ≡ note_of (cell_view pass.old) }
{
    cell.split_pass::<Tell>(pass)
}

/// Stores all thirteen words at once. Condition: they are those after one member more.
pub(crate) fn store<R: Wait>(rt: &R, cell: &Cell, pass: &mut CellPass, words: [u64; 13])
    requires own { pass.old.table_id ≡ cell.now.table.shared.table_id }
    requires writes { IsWriter (cell_view pass.old) }
    requires next { HoldsNext words (cell_view pass.old) }
    ensures own { IsSamePass pass.old pass.new }
    ensures stored { cell_view pass.new ≡ after_store (cell_view pass.old) }
{
    cell.swap_as::<Store, R>(rt, pass, words);
}

/// All thirteen words at one moment, seen by a reader.
pub(crate) fn load<R: Wait>(rt: &R, cell: &Cell, pass: &mut CellPass) -> [u64; 13]
    requires own { pass.old.table_id ≡ cell.now.table.shared.table_id }
    requires reads { IsReader (cell_view pass.old) }
    ensures own { IsSamePass pass.old pass.new }
    ensures seen { cell_view pass.new ≡ after_load (cell_view pass.old) (slice_index result 0) }
    ensures rises { (cell_view pass.old).number ≤ slice_index result 0 }
    ensures holds { HoldsAt result (cell_view pass.old).tile (slice_index result 0) (cell_view pass.old).list }
{
    cell.load_as::<Load, R>(rt, pass)
}

/// All thirteen words, seen by the writer.
pub(crate) fn check<R: Wait>(rt: &R, cell: &Cell, pass: &mut CellPass) -> [u64; 13]
    requires own { pass.old.table_id ≡ cell.now.table.shared.table_id }
    requires writes { IsWriter (cell_view pass.old) }
    ensures own { IsSamePass pass.old pass.new × (cell_view pass.new ≡ cell_view pass.old) }
    ensures heard { (cell_view pass.old).heard ≤ (cell_view pass.old).number }
    ensures holds { HoldsAt result (cell_view pass.old).tile (cell_view pass.old).number (cell_view pass.old).list }
{
    cell.load_as::<Check, R>(rt, pass)
}

/// Takes a note into a reader's view.
pub(crate) fn learn(cell: &Cell, pass: &mut CellPass, note: CellPass)
    requires own { pass.old.table_id ≡ cell.now.table.shared.table_id }
    requires note { (note.table_id ≡ cell.now.table.shared.table_id) × (note.me.1 ≡ []) }
    requires reads { IsReader (cell_view pass.old) × IsReader (cell_view note) }
    requires same { AreOfOne (cell_view note) (cell_view pass.old) }
    ensures own { IsSamePass pass.old pass.new }
    ensures learned { cell_view pass.new ≡ learned (cell_view pass.old) (cell_view note) }
{
    cell.join_pass::<Learn>(pass, note);
}

/// Ends a reader's view in the writer's.
pub(crate) fn end(cell: &Cell, pass: &mut CellPass, mut reader: CellPass)
    requires own { pass.old.table_id ≡ cell.now.table.shared.table_id }
    requires reader { reader.table_id ≡ cell.now.table.shared.table_id }
    requires roles { IsWriter (cell_view pass.old) × IsReader (cell_view reader) }
    requires same { AreOfOne (cell_view reader) (cell_view pass.old) }
    ensures own { IsSamePass pass.old pass.new }
    ensures ended { cell_view pass.new ≡ ended (cell_view pass.old) (cell_view reader) }
{
    let fresh = cell.split_pass::<Move>(&mut reader);
    cell.join_pass::<End>(pass, fresh);
}
