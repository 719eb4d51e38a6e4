//! The writer of a tile's cell.
ghost use Rattle.std.specs.Prelude.{◌≡◌, ℕ, ◌+◌, ◌<◌, ◌≤◌, [], max, length};
ghost use Rattle.crossbeam_utils.specs.Seq.{cell_view};
ghost use Rattle.cull_base.specs.Screen.{tile_count_of, tile_place};
ghost use Rattle.masked_update.specs.Forms.{IsFormOn, piece_of_form};
ghost use Rattle.masked_update.specs.Taken.{IsMember, standing_at};
ghost use Rattle.masked_update.specs.TileOf.{sub_at};
ghost use Rattle.tile_cells.specs.Cells.{IsAt, Writing, first_at, note_of};
ghost use Rattle.tile_cells.specs.Passes.{IsWriting, Reads, heard_at, list_at, number_at, writing};
ghost use Rattle.tile_cells.specs.Rule.{reader, writer};

use crate::cells::TileCells;
use crate::note::Note;
use crate::rule::{Cell, CellPass};
use crate::steps;
use crate::words::{tile_of, words_of};
use cull_base::{FrameList, ScreenTri, Size, Tile};
use masked_update::{PieceForm, TileState};
use std::marker::Model;
use std::sync::Wait;

/// Draws the members of a tile's list into the tile's cell. Beside its pass it keeps the tile that it stored last, or
/// took from its cell at the close, so that it doesn't read its cell to draw.
#[derive(Drop)]
pub struct TileWriter {
    pass: CellPass,
    tile: u32,
    place: Tile,
    size: Size,
    state: TileState,
}

impl Model for TileWriter {
    ghost Value = { Writing };

    ghost view = { λ s. writing s.tile s.pass };

    ghost invariant = { λ s. IsWriting s.tile s.place s.size s.state s.pass };
}

impl TileWriter {
    /// The writer of a cell that is named after a tile of a list, before the first member.
    pub(crate) fn first(pass: CellPass, list: &FrameList, tile: u32) -> TileWriter
        requires tile { tile < tile_count_of list.now.list.size }
        requires new { cell_view pass ≡ writer list.now.list tile 0 0 }
        ensures { result ≡ first_at pass.table_id list.now.list tile }
    {
        // an accessor tells how long a list may be
        let _length = list.len();
        let size = list.size();
        TileWriter {
            pass,
            tile,
            place: size.tile_at(tile),
            size,
            state: TileState::empty(),
        }
    }

    /// The tile's number.
    pub fn tile(&self) -> u32
        ensures { result ≡ self.now.tile }
    {
        self.tile
    }

    /// How many members of the tile's list are stored in the cell.
    pub fn count(&self) -> u32
        ensures { result ≡ self.now.count }
    {
        self.state.count()
    }

    /// Stores, in one step, the tile after one member more. Conditions: the writer is of these cells, and the piece is
    /// the next member of the tile's list.
    pub fn take_next<R: Wait>(&mut self, rt: &R, cells: &TileCells, tri: &ScreenTri)
        requires of { IsAt cells.now self.old.tile self.old.cell }
        requires next { IsMember self.old.tile self.old.count self.old.list tri.now }
        ensures { self.new ≡ record self.old { count = self.old.count + 1 } }
    {
        self.take_form(rt, cells, PieceForm::Bare(tri));
    }

    /// As `take_next`, of a piece in any form. Conditions: what the form says is reached is of the list's screen and
    /// has each sample that the piece covers, of a whole form it is the box's, and the edges of a form for one row are
    /// the piece's own, over the tile's row.
    pub fn take_form<R: Wait>(&mut self, rt: &R, cells: &TileCells, form: PieceForm)
        requires of { IsAt cells.now self.old.tile self.old.cell }
        requires form { let w = self.old in IsFormOn w.list.size (tile_place w.list.size w.tile).row form }
        requires next { IsMember self.old.tile self.old.count self.old.list (piece_of_form form) }
        ensures { self.new ≡ record self.old { count = self.old.count + 1 } }
    {
        self.state.take_form(form, self.size, self.place);
        let words = words_of(&self.state);
        steps::store(rt, cells.cell(self.tile), &mut self.pass, words);
    }

    /// A nearness that no reference of the tile is below.
    pub fn least_reference(&self) -> u32
        ensures { (j : ℕ) → j < 8
            → result ≤ (sub_at (standing_at self.now.tile self.now.count self.now.list) j).reference }
    {
        self.state.least_reference()
    }

    /// A pass for a reader.
    pub(crate) fn tell(&mut self, cells: &TileCells) -> CellPass
        requires { IsAt cells.now self.old.tile self.old.cell }
        ensures same { self.new ≡ self.old }
        ensures joinable { (result.table_id ≡ self.old.cell) × (result.me.1 ≡ []) }
        ensures told { cell_view result ≡ reader self.old.list self.old.tile self.old.count 0 }
    {
        steps::tell(cells.cell(self.tile), &mut self.pass)
    }

    /// A note of how many members are stored. Condition: the writer is of these cells.
    pub fn note<R: Wait>(&mut self, _rt: &R, cells: &TileCells) -> Note
        requires { IsAt cells.now self.old.tile self.old.cell }
        ensures same { self.new ≡ self.old }
        ensures noted { result ≡ note_of self.old }
    {
        let tile = self.tile;
        let count = self.state.count();
        Note::of(self.tell(cells), tile, count)
    }

    /// Ends a reader's view of the tile in this one.
    pub(crate) fn end(&mut self, cells: &TileCells, pass: CellPass)
        requires of { IsAt cells.now self.old.tile self.old.cell }
        requires reads { (pass.table_id ≡ self.old.cell) × Reads self.old.list self.old.tile pass }
        ensures { self.new ≡ record self.old { heard = max self.old.heard (number_at pass) } }
    {
        steps::end(cells.cell(self.tile), &mut self.pass, pass);
    }

    /// The tile that its cell holds, read once.
    pub(crate) fn check<R: Wait>(&mut self, rt: &R, cell: &Cell) -> TileState
        requires { self.old.cell ≡ cell.now.table.shared.table_id }
        ensures same { self.new ≡ self.old }
        ensures heard { self.old.heard ≤ self.old.count }
        ensures state { result ≡ standing_at self.old.tile self.old.count self.old.list }
    {
        tile_of(&steps::check(rt, cell, &mut self.pass))
    }

    /// Takes the tile that its cell holds, read once, as its own.
    pub(crate) fn renew<R: Wait>(&mut self, rt: &R, cell: &Cell)
        requires { self.old.cell ≡ cell.now.table.shared.table_id }
        ensures same { self.new ≡ self.old }
        ensures heard { self.old.heard ≤ self.old.count }
    {
        self.state = self.check(rt, cell);
    }

    /// The tile that it stored last, or took from its cell.
    pub(crate) fn state(&self) -> TileState
        ensures { result ≡ standing_at self.now.tile self.now.count self.now.list }
    {
        self.state
    }
}
