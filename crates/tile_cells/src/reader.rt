//! A reader of all tiles' cells.
ghost use Rattle.std.specs.Prelude.{◌≡◌, ◌+◌, ◌<◌, ◌≤◌, max, length, slice_index, slice_set};
ghost use Rattle.cull_base.specs.Screen.{tile_count_of};
ghost use Rattle.cull_base.specs.Tiles.{tile_list};
ghost use Rattle.masked_update.specs.Taken.{standing_at};
ghost use Rattle.tile_cells.specs.Cells.{IsAt, having_read, learnt};
ghost use Rattle.tile_cells.specs.Passes.{AreReading, reading, seen_of};

use crate::cells::TileCells;
use crate::note::Note;
use crate::rule::CellPass;
use crate::steps;
use crate::words::tile_of;
use masked_update::TileState;
use std::marker::Model;
use std::sync::Wait;

/// Reads tiles while their writers draw, and never less of a tile than it had seen.
#[derive(Drop)]
pub struct TileReader {
    passes: Vec<CellPass>,
    seen: Vec<u32>,
}

impl Model for TileReader {
    ghost use Rattle.std.specs.Prelude.{◌≡◌};
    ghost use Rattle.tile_cells.specs.Cells.{Reading};
    ghost use Rattle.tile_cells.specs.Passes.{AreReading, reading, seen_of};

    ghost Value = { Reading };

    ghost view = { λ s. reading s.passes.items };

    ghost invariant = { λ s. AreReading s.passes.items × (s.seen.items ≡ seen_of s.passes.items) };
}

impl TileReader {
    /// Conditions: the passes are a reader's, and these are the numbers that they have seen.
    pub(crate) fn of(passes: Vec<CellPass>, seen: Vec<u32>) -> TileReader
        requires passes { AreReading passes.items }
        requires seen { seen.items ≡ seen_of passes.items }
        ensures { result ≡ reading passes.items }
    {
        TileReader { passes, seen }
    }

    /// Its passes, in tile order.
    pub(crate) fn into_passes(self) -> Vec<CellPass>
        ensures reads { AreReading result.items }
        ensures reading { reading result.items ≡ self }
    {
        let TileReader { passes, seen: _ } = self;
        passes
    }

    /// How many tiles it reads: those of its list's screen, each by a cell.
    pub fn len(&self) -> usize
        ensures value { result ≡ tile_count_of self.now.list.size }
        ensures cells { length self.now.cells ≡ tile_count_of self.now.list.size }
    {
        self.passes.len()
    }

    /// How many members of a tile's list it has seen. Condition: the tile is below the tile count.
    pub fn seen(&self, tile: u32) -> u32
        requires { tile < tile_count_of self.now.list.size }
        ensures { result ≡ slice_index self.now.seen tile }
    {
        self.seen[tile as usize]
    }

    /// From now on it has seen what the note tells. Conditions: the reader and the note are of these cells and of one
    /// list.
    pub fn learn<R: Wait>(&mut self, _rt: &R, cells: &TileCells, note: Note)
        requires of { self.old.cells ≡ cells.now }
        requires note { IsAt cells.now note.tile note.cell × (note.list ≡ self.old.list) }
        ensures { self.new ≡ learnt self.old note }
    {
        let tile = note.tile();
        let count = note.count();
        let seen = &mut self.seen[tile as usize];
        *seen = (*seen).max(count);
        let pass = &mut self.passes[tile as usize];
        steps::learn(cells.cell(tile), pass, note.into_pass());
    }

    /// A tile, read once. Conditions: the reader is of these cells, and the tile is below the tile count.
    pub(crate) fn read<R: Wait>(&mut self, rt: &R, cells: &TileCells, tile: u32) -> TileState
        requires of { self.old.cells ≡ cells.now }
        requires tile { tile < tile_count_of self.old.list.size }
        ensures read { self.new ≡ having_read self.old tile result.count }
        ensures seen { length self.old.seen ≡ tile_count_of self.old.list.size }
        ensures loads { length self.old.loads ≡ tile_count_of self.old.list.size }
        ensures rises { slice_index self.old.seen tile ≤ result.count }
        ensures within { result.count ≤ length (tile_list tile self.old.list) }
        ensures state { result ≡ standing_at tile result.count self.old.list }
    {
        let pass = &mut self.passes[tile as usize];
        let state = tile_of(&steps::load(rt, cells.cell(tile), pass));
        self.seen[tile as usize] = state.count();
        state
    }
}
