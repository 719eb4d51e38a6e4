//! What a writer tells of its tile.
ghost use Rattle.std.specs.Prelude.{◌≡◌, []};
ghost use Rattle.crossbeam_utils.specs.Seq.{cell_view};
ghost use Rattle.tile_cells.specs.Cells.{Noted};
ghost use Rattle.tile_cells.specs.Passes.{IsNote, list_at};
ghost use Rattle.tile_cells.specs.Rule.{reader};

use crate::rule::CellPass;
use std::marker::Model;

/// How many members of its tile's list a writer had stored. A reader that learns of it reads no shorter prefix.
#[derive(Drop)]
pub struct Note {
    pass: CellPass,
    tile: u32,
    count: u32,
}

impl Model for Note {
    ghost Value = { Noted };

    ghost view = { λ s. record { cell = s.pass.table_id; list = list_at s.pass; tile = s.tile; count = s.count } };

    ghost invariant = { λ s. IsNote s.tile s.count s.pass };
}

impl Note {
    /// Condition: the pass has seen so many members of the tile's list.
    pub(crate) fn of(pass: CellPass, tile: u32, count: u32) -> Note
        requires joinable { pass.me.1 ≡ [] }
        requires told { cell_view pass ≡ reader (list_at pass) tile count 0 }
        ensures { result ≡ record { cell = pass.table_id; list = list_at pass; tile = tile; count = count } }
    {
        Note { pass, tile, count }
    }

    /// The tile's number.
    pub fn tile(&self) -> u32
        ensures { result ≡ self.now.tile }
    {
        self.tile
    }

    /// How many members were stored.
    pub fn count(&self) -> u32
        ensures { result ≡ self.now.count }
    {
        self.count
    }

    /// Its pass.
    pub(crate) fn into_pass(self) -> CellPass
        ensures cell { result.table_id ≡ self.cell }
        ensures joinable { result.me.1 ≡ [] }
        ensures told { cell_view result ≡ reader self.list self.tile self.count 0 }
    {
        self.pass
    }
}
