//! The cells of all tiles.
ghost use Rattle.std.specs.Prelude.{◌≡◌, ◌<◌, ◌≤◌, [], map, length, vec_capacity};
ghost use Rattle.tile_cells.specs.Cells.{IsAt};

use crate::rule::Cell;
use masked_update::TileState;
use std::alloc::Global;
use std::marker::Model;

// So many tiles are worth a thread's start.
const SHARE: usize = 512;

/// By how many threads so many tiles are gone through: by no more than there are workers, and each has tiles enough.
/// Where it is less than two, the caller does it.
pub(crate) fn threads_for(tiles: usize, workers: u32) -> usize {
    (tiles / SHARE).min(workers as usize)
}

/// One cell for each tile of a screen, and room for the tiles that the cells hold when they are closed.
#[derive(Drop)]
pub struct TileCells {
    cells: Vec<Cell>,
    room: Vec<TileState>,
}

impl Model for TileCells {
    ghost use Rattle.std.specs.Prelude.{map, List};
    ghost use Rattle.atomic_table.specs.Seated.{TableId};

    ghost Value = { List TableId };

    ghost view = { λ s. map (λ c. c.table.shared.table_id) s.cells.items };

    ghost use Rattle.std.specs.Prelude.{◌≡◌, ◌≤◌, [], length, vec_capacity};

    ghost invariant = { λ s. (s.room.items ≡ []) × (length s.cells.items ≤ vec_capacity s.room) };
}

impl TileCells {
    /// Condition: there is room for a tile of each cell.
    pub(crate) fn of(cells: Vec<Cell>, room: Vec<TileState>) -> TileCells
        requires { (room.items ≡ []) × (length cells.items ≤ vec_capacity room) }
        ensures { result ≡ map (λ c. c.table.shared.table_id) cells.items }
    {
        TileCells { cells, room }
    }

    /// No cells, for tiles that nobody reads while they are drawn.
    pub fn none(alloc: Global) -> TileCells
        ensures { result ≡ [] }
    {
        TileCells::of(Vec::new(alloc), Vec::new(alloc))
    }

    /// The cell of a tile. Condition: there is one.
    #[inline(always)]
    pub(crate) fn cell(&self, tile: u32) -> &Cell
        requires { tile < length self.now }
        ensures { IsAt self.now tile result.now.table.shared.table_id }
    {
        &self.cells[tile as usize]
    }

    /// The cells, and the empty room.
    pub(crate) fn into_parts(self) -> (Vec<Cell>, Vec<TileState>)
        ensures cells { self ≡ map (λ c. c.table.shared.table_id) result.0.items }
        ensures room { (result.1.items ≡ []) × (length self ≤ vec_capacity result.1) }
    {
        let TileCells { cells, room } = self;
        (cells, room)
    }
}
