//! What a reader saw of the tiles of an area.
ghost use Rattle.std.specs.Prelude.{◌≡◌, ℕ, ◌<◌, true, false, length, slice_set, IfOk};
ghost use Rattle.cull_base.specs.Screen.{tile_count_of};
ghost use Rattle.cull_base.specs.Span.{HasTilesOf, IsSpan, has_tile};
ghost use Rattle.masked_update.specs.TileOf.{tile_at};
ghost use Rattle.tile_cells.specs.Snapshots.{SnapshotOf, is_held};

use cull_base::{Memory, Rect, Size, Tile, TileSpan};
use masked_update::{TileState, TileView};
use std::alloc::Global;
use std::marker::Model;

/// No tile.
const NO_TILES: TileSpan = TileSpan {
    first_column: 0,
    end_column: 0,
    first_row: 0,
    end_row: 0,
};

/// The tiles that meet an area, each as it was when it was read. There is a slot for each tile of the screen, and those
/// of the span are held.
#[derive(Drop)]
pub struct Snapshot {
    size: Size,
    span: TileSpan,
    tiles: Vec<TileState>,
}

impl Model for Snapshot {
    ghost Value = { SnapshotOf };

    ghost view = { λ s. record { size = s.size; span = s.span; tiles = s.tiles.items } };

    ghost invariant = { λ s. (length s.tiles.items ≡ tile_count_of s.size) × IsSpan s.size s.span };
}

impl Snapshot {
    /// A snapshot of a screen of this size, which holds no tile. Err if out of memory, which is taken here and
    /// nowhere later.
    pub fn with_room(alloc: Global, size: Size) -> Result<Snapshot, Memory>
        ensures size { IfOk result (λ s. s.size ≡ size) }
        ensures none { IfOk result (λ s. (t : ℕ) → is_held s t ≡ false) }
    {
        let count = size.tile_count() as usize;
        let tiles = vec![in alloc; TileState::empty(); count].map_err(|_| Memory)?;
        Ok(Snapshot {
            size,
            span: NO_TILES,
            tiles,
        })
    }

    /// The size of its screen.
    pub fn size(&self) -> Size
        ensures { result ≡ self.now.size }
    {
        self.size
    }

    /// The columns and rows of the tiles that it holds.
    pub fn span(&self) -> TileSpan
        ensures value { result ≡ self.now.span }
        ensures within { IsSpan self.now.size result }
    {
        self.span
    }

    /// How many members of a tile's list the tile had taken. Condition: the snapshot holds the tile.
    pub fn count(&self, tile: u32) -> u32
        requires { is_held self.now tile ≡ true }
        ensures { result ≡ (tile_at self.now.tiles tile).count }
    {
        self.tiles[tile as usize].count()
    }

    /// From now on it holds the tiles that meet an area: these.
    pub(crate) fn turn_to(&mut self, area: &Rect) -> TileSpan
        ensures span { self.new ≡ record self.old { span = result } }
        ensures tiles { HasTilesOf result self.old.size area.now }
        ensures within { IsSpan self.old.size result }
    {
        self.span = TileSpan::of(area, self.size);
        self.span
    }

    /// Fills the slot of a tile. Condition: the tile is below the tile count.
    pub(crate) fn put(&mut self, tile: u32, state: TileState)
        requires { tile < tile_count_of self.old.size }
        ensures value { self.new ≡ record self.old { tiles = slice_set self.old.tiles tile state } }
        ensures whole { length self.old.tiles ≡ tile_count_of self.old.size }
    {
        self.tiles[tile as usize] = state;
    }
}

impl TileView for Snapshot {
    ghost use Rattle.masked_update.specs.TileOf.{tile_at};
    ghost use Rattle.tile_cells.specs.Snapshots.{is_held};

    ghost held = { λ s t. is_held s t };

    ghost tile_of = { λ s t. tile_at s.tiles t };

    fn holds(&self, tile: u32) -> bool {
        tile < self.size.tile_count() && self.span.has(self.size.tile_at(tile))
    }

    fn state(&self, tile: u32) -> TileState {
        self.tiles[tile as usize]
    }
}
