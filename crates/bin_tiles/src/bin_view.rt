//! Tiles that lie in their bins, each found by a table.
ghost use Rattle.std.specs.Prelude.{◌≡◌, ◌<◌, ℕ, true, length, IfOk};
ghost use Rattle.cull_base.specs.Screen.{tile_count_of};
ghost use Rattle.cull_base.specs.Span.{has_tile};
ghost use Rattle.cull_base.specs.Tiles.{tile_after};
ghost use Rattle.bin_tiles.specs.Bins.{AreBinsAt};
ghost use Rattle.bin_tiles.specs.BinViews.{AreSpots, holds_in, table_of, tile_in_bins};
ghost use Rattle.bin_tiles.specs.Plain.{StandsPlain};

use binning::{Cut, bin_of_tile};
use cull_base::{FrameList, Memory, Size, Tile, TileSpan};
use masked_update::{Canvas, TileState, TileView};
use std::alloc::Global;
use std::marker::Model;

/// Where a tile lies: in which bin, and where on the screen.
#[derive(Clone, Copy)]
pub struct Spot {
    bin: u32,
    place: Tile,
}

/// Where each tile of a cut screen lies: the same for all frames of a size and a cut.
#[derive(Drop)]
pub struct BinTable {
    size: Size,
    cut: Cut,
    spots: Vec<Spot>,
}

impl Model for BinTable {
    ghost use Rattle.bin_tiles.specs.BinViews.{AreSpots, TableOf, table_of};

    ghost Value = { TableOf };

    ghost view = { λ t. table_of t.size t.cut };

    ghost invariant = { λ t. AreSpots t.size t.cut t.spots.items };
}

// Whether a span has the tile at a place.
fn is_in(span: &TileSpan, place: Tile) -> bool
    ensures { result ≡ has_tile span.now place }
{
    let (column, row) = (u32::from(place.column), u32::from(place.row));
    span.first_column <= column
        && column < span.end_column
        && span.first_row <= row
        && row < span.end_row
}

// Where each tile lies, in tile order.
fn spots_of(alloc: Global, size: Size, cut: &Cut) -> Result<Vec<Spot>, Memory>
    ensures { IfOk result (λ v. AreSpots size cut.now v.items) }
{
    let count = size.tile_count();
    let mut spots = Vec::with_capacity(alloc, count as usize).map_err(|_| Memory)?;
    for tile in 0..count {
        let bin = bin_of_tile(size, cut, tile);
        let place = size.tile_at(tile);
        spots.push_reserved(Spot { bin, place });
    }
    Ok(spots)
}

impl BinTable {
    /// The table of a size and a cut. Err where memory gave out.
    pub fn of(alloc: Global, size: Size, cut: &Cut) -> Result<BinTable, Memory>
        ensures { IfOk result (λ t. t ≡ table_of size cut.now) }
    {
        let spots = spots_of(alloc, size, cut)?;
        let cut = *cut;
        Ok(BinTable { size, cut, spots })
    }
}

/// The tiles of a frame's bins, by their places on the screen.
#[derive(Clone, Copy)]
pub struct BinView<'a> {
    table: &'a BinTable,
    bins: &'a [Canvas],
}

impl<'a> BinView<'a> {
    /// A view of the bins of a frame that is drawn. It holds every tile, and each has the states after the whole list.
    /// Conditions: the table is of the list's size, and the bins are those of its cut.
    pub fn of(table: &'a BinTable, bins: &'a [Canvas], list: &FrameList) -> BinView<'a>
        requires size { table.now.size ≡ list.now.list.size }
        requires drawn { let drawn = length list.now.list.members in
            AreBinsAt StandsPlain (tt {0}) list.now.list table.now.cut drawn bins.now }
        ensures holds { (t : ℕ) → t < tile_count_of list.now.list.size
            → holds_in result.table.now result.bins.now t ≡ true }
        ensures states { (t : ℕ) → t < tile_count_of list.now.list.size
            → (tile_in_bins result.table.now result.bins.now t).subs
            ≡ tile_after list.now.list.size t list.now.list.members }
    {
        // accessors tell what is held of a size, of a cut and of a list
        let (_width, _columns, _len) = (list.size().width(), table.cut.columns(), list.len());
        BinView { table, bins }
    }
}

impl<'a> TileView for BinView<'a> {
    ghost use Rattle.bin_tiles.specs.BinViews.{holds_in, tile_in_bins};

    ghost held = { λ v t. holds_in v.table.now v.bins.now t };

    ghost tile_of = { λ v t. tile_in_bins v.table.now v.bins.now t };

    fn holds(&self, tile: u32) -> bool {
        let table = self.table;
        if tile as usize >= table.spots.len() {
            return false;
        }
        let spot = table.spots[tile as usize];
        (spot.bin as usize) < self.bins.len()
            && is_in(&self.bins[spot.bin as usize].window(), spot.place)
    }

    fn state(&self, tile: u32) -> TileState {
        let table = self.table;
        let spot = table.spots[tile as usize];
        self.bins[spot.bin as usize].tile(spot.place)
    }

    #[inline(always)]
    fn least_reference(&self, tile: u32) -> u32 {
        let table = self.table;
        let spot = table.spots[tile as usize];
        self.bins[spot.bin as usize]
            .tile(spot.place)
            .least_reference()
    }
}
