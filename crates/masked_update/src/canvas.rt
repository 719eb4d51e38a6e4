//! Tiles of a window that are drawn into, with a table that tells where a piece changes nothing.
ghost use Rattle.std.specs.Prelude.{◌≡◌, ℕ, ◌+◌, ◌<◌, ◌^◌, true, length, IfOk};
ghost use Rattle.std.specs.Int.{bit_at};
ghost use Rattle.cull_base.specs.Screen.{tile_columns_of, tile_rows_of};
ghost use Rattle.cull_base.specs.Span.{has_tile, tiles_in};
ghost use Rattle.cull_base.specs.Tiles.{PieceList};
ghost use Rattle.masked_update.specs.Canvas.{CountsAt, IsCanvas, StandsAt, empty_canvas, with_tile, tile_on};
ghost use Rattle.masked_update.specs.Coverage.{AreWanted};
ghost use Rattle.masked_update.specs.Least.{NoneBelow};
ghost use Rattle.masked_update.specs.Inner.{IsInner};
ghost use Rattle.masked_update.specs.Merged.{AreRowOf};
ghost use Rattle.masked_update.specs.Samples.{HoldsSampled};
ghost use Rattle.masked_update.specs.Taken.{counted_tile, merged_tile};
ghost use Rattle.masked_update.specs.TileOf.{tile_at};

use crate::piece_setup::PieceDepths;
use crate::small_piece::SmallPiece;
use crate::sub_span::SubBox;
use crate::tile_state::TileState;
use cull_base::{Memory, ScreenTri, Size, Tile, TileSpan};
use edge_lanes::TileRow;
use std::alloc::Global;
use std::marker::Model;
use std::simd::prelude::*;

/// The tiles of a window of the screen, row by row. The table has, for each tile, a nearness that none of its
/// references is below.
#[derive(Drop)]
pub struct Canvas {
    window: TileSpan,
    tiles: Vec<TileState>,
    least: Vec<u32>,
}

impl Model for Canvas {
    ghost use Rattle.std.specs.Prelude.{◌≡◌, length};
    ghost use Rattle.cull_base.specs.Span.{tiles_in};
    ghost use Rattle.masked_update.specs.Canvas.{CanvasOf};
    ghost use Rattle.masked_update.specs.Least.{IsLeast};

    ghost Value = { CanvasOf };

    ghost view = { λ c. record { window = c.window; tiles = c.tiles.items } };

    ghost invariant = { λ c. (length c.tiles.items ≡ tiles_in c.window) × IsLeast c.tiles.items c.least.items };
}

impl Canvas {
    /// The tiles of the window, empty. Err if out of memory.
    pub fn empty(alloc: Global, window: TileSpan) -> Result<Canvas, Memory>
        ensures value { IfOk result (λ c. c ≡ empty_canvas window) }
        ensures stands { IfOk result (λ c. (list : PieceList) → StandsAt list 0 c) }
        ensures counts { IfOk result (λ c. (list : PieceList) → CountsAt list 0 c) }
    {
        let count = window.columns() as usize * window.rows() as usize;
        let tiles = vec![in alloc; TileState::empty(); count].map_err(|_| Memory)?;
        let least = vec![in alloc; 0u32; count + 8].map_err(|_| Memory)?;
        Ok(Canvas {
            window,
            tiles,
            least,
        })
    }

    /// The tiles that it has.
    pub fn window(&self) -> TileSpan
        ensures value { result ≡ self.now.window }
        ensures whole { IsCanvas self.now }
    {
        // what is held of both is known where both are read
        let _tiles = self.tiles.len();
        self.window
    }

    // How many tiles it has, of eight subtiles each.
    #[inline(always)]
    pub(crate) fn tile_count(&self) -> usize
        ensures count { result ≡ length self.now.tiles }
        ensures eight { (t : ℕ) → t < length self.now.tiles → length (tile_at self.now.tiles t).subs ≡ 8 }
    {
        // what is held of both is known where both are read
        let _table = self.least.len();
        self.tiles.len()
    }

    /// The tile at a place. Condition: the window has it.
    pub fn tile(&self, place: Tile) -> TileState
        requires { has_tile self.now.window place ≡ true }
        ensures { result ≡ tile_on self.now place }
    {
        let start = self.window.row_start(u32::from(place.row));
        self.tiles[start + (u32::from(place.column) - self.window.first_column) as usize]
    }

    /// The tiles that a piece may change, of eight from a number on, by the table: bit i is clear only where no
    /// reference of tile number + i is below a nearness. A piece that is nowhere nearer changes none of its subtiles.
    /// Condition: there is the first of them.
    #[inline(always)]
    pub(crate) fn may_change(&self, number: usize, nearest: u32) -> u32
        requires { number < length self.now.tiles }
        ensures behind { (i : ℕ) → i < 8 → number + i < length self.now.tiles → bit_at result i ≡ 0
            → NoneBelow nearest (tile_at self.now.tiles (number + i)) }
        ensures eight { (i : ℕ) → i < 8 → number + i < length self.now.tiles
            → length (tile_at self.now.tiles (number + i)).subs ≡ 8 }
        ensures byte { result < 2 ^ 8 }
    {
        // an accessor tells how many tiles there are
        let _tiles = self.tiles.len();
        u32x8::from_slice(&self.least[number..])
            .simd_lt(u32x8::splat(nearest))
            .to_bitmask() as u32
    }

    /// The same of the first alone: 1, or 0 where no reference of it is below the nearness. Condition: there is a tile
    /// of that number.
    #[inline(always)]
    pub(crate) fn first_may_change(&self, number: usize, nearest: u32) -> u32
        requires { number < length self.now.tiles }
        ensures behind { result ≡ 0 → NoneBelow nearest (tile_at self.now.tiles number) }
        ensures eight { length (tile_at self.now.tiles number).subs ≡ 8 }
        ensures bit { result < 2 }
    {
        // an accessor tells how many tiles there are
        let _tiles = self.tiles.len();
        let least = self.least[number];
        if least < nearest { 1 } else { 0 }
    }

    /// Counts a piece in the tile of a number. Conditions: there is such a tile, and its count is below 131,072.
    pub(crate) fn count(&mut self, number: usize)
        requires tile { number < length self.old.tiles }
        requires count { (tile_at self.old.tiles number).count < 131072 }
        ensures { self.new ≡ with_tile self.old number (counted_tile (tile_at self.old.tiles number)) }
    {
        self.tiles[number].count_piece();
    }

    /// Merges a piece into the tile of a number, and counts nothing. Conditions: there is such a tile, the column and
    /// the row are below the screen's, what is reached on it has each sample that the piece covers, the edges are the
    /// piece's over the tile's row, and a tile that is said to be inner stands neither at the screen's right end nor at
    /// its lower end.
    #[inline(always)]
    pub(crate) fn merge(
        &mut self,
        number: usize,
        piece: &PieceDepths,
        reached: &SubBox,
        over: &TileRow,
        place: Tile,
        is_inner: bool,
    )
        requires reached { HoldsSampled piece.now reached.now }
        requires inner { is_inner ≡ true → IsInner reached.now.size place }
        requires over { AreRowOf over.now place.row piece.now }
        requires tile { number < length self.old.tiles }
        requires column { place.column < tile_columns_of reached.now.size }
        requires row { place.row < tile_rows_of reached.now.size }
        ensures { self.new ≡ with_tile self.old number
            (merged_tile reached.now.size place piece.now (tile_at self.old.tiles number)) }
    {
        let least = self.tiles[number].merge_over(piece, reached, over, place, is_inner);
        self.least[number] = least;
    }

    /// Merges a small piece into the tile of a number, and counts nothing. Most raise no reference, and the table
    /// stays. Conditions: there is such a tile, the column and the row are below the screen's, and what is reached on
    /// it has each sample that the piece covers.
    #[inline(always)]
    pub(crate) fn merge_small(
        &mut self,
        number: usize,
        piece: &SmallPiece,
        reached: &SubBox,
        place: Tile,
    )
        requires reached { HoldsSampled piece.now reached.now }
        requires tile { number < length self.old.tiles }
        requires column { place.column < tile_columns_of reached.now.size }
        requires row { place.row < tile_rows_of reached.now.size }
        ensures { self.new ≡ with_tile self.old number
            (merged_tile reached.now.size place piece.now (tile_at self.old.tiles number)) }
    {
        if self.tiles[number].merge_small(piece, reached, place) {
            self.least[number] = self.tiles[number].least_reference();
        }
    }

    /// The subtiles of the tile of a number, as bits, that are reached on the screen and whose reference is below a
    /// piece: it changes no other. Conditions: there is such a tile, and what is reached on the screen has each sample
    /// that the piece covers.
    #[inline(always)]
    pub(crate) fn wanted(
        &self,
        number: usize,
        tri: &ScreenTri,
        reached: &SubBox,
        place: Tile,
    ) -> u32
        requires reached { HoldsSampled tri.now reached.now }
        requires tile { number < length self.now.tiles }
        ensures wanted { AreWanted reached.now.size place tri.now (tile_at self.now.tiles number).subs result }
        ensures eight { length (tile_at self.now.tiles number).subs ≡ 8 }
        ensures byte { result < 2 ^ 8 }
    {
        // an accessor tells how many tiles there are
        let _tiles = self.tiles.len();
        self.tiles[number].wanted(tri, reached, place)
    }

    /// Merges a small piece into the subtiles of the bits of the tile of a number, and counts nothing. Conditions:
    /// there is such a tile, the column and the row are below the screen's, and the bits are eight and have each
    /// subtile on the screen that the piece changes.
    #[inline(always)]
    pub(crate) fn merge_among(
        &mut self,
        number: usize,
        piece: &SmallPiece,
        size: Size,
        place: Tile,
        wanted: u32,
    )
        requires tile { number < length self.old.tiles }
        requires wanted { AreWanted size place piece.now (tile_at self.old.tiles number).subs wanted }
        requires byte { wanted < 2 ^ 8 }
        requires eight { length (tile_at self.old.tiles number).subs ≡ 8 }
        requires column { place.column < tile_columns_of size }
        requires row { place.row < tile_rows_of size }
        ensures { self.new ≡ with_tile self.old number
            (merged_tile size place piece.now (tile_at self.old.tiles number)) }
    {
        if self.tiles[number].merge_among(piece, size, place, wanted) {
            self.least[number] = self.tiles[number].least_reference();
        }
    }

    /// Its tiles, row by row.
    pub fn into_tiles(self) -> Vec<TileState>
        ensures tiles { result.items ≡ self.tiles }
        ensures whole { length result.items ≡ tiles_in self.window }
    {
        self.tiles
    }
}
