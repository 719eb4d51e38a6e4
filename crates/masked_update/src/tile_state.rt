//! A tile: eight subtiles, and how many pieces it took.
ghost use Rattle.std.specs.Prelude.{◌≡◌, ℕ, ◌<◌, ◌≤◌, ◌^◌, false, true, length};
ghost use Rattle.cull_base.specs.Fold.{IsLayered};
ghost use Rattle.cull_base.specs.Piece.{IsPiece, box_of};
ghost use Rattle.cull_base.specs.Screen.{IsSize, tile_columns_of, tile_rows_of, tile_count_of};

use crate::piece_form::PieceForm;
use crate::piece_setup::{PieceDepths, PieceSetup};
use crate::small_piece::SmallPiece;
use crate::sub_span::SubBox;
use crate::sub_tile::SubTile;
use crate::tile_layers::TileLayers;
use cull_base::{ScreenTri, Size, Tile};
use edge_lanes::TileRow;
use std::marker::Model;

/// Eight subtiles in two rows of four, and a count of pieces. In memory it is 25 numbers of 32 bits: the references,
/// the workings and the masks of the subtiles, then the count.
#[derive(Clone, Copy)]
#[repr(C)]
pub struct TileState {
    layers: TileLayers,
    count: u32,
}

impl Model for TileState {
    ghost use Rattle.masked_update.specs.TileOf.{TileOf};

    ghost Value = { TileOf };

    ghost view = { λ t. record { subs = t.layers; count = t.count } };

    ghost inverse = { λ v. record { layers = v.subs; count = v.count } };
}

impl TileState {
    ghost use Rattle.masked_update.specs.Coverage.{AreWanted};
    ghost use Rattle.masked_update.specs.Forms.{IsFormOn, piece_of_form};
    ghost use Rattle.masked_update.specs.TileOf.{sub_at, empty_tile};
    ghost use Rattle.masked_update.specs.Inner.{IsInner};
    ghost use Rattle.masked_update.specs.Merged.{AreRowOf, IsSubBox};
    ghost use Rattle.masked_update.specs.Samples.{HoldsSampled};
    ghost use Rattle.masked_update.specs.Small.{HaveSameReferences};
    ghost use Rattle.masked_update.specs.Taken.{taken_by, taken_at, merged_tile, counted_tile};

    /// Eight empty subtiles, and no piece taken.
    pub fn empty() -> TileState
        ensures { result ≡ empty_tile }
    {
        TileState {
            layers: TileLayers::empty(),
            count: 0,
        }
    }

    /// Eight subtiles in the order of their numbers, and how many pieces they took.
    pub fn of(subs: [SubTile; 8], count: u32) -> TileState
        ensures value { result ≡ record { subs = subs; count = count } }
        ensures eight { length result.subs ≡ 8 }
    {
        TileState {
            layers: TileLayers::of(&subs),
            count,
        }
    }

    /// Condition: j is below 8.
    pub fn sub(&self, j: u8) -> SubTile
        requires { j < 8 }
        ensures value { result ≡ sub_at self.now j }
        ensures eight { length self.now.subs ≡ 8 }
    {
        self.layers.sub(j as usize)
    }

    /// How many pieces the tile took.
    pub fn count(&self) -> u32
        ensures { result ≡ self.now.count }
    {
        self.count
    }

    /// Merges the piece into each of the tile's subtiles that is on the screen, and counts it. Conditions: the count is
    /// below 131,072, and the tile below the tile count.
    pub fn take(&mut self, tri: &ScreenTri, size: Size, tile: u32)
        requires count { self.old.count < 131072 }
        requires tile { tile < tile_count_of size }
        ensures taken { self.new ≡ taken_by size tile tri.now self.old }
        ensures valid { IsPiece tri.now }
        ensures sized { IsSize size.width size.height }
    {
        // an accessor tells what is held of a size
        let _width = size.width();
        self.take_set_up(&PieceSetup::of(tri), size, tile);
    }

    /// As `take`, of a piece that is set up already.
    pub fn take_set_up(&mut self, piece: &PieceSetup, size: Size, tile: u32)
        requires count { self.old.count < 131072 }
        requires tile { tile < tile_count_of size }
        ensures { self.new ≡ taken_by size tile piece.now self.old }
    {
        let place = size.tile_at(tile);
        self.merge(piece, &piece.reached_on(size), place);
        self.count_piece();
    }

    /// As `take_set_up`, where the tile's column and row are known, of a piece in any form. Conditions: the count is
    /// below 131,072, the column and the row are below the screen's, what the form says is reached is of this screen
    /// and has each sample that the piece covers, of a whole form it is the box's, and the edges of a form for one row
    /// are the piece's own, over the tile's row.
    pub fn take_form(&mut self, form: PieceForm, size: Size, place: Tile)
        requires count { self.old.count < 131072 }
        requires form { IsFormOn size place.row form }
        requires column { place.column < tile_columns_of size }
        requires row { place.row < tile_rows_of size }
        ensures { self.new ≡ taken_at size place (piece_of_form form.entry) self.old }
    {
        self.merge_form(form, size, place);
        self.count_piece();
    }

    // Merges a piece in any form, and doesn't count it.
    #[inline(always)]
    fn merge_form(&mut self, form: PieceForm, size: Size, place: Tile)
        requires form { IsFormOn size place.row form }
        requires column { place.column < tile_columns_of size }
        requires row { place.row < tile_rows_of size }
        ensures { self.new ≡ merged_tile size place (piece_of_form form.entry) self.old }
    {
        match form {
            PieceForm::Bare(tri) => self.merge_bare(tri, size, place),
            PieceForm::Small(piece, reached) => {
                self.merge_small(piece, reached, place);
            }
            PieceForm::Whole(piece, reached) => self.merge(piece, reached, place),
            PieceForm::Row(piece, reached, over) => self.merge_ahead(piece, reached, over, place),
        }
    }

    // Merges a piece that isn't set up, and doesn't count it. One that stands behind the tile changes nothing.
    #[inline(always)]
    fn merge_bare(&mut self, tri: &ScreenTri, size: Size, place: Tile)
        requires column { place.column < tile_columns_of size }
        requires row { place.row < tile_rows_of size }
        ensures { self.new ≡ merged_tile size place tri.now self.old }
    {
        // an accessor tells how many subtiles a tile has
        let _first = self.sub(0);
        let near = tri.greatest_nearness();
        let least = self.least_reference();
        if near <= least {
            return;
        }
        self.merge_unset(tri, size, place);
    }

    // Sets a piece up, merges it, and doesn't count it. Out of line: else room for what is set up would be cleared also
    // for pieces that stand behind the tile, and most that aren't set up do.
    #[cold]
    #[inline(never)]
    fn merge_unset(&mut self, tri: &ScreenTri, size: Size, place: Tile)
        requires column { place.column < tile_columns_of size }
        requires row { place.row < tile_rows_of size }
        ensures { self.new ≡ merged_tile size place tri.now self.old }
    {
        let piece = PieceSetup::of(tri);
        self.merge(&piece, &piece.reached_on(size), place);
    }

    /// Merges a piece, and doesn't count it. Conditions: the column and the row are below the screen's, and what is
    /// reached on it is what the piece reaches.
    pub fn merge(&mut self, piece: &PieceSetup, reached: &SubBox, place: Tile)
        requires reached { IsSubBox (box_of piece.now) reached.now }
        requires column { place.column < tile_columns_of reached.now.size }
        requires row { place.row < tile_rows_of reached.now.size }
        ensures merged { self.new ≡ merged_tile reached.now.size place piece.now self.old }
        ensures eight { length self.new.subs ≡ 8 }
    {
        piece.merge_into(&mut self.layers, reached, place);
    }

    /// Merges a piece, whose edges over the tile's row are at hand, and doesn't count it. Gives a nearness that no
    /// reference is below then. Conditions: the column and the row are below the screen's, what is reached on it has
    /// each sample that the piece covers, the edges are the piece's, and a tile that is said to be inner stands neither
    /// at the screen's right end nor at its lower end.
    #[inline(always)]
    pub(crate) fn merge_over(
        &mut self,
        piece: &PieceDepths,
        reached: &SubBox,
        over: &TileRow,
        place: Tile,
        is_inner: bool,
    ) -> u32
        requires reached { HoldsSampled piece.now reached.now }
        requires inner { is_inner ≡ true → IsInner reached.now.size place }
        requires over { AreRowOf over.now place.row piece.now }
        requires column { place.column < tile_columns_of reached.now.size }
        requires row { place.row < tile_rows_of reached.now.size }
        ensures merged { self.new ≡ merged_tile reached.now.size place piece.now self.old }
        ensures eight { length self.new.subs ≡ 8 }
        ensures least { (j : ℕ) → j < 8 → result ≤ (sub_at self.new j).reference }
    {
        piece.merge_over(&mut self.layers, reached, over, place, is_inner);
        self.layers.least_reference()
    }

    /// Merges a piece, whose edges over the tile's row are at hand, and doesn't count it. A tile to which the edges
    /// leave nothing stays, and so does one that is nowhere behind the piece. Conditions: the column and the row are
    /// below the screen's, what is reached on it has each sample that the piece covers, and the edges are the piece's.
    #[inline(always)]
    pub fn merge_ahead(
        &mut self,
        piece: &PieceDepths,
        reached: &SubBox,
        over: &TileRow,
        place: Tile,
    )
        requires reached { HoldsSampled piece.now reached.now }
        requires over { AreRowOf over.now place.row piece.now }
        requires column { place.column < tile_columns_of reached.now.size }
        requires row { place.row < tile_rows_of reached.now.size }
        ensures { self.new ≡ merged_tile reached.now.size place piece.now self.old }
    {
        // accessors tell what is held of a size, of a piece and of a tile
        let _columns = reached.size.tile_columns();
        let _rows = reached.size.tile_rows();
        let _first = self.sub(0);
        let nearest = piece.nearest();
        let ahead = over.ahead(u32::from(place.column)) % 2;
        if ahead == 0 {
            return;
        }
        let least = self.least_reference();
        if nearest <= least {
            return;
        }
        self.merge_over(piece, reached, over, place, reached.is_inner(place));
    }

    /// Merges a small piece, doesn't count it, and says whether any reference is another then. Conditions: the column
    /// and the row are below the screen's, and what is reached on it has each sample that the piece covers.
    #[inline(always)]
    pub fn merge_small(&mut self, piece: &SmallPiece, reached: &SubBox, place: Tile) -> bool
        requires reached { HoldsSampled piece.now reached.now }
        requires column { place.column < tile_columns_of reached.now.size }
        requires row { place.row < tile_rows_of reached.now.size }
        ensures merged { self.new ≡ merged_tile reached.now.size place piece.now self.old }
        ensures eight { length self.new.subs ≡ 8 }
        ensures same { result ≡ false → HaveSameReferences self.old.subs self.new.subs }
    {
        piece.merge_into(&mut self.layers, reached, place)
    }

    /// The subtiles, as bits, that are reached on the screen and whose reference is below a piece: it changes no other.
    /// Condition: what is reached on the screen has each sample that the piece covers.
    #[inline(always)]
    pub(crate) fn wanted(&self, tri: &ScreenTri, reached: &SubBox, place: Tile) -> u32
        requires { HoldsSampled tri.now reached.now }
        ensures wanted { AreWanted reached.now.size place tri.now self.now.subs result }
        ensures eight { length self.now.subs ≡ 8 }
        ensures byte { result < 2 ^ 8 }
    {
        reached.in_tile(place).bits() & self.layers.below(tri.greatest_nearness())
    }

    /// Merges a small piece into the subtiles of the bits, doesn't count it, and says whether any reference is another
    /// then. Conditions: the column and the row are below the screen's, and the bits are eight and have each subtile on
    /// the screen that the piece changes.
    #[inline(always)]
    pub(crate) fn merge_among(
        &mut self,
        piece: &SmallPiece,
        size: Size,
        place: Tile,
        wanted: u32,
    ) -> bool
        requires wanted { AreWanted size place piece.now self.old.subs wanted }
        requires byte { wanted < 2 ^ 8 }
        requires eight { length self.old.subs ≡ 8 }
        requires column { place.column < tile_columns_of size }
        requires row { place.row < tile_rows_of size }
        ensures merged { self.new ≡ merged_tile size place piece.now self.old }
        ensures eight { length self.new.subs ≡ 8 }
        ensures same { result ≡ false → HaveSameReferences self.old.subs self.new.subs }
    {
        piece.merge_among(&mut self.layers, size, place, wanted)
    }

    /// Counts a piece, and doesn't merge it.
    pub(crate) fn count_piece(&mut self)
        requires { self.old.count < 131072 }
        ensures { self.new ≡ counted_tile self.old }
    {
        self.count += 1;
    }

    /// A nearness that no reference is below.
    pub fn least_reference(&self) -> u32
        ensures least { (j : ℕ) → j < 8 → result ≤ (sub_at self.now j).reference }
        ensures layered { (j : ℕ) → j < 8 → IsLayered (sub_at self.now j) }
    {
        self.layers.least_reference()
    }
}
