//! Pieces in the caller's memory, and their way onto rows of tiles.
ghost use Rattle.std.specs.Prelude.{◌≡◌, ◌≢◌, ℕ, ◌<◌, ◌≤◌, length};
ghost use Rattle.masked_update.specs.TileOf.{tile_at};
ghost use Rattle.maskcull_c.specs.Bands.{Adds, AreMerged, IsBand, first_in};
ghost use Rattle.maskcull_c.specs.Given.{IsSetup, size_of};
ghost use Rattle.maskcull_c.specs.Tiles.{AreRows, row_start};
ghost use Rattle.maskcull_c.specs.declared.status.TheConstants.{DONE, BAD_SETUP, BAD_TILES};

use crate::band::draw_piece;
use crate::draw::window_from;
use crate::given::Setup;
use crate::status::{BAD_SETUP, BAD_TILES, DONE};
use cull_base::{ScreenTri, Size, TileSpan};
use masked_update::TileState;
use std::marker::Model;

/// Room for a piece. It may hold any numbers.
#[derive(Clone, Copy)]
#[repr(C)]
pub struct PieceRoom {
    pub x: [i32; 3],
    pub y: [i32; 3],
    pub q: [u32; 3],
}

/// A piece that `maskcull_set_up` wrote: coordinates in sixteenths of a pixel, nearness, and a positive area.
#[derive(Clone, Copy)]
#[repr(C)]
pub struct ListedPiece {
    x: [i32; 3],
    y: [i32; 3],
    q: [u32; 3],
}

impl Model for ListedPiece {
    ghost use Rattle.cull_base.specs.Piece.{Piece, IsPiece};

    ghost Value = { Piece };

    ghost view = { λ t. record { xs = t.x; ys = t.y; qs = t.q } };

    ghost invariant = { λ t. IsPiece (record { xs = t.x; ys = t.y; qs = t.q }) };

    ghost inverse = { λ v. record { x = v.xs; y = v.ys; q = v.qs } };
}

impl PieceRoom {
    ghost use Rattle.cull_base.specs.Piece.{IsPiece};
    ghost use Rattle.maskcull_c.specs.Pieces.{piece_in};

    /// What is to be written of a piece.
    #[inline(always)]
    pub(crate) fn of(tri: &ScreenTri) -> PieceRoom
        ensures value { piece_in result ≡ tri.now }
        ensures valid { IsPiece tri.now }
    {
        PieceRoom {
            x: tri.x(),
            y: tri.y(),
            q: tri.q(),
        }
    }
}

impl ListedPiece {
    #[cfg(test)]
    pub(crate) fn of(tri: &ScreenTri) -> ListedPiece
        ensures { result ≡ tri.now }
    {
        ListedPiece {
            x: tri.x(),
            y: tri.y(),
            q: tri.q(),
        }
    }

    #[inline(always)]
    fn tri(&self) -> ScreenTri
        ensures { result ≡ self.now }
    {
        ScreenTri::from_valid(self.x, self.y, self.q)
    }
}

// Draws pieces onto the tiles of a window, one after another.
fn draw_listed(tiles: &mut [TileState], window: TileSpan, pieces: &[ListedPiece], size: Size)
    requires { IsBand size window tiles.old }
    ensures { AreMerged size (first_in size window) pieces.now tiles.old tiles.new }
{
    for piece in pieces {
        draw_piece(tiles, window, &piece.tri(), size);
    }
}

/// Draws pieces that were set up onto some rows of the screen's tiles, from row first_row on: 0 where all were drawn,
/// else why none was. Calls on tiles that don't overlap may run at the same time.
#[unsafe(no_mangle)]
pub extern "C" fn maskcull_draw_pieces(
    setup: &Setup,
    tiles: &mut [TileState],
    first_row: u32,
    pieces: &[ListedPiece],
) -> u32
    ensures drawn { result ≡ DONE → Adds (size_of setup.now) (row_start (size_of setup.now) first_row)
        pieces.now tiles.old tiles.new }
    ensures merged { result ≡ DONE → AreMerged (size_of setup.now) (row_start (size_of setup.now) first_row)
        pieces.now tiles.old tiles.new }
    ensures counts { (t : ℕ) → t < length tiles.old
        → (tile_at tiles.new t).count ≡ (tile_at tiles.old t).count }
    ensures accepted { IsSetup setup.now → AreRows (size_of setup.now) first_row tiles.old → result ≡ DONE }
    ensures bad_setup { result ≡ BAD_SETUP → IsSetup setup.now → ⊥ }
    ensures bad_tiles { result ≡ BAD_TILES → AreRows (size_of setup.now) first_row tiles.old → ⊥ }
    ensures refuses_setup { (IsSetup setup.now → ⊥) → result ≡ BAD_SETUP }
    ensures refuses_tiles { IsSetup setup.now → (AreRows (size_of setup.now) first_row tiles.old → ⊥)
        → result ≡ BAD_TILES }
    ensures most { result ≤ BAD_TILES }
    ensures refused { result ≢ DONE → tiles.new ≡ tiles.old }
{
    let Some(checked) = setup.checked() else {
        return BAD_SETUP;
    };
    let Some(window) = window_from(checked.size, first_row, tiles) else {
        return BAD_TILES;
    };
    draw_listed(tiles, window, pieces, checked.size);
    DONE
}
