//! A piece as far as it is set up for the tiles that take it.

use crate::piece_setup::{PieceDepths, PieceSetup};
use crate::small_piece::SmallPiece;
use crate::sub_span::SubBox;
use cull_base::ScreenTri;
use edge_lanes::TileRow;

/// A piece in a form in which a tile takes it; where it is set up, with the subtiles of a screen that it reaches.
#[derive(Clone, Copy)]
pub enum PieceForm<'a> {
    /// Not set up: a tile that it may change sets it up by itself.
    Bare(&'a ScreenTri),
    /// A piece of a few pixels.
    Small(&'a SmallPiece, &'a SubBox),
    /// Any piece.
    Whole(&'a PieceSetup, &'a SubBox),
    /// Any piece, for the tiles of one row: its edges over the row are computed once.
    Row(&'a PieceDepths, &'a SubBox, &'a TileRow<'a>),
}
