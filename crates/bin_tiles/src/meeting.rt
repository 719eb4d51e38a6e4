//! Whether a piece's box meets a rectangle.
ghost use Rattle.std.specs.Prelude.{◌≡◌};
ghost use Rattle.cull_base.specs.Piece.{box_of};
ghost use Rattle.cull_base.specs.Rectangle.{meets};

use cull_base::{Rect, ScreenTri};

/// Whether a piece's box meets a rectangle.
#[inline(always)]
pub fn is_met(piece: &ScreenTri, rect: &Rect) -> bool
    ensures { result ≡ meets (box_of piece.now) rect.now }
{
    piece.boxed().meets_in_lanes(rect)
}
