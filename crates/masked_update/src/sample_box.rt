//! The pixels whose samples a piece may cover, by the least and the greatest of its coordinates.
ghost use Rattle.std.specs.Prelude.{◌≡◌, ◌≤ℤ◌, ℕ};
ghost use Rattle.cull_base.specs.Sampled.{sampled_list};
ghost use Rattle.cull_base.specs.Screen.{IsSize};
ghost use Rattle.cull_base.specs.Tiles.{PieceList, ArePieces, tile_after};
ghost use Rattle.masked_update.specs.Samples.{HoldsCovered};

use cull_base::{Rect, ScreenTri, samples_between};

/// Pixels, not cut to the screen, that hold those whose sample the piece covers: their samples stand in its box or on
/// the box's edge. Of a piece of a few sixteenths there may be none.
#[inline(always)]
pub fn sampled(tri: &ScreenTri) -> Rect
    ensures holds { HoldsCovered tri.now result }
    ensures across { result.x0 ≤ℤ result.x1 }
    ensures down { result.y0 ≤ℤ result.y1 }
{
    samples_between(&tri.x(), &tri.y())
}

/// The members of a list with such a pixel on the screen leave each tile as the whole list does.
pub fn sampled_members()
    ensures { (list : PieceList) (tile : ℕ) → IsSize list.size.width list.size.height → ArePieces list.members
        → tile_after list.size tile (sampled_list list).members ≡ tile_after list.size tile list.members }
{}
