//! A piece of a few pixels, set up for the subtiles that it reaches: each is asked by itself, and its bound is computed
//! only where the piece covers a sample.
ghost use Rattle.std.specs.Prelude.{◌≡◌, ◌<◌, ◌^◌, IfSome, false, length};
ghost use Rattle.cull_base.specs.Piece.{IsPiece};
ghost use Rattle.cull_base.specs.Screen.{tile_columns_of, tile_rows_of};
ghost use Rattle.masked_update.specs.Coverage.{AreWanted};
ghost use Rattle.edge_lanes.specs.Inside.{sub_of};
ghost use Rattle.masked_update.specs.Merged.{merged_by};
ghost use Rattle.masked_update.specs.Samples.{HoldsSampled};
ghost use Rattle.masked_update.specs.Small.{HaveSameReferences, IsMergedAt};

use crate::sub_span::SubBox;
use crate::tile_layers::TileLayers;
use cull_base::{ScreenTri, Size, Sub, Tile};
use depth_plane::SmallPlane;
use edge_lanes::SmallEdges;
use std::marker::Model;

/// So many subtiles are asked one after the other.
const FEW: u32 = 8;

/// A piece with what each subtile asks of it: its edges, its plane, its greatest and its least nearness.
#[derive(Drop)]
pub struct SmallPiece {
    tri: ScreenTri,
    edges: SmallEdges,
    plane: SmallPlane,
    nearest: u32,
    least: u32,
}

impl Model for SmallPiece {
    ghost use Rattle.cull_base.specs.Piece.{Piece};

    ghost Value = { Piece };

    ghost use Rattle.masked_update.specs.Small.{IsSmall};

    ghost view = { λ s. s.tri };

    ghost invariant = { IsSmall };
}

// Subtile j of a tile.
#[inline(always)]
fn subtile(tile: Tile, j: u32) -> Sub
    requires column { tile.column < 64 }
    requires row { tile.row < 256 }
    requires j { j < 8 }
    ensures value { result ≡ sub_of tile j }
    ensures column { result.column < 256 }
    ensures row { result.row < 512 }
{
    let j = j as u16;
    Sub {
        column: 4 * tile.column + j % 4,
        row: 2 * tile.row + j / 4,
    }
}

// Whether a piece that reaches these subtiles is worth asking one after the other. A screen has at most 256 by 512 of
// them, and no end lies before its first: nothing wraps.
#[inline(always)]
fn are_few(reached: &SubBox) -> bool {
    let columns = reached.end_column.wrapping_sub(reached.first_column);
    let rows = reached.end_row.wrapping_sub(reached.first_row);
    columns.wrapping_mul(rows) <= FEW
}

impl SmallPiece {
    /// Sets a piece up. None where it reaches more than a few subtiles, or is too far away or too steep for that.
    #[inline(always)]
    pub fn of(tri: &ScreenTri, reached: &SubBox) -> Option<SmallPiece>
        ensures { IfSome result (λ p. p ≡ tri.now) }
    {
        if !are_few(reached) {
            return None;
        }
        let edges = SmallEdges::of(tri)?;
        let plane = SmallPlane::of(tri)?;
        Some(SmallPiece {
            tri: *tri,
            edges,
            plane,
            nearest: tri.greatest_nearness(),
            least: tri.least_nearness(),
        })
    }

    // Merges the piece into subtile j of a tile. Says whether its reference is another then.
    #[inline(always)]
    fn merge_at(&self, layers: &mut TileLayers, place: Tile, j: u32) -> bool
        requires column { place.column < 64 }
        requires row { place.row < 256 }
        requires j { j < 8 }
        ensures merged { IsMergedAt self.now place j layers.old layers.new }
        ensures same { result ≡ false → HaveSameReferences layers.old layers.new }
    {
        let mut sub = layers.sub(j as usize);
        let here = subtile(place, j);
        let mask = self.edges.mask(here);
        if mask == 0 {
            return false;
        }
        let reference = sub.reference();
        let bound = self.plane.bound(here, self.least);
        sub.merge(bound, mask);
        layers.put(j as usize, sub);
        sub.reference() != reference
    }

    // The subtiles of a tile, as bits, that are reached on the screen and whose reference is below the piece.
    #[inline(always)]
    fn wanted(&self, layers: &TileLayers, reached: &SubBox, place: Tile) -> u32
        requires { HoldsSampled self.now reached.now }
        ensures wanted { AreWanted reached.now.size place self.now layers.now result }
        ensures byte { result < 2 ^ 8 }
        ensures eight { length layers.now ≡ 8 }
        ensures valid { IsPiece self.now }
    {
        reached.in_tile(place).bits() & layers.below(self.nearest)
    }

    /// Merges the piece into the subtiles of the bits. Says whether any reference is another then. Conditions: the column
    /// and the row are below the screen's, and the bits are eight and have each subtile on the screen that the piece
    /// changes.
    #[inline(always)]
    pub(crate) fn merge_among(
        &self,
        layers: &mut TileLayers,
        size: Size,
        place: Tile,
        wanted: u32,
    ) -> bool
        requires wanted { AreWanted size place self.now layers.old wanted }
        requires byte { wanted < 2 ^ 8 }
        requires eight { length layers.old ≡ 8 }
        requires column { place.column < tile_columns_of size }
        requires row { place.row < tile_rows_of size }
        ensures merged { layers.new ≡ merged_by size place self.now layers.old }
        ensures same { result ≡ false → HaveSameReferences layers.old layers.new }
    {
        // an accessor tells what is held of a size
        let _width = size.width();
        let mut left = wanted;
        let mut raised = false;
        while left != 0 {
            let j = left.trailing_zeros();
            raised |= self.merge_at(layers, place, j);
            left &= left - 1;
        }
        raised
    }

    /// Merges the piece into a tile's subtiles on the screen. Says whether any reference is another then. Conditions: the
    /// column and the row are below the screen's, and what is reached on it holds each sample that the piece covers.
    #[inline(always)]
    pub fn merge_into(&self, layers: &mut TileLayers, reached: &SubBox, place: Tile) -> bool
        requires reached { HoldsSampled self.now reached.now }
        requires column { place.column < tile_columns_of reached.now.size }
        requires row { place.row < tile_rows_of reached.now.size }
        ensures merged { layers.new ≡ merged_by reached.now.size place self.now layers.old }
        ensures same { result ≡ false → HaveSameReferences layers.old layers.new }
    {
        let wanted = self.wanted(layers, reached, place);
        self.merge_among(layers, reached.size, place, wanted)
    }
}
