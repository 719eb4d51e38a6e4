//! The three edges of a piece, and the masks of the samples inside all of them.
ghost use Rattle.std.specs.Prelude.{◌≡◌, ℕ, pos, ◌+◌, ◌*◌, ◌/◌, ◌%◌, ◌<◌, ◌^◌, ◌-ℤ◌, slice_index, IsTrue};
ghost use Rattle.std.specs.Simd.Lanes.{mask_l};
ghost use Rattle.cull_base.specs.Bounds.{Bounded};
ghost use Rattle.cull_base.specs.Piece.{IsCoordinate, covered, touched};
ghost use Rattle.cull_base.specs.State.{samples_of};
ghost use Rattle.cull_base.specs.declared.place.Sub.{Sub};
ghost use Rattle.cull_base.specs.declared.triangle.Side.{Side};
ghost use Rattle.edge_lanes.specs.Lines.{IsNarrow};

use crate::narrow_edges::NarrowEdges;
use crate::wide_edges::WideEdges;
use cull_base::{ScreenTri, Side, Sub, Tile};
use std::array;

/// A piece whose box has sides below this many sixteenths of a pixel takes lanes of 32 bits.
const NARROW: i32 = 0x10_0000;

/// The edges of a piece, for the samples that it covers as an occluder or touches as an object.
#[derive(Clone, Copy)]
pub struct Edges {
    pub(crate) kind: Kind,
}

/// Nearly all pieces are narrow.
#[derive(Clone, Copy)]
pub(crate) enum Kind {
    Narrow(NarrowEdges),
    Wide(WideEdges),
}

// Whether three coordinates lie so near to each other.
#[inline(always)]
fn are_near(a: i32, b: i32, c: i32) -> bool
    requires a { IsCoordinate a }
    requires b { IsCoordinate b }
    requires c { IsCoordinate c }
    ensures first { IsTrue result → Bounded (2 ^ 20) (b -ℤ a) }
    ensures second { IsTrue result → Bounded (2 ^ 20) (c -ℤ b) }
    ensures third { IsTrue result → Bounded (2 ^ 20) (a -ℤ c) }
{
    a.max(b).max(c) - a.min(b).min(c) < NARROW
}

#[inline(always)]
pub(crate) fn is_narrow(tri: &ScreenTri) -> bool
    ensures { IsTrue result → IsNarrow tri.now }
{
    let x = tri.x();
    let y = tri.y();
    are_near(x[0], x[1], x[2]) && are_near(y[0], y[1], y[2])
}

impl Edges {
    ghost use Rattle.edge_lanes.specs.Inside.{inside_of, sub_of};

    #[inline(always)]
    pub fn of(tri: &ScreenTri, side: Side) -> Edges
        ensures covered { side ≡ Side.Occluder → (u : Sub) → inside_of result u ≡ covered tri.now u }
        ensures touched { side ≡ Side.Object → (u : Sub) → inside_of result u ≡ touched tri.now u }
    {
        if is_narrow(tri) {
            Edges {
                kind: Kind::Narrow(NarrowEdges::of(tri, side)),
            }
        } else {
            Edges {
                kind: Kind::Wide(WideEdges::of(tri, side)),
            }
        }
    }

    /// The samples of a subtile that lie inside: bit 8r + c is column c of row r. Condition: the subtile lies within
    /// 2048 by 2048 pixels.
    #[inline]
    pub fn mask(&self, sub: Sub) -> u32
        requires column { sub.column < 256 }
        requires row { sub.row < 512 }
        ensures value { result ≡ mask_l (inside_of self.now sub) }
        ensures samples { samples_of result ≡ inside_of self.now sub }
    {
        let tile = Tile {
            column: sub.column / 4,
            row: sub.row / 2,
        };
        self.at_tile(tile)
            .mask(u32::from(sub.row % 2 * 4 + sub.column % 4))
    }

    /// The masks of a tile's subtiles, of which it has four columns and two rows. Condition: the tile lies within
    /// 2048 by 2048 pixels.
    pub fn tile_masks(&self, tile: Tile) -> [u32; 8]
        requires column { tile.column < 64 }
        requires row { tile.row < 256 }
        ensures value { (j : ℕ) → j < 8 → slice_index result j ≡ mask_l (inside_of self.now (sub_of tile j)) }
        ensures samples { (j : ℕ) → j < 8 → samples_of (slice_index result j)
            ≡ inside_of self.now (sub_of tile j) }
    {
        let edges = self.at_tile(tile);
        let candidates = edges.candidates();
        array::from_fn(|j| edges.mask_among(candidates, j as u32))
    }
}
