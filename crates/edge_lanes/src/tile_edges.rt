//! The edges of a piece over one tile, whose eight subtiles are tested at once.
ghost use Rattle.std.specs.Prelude.{◌≡◌, ℕ, ℤ, ◌+◌, ◌*◌, ◌<◌, ◌^◌};
ghost use Rattle.std.specs.Simd.Lanes.{mask_l};
ghost use Rattle.cull_base.specs.State.{samples_of};
ghost use Rattle.edge_lanes.specs.Inside.{StartsAt, inside_of, lines_of_kind, sub_of};

use crate::edges::{Edges, Kind};
use cull_base::Tile;

/// The edges of a piece over one tile.
#[derive(Clone, Copy)]
pub struct TileEdges<'a> {
    edges: &'a Edges,
    tile: Tile,
    // the edges' values at the tile's first sample, those of narrow edges in 32 bits
    first: i64,
    second: i64,
    third: i64,
    ghost first_starts: { StartsAt edges.now.kind (lines_of_kind edges.now.kind).first tile first },
    ghost second_starts: { StartsAt edges.now.kind (lines_of_kind edges.now.kind).second tile second },
    ghost third_starts: { StartsAt edges.now.kind (lines_of_kind edges.now.kind).third tile third },
}

impl Edges {
    ghost use Rattle.edge_lanes.specs.Tiles.{inside_at};

    /// The edges over a tile. Condition: the tile lies within 2048 by 2048 pixels.
    #[inline(always)]
    pub fn at_tile(&self, tile: Tile) -> TileEdges<'_>
        requires column { tile.column < 64 }
        requires row { tile.row < 256 }
        ensures { (j : ℕ) → inside_at result j ≡ inside_of self.now (sub_of tile j) }
    {
        match &self.kind {
            Kind::Narrow(edges) => TileEdges {
                edges: self,
                tile,
                first: i64::from(edges.first.tile_start(tile)),
                second: i64::from(edges.second.tile_start(tile)),
                third: i64::from(edges.third.tile_start(tile)),
            },
            Kind::Wide(edges) => TileEdges {
                edges: self,
                tile,
                first: edges.first.tile_start(tile),
                second: edges.second.tile_start(tile),
                third: edges.third.tile_start(tile),
            },
        }
    }
}

impl TileEdges<'_> {
    ghost use Rattle.edge_lanes.specs.Tiles.{inside_at, AreCandidates, AreWhole};

    /// The subtiles that an edge doesn't reject whole: bit j, of eight, is clear only where no sample of subtile j lies
    /// inside.
    #[inline(always)]
    pub fn candidates(&self) -> u32
        ensures clear { AreCandidates (inside_at self.now) result }
        ensures byte { result < 2 ^ 8 }
    {
        match &self.edges.kind {
            Kind::Narrow(edges) => {
                edges.candidates(self.first as i32, self.second as i32, self.third as i32)
            }
            Kind::Wide(edges) => edges.candidates(self.first, self.second, self.third),
        }
    }

    /// Subtiles of which each sample lies inside: bit j, of eight, is set only where subtile j is such a one. None is
    /// told of wide edges.
    #[inline(always)]
    pub fn whole(&self) -> u32
        ensures { AreWhole (inside_at self.now) result }
    {
        match &self.edges.kind {
            Kind::Narrow(edges) => {
                edges.whole(self.first as i32, self.second as i32, self.third as i32)
            }
            Kind::Wide(_) => 0,
        }
    }

    /// As `mask`, where it is known of some subtiles that they are whole: none of their samples is tested.
    #[inline(always)]
    pub fn mask_beside(&self, whole: u32, j: u32) -> u32
        requires whole { AreWhole (inside_at self.now) whole }
        requires j { j < 8 }
        ensures value { result ≡ mask_l (inside_at self.now j) }
        ensures samples { samples_of result ≡ inside_at self.now j }
    {
        if (whole >> j) & 1 == 1 {
            u32::MAX
        } else {
            self.mask(j)
        }
    }

    /// As `mask`, where it is known of some subtiles that they have no samples: these are not tested.
    #[inline(always)]
    pub(crate) fn mask_among(&self, candidates: u32, j: u32) -> u32
        requires candidates { AreCandidates (inside_at self.now) candidates }
        requires j { j < 8 }
        ensures value { result ≡ mask_l (inside_at self.now j) }
        ensures samples { samples_of result ≡ inside_at self.now j }
    {
        if (candidates >> j) & 1 == 0 {
            0
        } else {
            self.mask(j)
        }
    }

    /// The samples of subtile j that lie inside: bit 8r + c is column c of row r. Condition: j is below 8.
    #[inline(always)]
    pub fn mask(&self, j: u32) -> u32
        requires { j < 8 }
        ensures value { result ≡ mask_l (inside_at self.now j) }
        ensures samples { samples_of result ≡ inside_at self.now j }
    {
        match &self.edges.kind {
            Kind::Narrow(edges) => {
                edges.mask(self.first as i32, self.second as i32, self.third as i32, j)
            }
            Kind::Wide(edges) => edges.mask(self.first, self.second, self.third, j),
        }
    }
}
