//! The edges of an occluder over one row of tiles, whose tiles are tested at once.
ghost use Rattle.std.specs.Prelude.{◌≡◌, ℕ, ◌<◌, ◌^◌, slice_index};
ghost use Rattle.std.specs.Simd.Lanes.{mask_l};
ghost use Rattle.cull_base.specs.State.{samples_of};
ghost use Rattle.edge_lanes.specs.Crossings.{AreSpansOf};

use crate::row_edges::EdgesView;
use crate::spans::Spans;
use cull_base::Tile;

/// The edges of a piece over one row of tiles.
#[derive(Clone, Copy)]
pub struct TileRow<'a> {
    edges: EdgesView<'a>,
    row: u32,
    spans: Spans,
    ghost row_within: { row < 256 },
    ghost are_spans: { AreSpansOf edges row spans },
}

impl<'a> EdgesView<'a> {
    /// The edges over a row of tiles. Condition: the row is below 256.
    #[inline(always)]
    pub fn over_row(self, row: u32) -> TileRow<'a>
        requires { row < 256 }
        ensures edges { result.edges ≡ self.entry }
        ensures row { result.row ≡ row }
    {
        match self {
            EdgesView::Crossed(crossings) => TileRow {
                edges: self,
                row,
                spans: crossings.spans(row),
            },
            EdgesView::Plain(_) => TileRow {
                edges: self,
                row,
                spans: Spans::none(),
            },
        }
    }
}

impl TileRow<'_> {
    ghost use Rattle.edge_lanes.specs.Rows.{AreAhead, inside_in};

    /// Of the tile in a column and the seven to its right, those that have samples inside: bit i, of eight, is clear
    /// only where the tile i to the right has none. Condition: the column is below 64.
    #[inline(always)]
    pub fn ahead(&self, column: u32) -> u32
        requires { column < 64 }
        ensures clear { AreAhead self.now column result }
        ensures byte { result < 2 ^ 8 }
    {
        match self.edges {
            EdgesView::Crossed(_) => self.spans.ahead(column),
            EdgesView::Plain(_) => 255,
        }
    }

    /// The same, for a caller who reads only the first so many bits. For one tile it only tests whether any row has a
    /// column. Condition: the column is below 64.
    #[inline(always)]
    pub fn ahead_among(&self, column: u32, count: u32) -> u32
        requires { column < 64 }
        ensures clear { AreAhead self.now column result }
        ensures byte { result < 2 ^ 8 }
    {
        match self.edges {
            EdgesView::Crossed(_) => {
                if count == 1 {
                    self.spans.all_or_none()
                } else {
                    self.spans.ahead(column)
                }
            }
            EdgesView::Plain(_) => 255,
        }
    }

    /// The masks of the eight subtiles of the tile in a column. Condition: the column is below 64.
    #[inline(always)]
    pub fn masks(&self, column: u32) -> [u32; 8]
        requires { column < 64 }
        ensures value { (j : ℕ) → j < 8 → slice_index result j ≡ mask_l (inside_in self.now column j) }
        ensures samples { (j : ℕ) → j < 8 → samples_of (slice_index result j) ≡ inside_in self.now column j }
    {
        match self.edges {
            EdgesView::Crossed(_) => self.spans.masks(column),
            EdgesView::Plain(edges) => edges.tile_masks(Tile {
                column: column as u16,
                row: self.row as u16,
            }),
        }
    }
}
