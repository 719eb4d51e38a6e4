//! The edges of an occluder, tested one row of tiles after the other.
ghost use Rattle.std.specs.Prelude.{◌≡◌, ℕ, ◌<◌};
ghost use Rattle.cull_base.specs.Piece.{covered};
ghost use Rattle.cull_base.specs.declared.place.Sub.{Sub};
ghost use Rattle.edge_lanes.specs.Crossings.{inside_rows, inside_view};

use crate::crossings::Crossings;
use crate::edges::Edges;
use crate::near_edges::NearEdges;
use cull_base::{ScreenTri, Side};

/// The edges of a piece, for the samples that it covers on a screen of 2048 by 2048 pixels.
#[derive(Clone, Copy)]
pub struct RowEdges {
    pub(crate) kind: RowKind,
}

/// Nearly all pieces have crossings: the others have an edge that is very long, far away or flat.
#[derive(Clone, Copy)]
pub(crate) enum RowKind {
    Crossed(Crossings),
    Plain(Edges),
}

/// The edges of a piece, lent: they themselves are large to copy. Nearly all pieces have crossings.
#[derive(Clone, Copy)]
pub enum EdgesView<'a> {
    /// Where they cross the rows of samples.
    Crossed(&'a Crossings),
    /// The edges themselves, tested tile by tile.
    Plain(&'a Edges),
}

// Edges without spans. Out of line, so that what these need alone isn't computed where there are spans.
#[inline(never)]
fn plain(tri: &ScreenTri) -> RowEdges
    ensures { (u : Sub) → inside_rows result u ≡ covered tri.now u }
{
    RowEdges {
        kind: RowKind::Plain(Edges::of(tri, Side::Occluder)),
    }
}

impl RowEdges {
    // Out of line, so that what is made is written where the caller keeps it. Each way returns by itself: where two
    // ways join, what is large is copied.
    #[inline(never)]
    pub fn of(tri: &ScreenTri) -> RowEdges
        ensures { (u : Sub) → u.column < 256 → u.row < 512 → inside_rows result u ≡ covered tri.now u }
    {
        match NearEdges::of(tri) {
            Some(edges) => {
                let crossings = edges.crossings();
                RowEdges {
                    kind: RowKind::Crossed(crossings),
                }
            }
            None => plain(tri),
        }
    }

    /// What the rows of tiles need of them.
    #[inline(always)]
    pub fn view(&self) -> EdgesView<'_>
        ensures { (u : Sub) → inside_view result u ≡ inside_rows self.now u }
    {
        match &self.kind {
            RowKind::Crossed(crossings) => EdgesView::Crossed(crossings),
            RowKind::Plain(edges) => EdgesView::Plain(edges),
        }
    }
}
