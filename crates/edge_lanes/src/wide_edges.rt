//! The three edges of a piece of any size, in lanes of 64 bits.
ghost use Rattle.std.specs.Prelude.{◌≡◌, ℕ, ◌+◌, ◌<◌, ◌^◌};
ghost use Rattle.cull_base.specs.Bounds.{Bounded};
ghost use Rattle.cull_base.specs.Piece.{vertex};
ghost use Rattle.edge_lanes.specs.Inside.{wide_line, wide_lines};
ghost use Rattle.edge_lanes.specs.Lines.{AreEdges, IsEdge, candidates_of_all, mask_of_all};

use crate::wide_edge::WideEdge;
use cull_base::{ScreenTri, Side};

/// The edges of a piece.
#[derive(Clone, Copy)]
pub struct WideEdges {
    pub first: WideEdge,
    pub second: WideEdge,
    pub third: WideEdge,
}

// The edge from one vertex of a piece to another.
fn edge_between(tri: &ScreenTri, from: usize, to: usize, side: Side) -> WideEdge
    requires from { from < 3 }
    requires to { to < 3 }
    ensures { IsEdge (wide_line result) side (vertex tri.now from) (vertex tri.now to) }
{
    let x = tri.x();
    let y = tri.y();
    WideEdge::of(x[from], y[from], x[to], y[to], side)
}

impl WideEdges {
    #[inline(never)]
    pub fn of(tri: &ScreenTri, side: Side) -> WideEdges
        ensures { AreEdges (wide_lines result) side tri.now }
    {
        WideEdges {
            first: edge_between(tri, 0, 1, side),
            second: edge_between(tri, 1, 2, side),
            third: edge_between(tri, 2, 0, side),
        }
    }

    /// The subtiles that no edge rejects whole, in a tile that begins with these values.
    #[inline(never)]
    pub fn candidates(&self, first: i64, second: i64, third: i64) -> u32
        requires first { Bounded (2 ^ 61 + 2 ^ 47) first }
        requires second { Bounded (2 ^ 61 + 2 ^ 47) second }
        requires third { Bounded (2 ^ 61 + 2 ^ 47) third }
        ensures value { result ≡ candidates_of_all (wide_lines self.now) first second third }
        ensures byte { result < 2 ^ 8 }
    {
        let first = self.first.candidates(first);
        let second = self.second.candidates(second);
        let third = self.third.candidates(third);
        (first & second & third) as u32
    }

    /// The mask of subtile j of such a tile.
    #[inline(never)]
    pub fn mask(&self, first: i64, second: i64, third: i64, j: u32) -> u32
        requires first { Bounded (2 ^ 61 + 2 ^ 47) first }
        requires second { Bounded (2 ^ 61 + 2 ^ 47) second }
        requires third { Bounded (2 ^ 61 + 2 ^ 47) third }
        requires j { j < 8 }
        ensures { result ≡ mask_of_all (wide_lines self.now) first second third j }
    {
        let first = self.first.subtile_start(first, j);
        let second = self.second.subtile_start(second, j);
        let third = self.third.subtile_start(third, j);
        self.first.mask(first) & self.second.mask(second) & self.third.mask(third)
    }
}
