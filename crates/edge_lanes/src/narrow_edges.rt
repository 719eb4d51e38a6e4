//! The three edges of a piece whose box has sides below 2^20 sixteenths of a pixel, in lanes of 32 bits.
ghost use Rattle.std.specs.Prelude.{◌≡◌, ℕ, ◌+◌, ◌-◌, ◌*◌, ◌<◌, ◌^◌, bit_and};
ghost use Rattle.std.specs.Simd.Lanes.{mask_l};
ghost use Rattle.cull_base.specs.Bounds.{Bounded};
ghost use Rattle.cull_base.specs.Piece.{each_sample, vertex};
ghost use Rattle.edge_lanes.specs.Inside.{narrow_line, narrow_lines};
ghost use Rattle.edge_lanes.specs.Lines.{AreEdges, IsEdge, IsNarrow, IsShort, candidates_of_all, inside_all, mask_of_all, whole_of_all};

use crate::narrow_edge::NarrowEdge;
use cull_base::{ScreenTri, Side};

/// The edges of a piece.
#[derive(Clone, Copy)]
pub struct NarrowEdges {
    pub first: NarrowEdge,
    pub second: NarrowEdge,
    pub third: NarrowEdge,
}

// The edge from one vertex of a piece to another.
#[inline(always)]
fn edge_between(tri: &ScreenTri, from: usize, to: usize, side: Side) -> NarrowEdge
    requires from { from < 3 }
    requires to { to < 3 }
    requires short { IsShort (vertex tri.now from) (vertex tri.now to) }
    ensures { IsEdge (narrow_line result) side (vertex tri.now from) (vertex tri.now to) }
{
    let x = tri.x();
    let y = tri.y();
    NarrowEdge::of(x[from], y[from], x[to], y[to], side)
}

// The columns of a row that are inside each of three edges.
#[inline(always)]
pub(crate) fn in_each(first: u64, second: u64, third: u64) -> u64
    requires { third < 2 ^ 8 }
    ensures value { result ≡ bit_and (bit_and first second) third }
    ensures byte { result < 2 ^ 8 }
{
    first & second & third
}

#[inline(always)]
pub(crate) fn mask_of_rows(first: u64, second: u64, third: u64, fourth: u64) -> u32
    requires first { first < 2 ^ 8 }
    requires second { second < 2 ^ 8 }
    requires third { third < 2 ^ 8 }
    requires fourth { fourth < 2 ^ 8 }
    ensures { result ≡ (first + second * 256) + (third + fourth * 256) * 65536 }
{
    ((first + second * 256) + (third + fourth * 256) * 65536) as u32
}

impl NarrowEdges {
    #[inline(always)]
    pub fn of(tri: &ScreenTri, side: Side) -> NarrowEdges
        requires { IsNarrow tri.now }
        ensures { AreEdges (narrow_lines result) side tri.now }
    {
        NarrowEdges {
            first: edge_between(tri, 0, 1, side),
            second: edge_between(tri, 1, 2, side),
            third: edge_between(tri, 2, 0, side),
        }
    }

    /// The subtiles that no edge rejects whole, in a tile that begins with these values.
    #[inline(always)]
    pub fn candidates(&self, first: i32, second: i32, third: i32) -> u32
        requires first { Bounded (2 ^ 30) first }
        requires second { Bounded (2 ^ 30) second }
        requires third { Bounded (2 ^ 30) third }
        ensures value { result ≡ candidates_of_all (narrow_lines self.now) first second third }
        ensures byte { result < 2 ^ 8 }
    {
        let first = self.first.candidates(first);
        let second = self.second.candidates(second);
        let third = self.third.candidates(third);
        (first & second & third) as u32
    }

    /// The subtiles that each edge accepts whole, in a tile that begins with these values.
    #[inline(always)]
    pub fn whole(&self, first: i32, second: i32, third: i32) -> u32
        requires first { Bounded (2 ^ 30) first }
        requires second { Bounded (2 ^ 30) second }
        requires third { Bounded (2 ^ 30) third }
        ensures value { result ≡ whole_of_all (narrow_lines self.now) first second third }
        ensures byte { result < 2 ^ 8 }
    {
        let first = self.first.whole(first);
        let second = self.second.whole(second);
        let third = self.third.whole(third);
        (first & second & third) as u32
    }

    /// The mask of a subtile that begins with these values.
    #[inline(always)]
    pub fn rows(&self, first: i32, second: i32, third: i32) -> u32
        requires first { Bounded (2 ^ 30 + 2 ^ 25) first }
        requires second { Bounded (2 ^ 30 + 2 ^ 25) second }
        requires third { Bounded (2 ^ 30 + 2 ^ 25) third }
        ensures { result ≡ mask_l (each_sample (inside_all (narrow_lines self.now) first second third)) }
    {
        let a = self.first.rows(first);
        let b = self.second.rows(second);
        let c = self.third.rows(third);
        mask_of_rows(
            in_each(a.first, b.first, c.first),
            in_each(a.second, b.second, c.second),
            in_each(a.third, b.third, c.third),
            in_each(a.fourth, b.fourth, c.fourth),
        )
    }

    /// The mask of subtile j of such a tile.
    #[inline(always)]
    pub fn mask(&self, first: i32, second: i32, third: i32, j: u32) -> u32
        requires first { Bounded (2 ^ 30) first }
        requires second { Bounded (2 ^ 30) second }
        requires third { Bounded (2 ^ 30) third }
        requires j { j < 8 }
        ensures { result ≡ mask_of_all (narrow_lines self.now) first second third j }
    {
        let first = self.first.subtile_start(first, j);
        let second = self.second.subtile_start(second, j);
        let third = self.third.subtile_start(third, j);
        self.rows(first, second, third)
    }
}
