//! The edges of a piece, turned so that where they cross a row of samples is a quotient rounded down.
ghost use Rattle.std.specs.Prelude.{◌≡◌, ℕ, pos, ◌^◌, ◌+◌, ◌<◌, neg_ℤ, ◌≤ℤ◌, IsTrue, cond};
ghost use Rattle.cull_base.specs.Bounds.{Bounded};
ghost use Rattle.edge_lanes.specs.Between.{IsLimit, column_at, is_between};
ghost use Rattle.edge_lanes.specs.Lines.{counts_at, line};
ghost use Rattle.edge_lanes.specs.Inside.{narrow_line, narrow_lines};

use crate::narrow_edge::NarrowEdge;
use crate::narrow_edges::NarrowEdges;
use crate::reciprocal::Reciprocal;
use crate::slant::Slant;

/// The columns of the widest screen.
const COLUMNS: u16 = 2048;

/// A near edge's first crossing has no greater numerator.
const FARTHEST: i64 = 0x4000_0000;

/// Nor does it go by more columns a row.
const FLATTEST: i64 = 0x4_0000;

/// An edge that crosses row y before the column `(start + row * y) / size`, rounded down.
#[derive(Clone, Copy)]
pub struct Turned {
    pub start: i64,
    pub row: i64,
    pub size: i64,
    // 0 where the samples before the crossing are inside, 2048 where those from it on are
    pub limit: u16,
    ghost start_bounded: { Bounded (2 ^ 58 + 2 ^ 21) start },
    ghost row_bounded: { Bounded (2 ^ 20) row },
    ghost positive: { pos 1 ≤ℤ size },
    ghost size_bounded: { size ≤ℤ pos (2 ^ 20) },
    ghost is_limit: { IsLimit limit },
}

/// The three edges of a piece.
#[derive(Clone, Copy)]
pub struct TurnedEdges {
    pub first: Turned,
    pub second: Turned,
    pub third: Turned,
}

// One of two numbers, without a branch.
#[inline(always)]
fn either(test: bool, first: i64, second: i64) -> i64
    ensures { result ≡ cond test first second }
{
    if test { first } else { second }
}

// Of a left edge the samples from the crossing on are inside, of a right one those before it.
#[inline(always)]
fn turn(edge: &Slant) -> Turned
    ensures { (x y : ℕ) → x < 2 ^ 11 → y < 2 ^ 11
        → is_between (column_at result.start result.row result.size y) result.limit x
        ≡ counts_at (line edge.now.start edge.now.column edge.now.row) x y }
{
    let column = i64::from(edge.column);
    let row = i64::from(edge.row);
    let is_left = 0 < column;
    Turned {
        start: either(is_left, column - 1 - edge.start, edge.start - column),
        row: either(is_left, -row, row),
        size: either(is_left, column, -column),
        limit: if is_left { COLUMNS } else { 0 },
    }
}

impl Turned {
    ghost use Rattle.edge_lanes.specs.Crossings.{IsNear, IsTurned};

    #[inline(always)]
    fn of(edge: &NarrowEdge) -> Turned
        ensures { IsTurned (narrow_line edge.now) result }
    {
        turn(&edge.slant())
    }

    /// The reciprocal of its size.
    #[inline(always)]
    pub fn reciprocal(&self) -> Reciprocal
        ensures { pos result.number ≡ self.now.size }
    {
        Reciprocal::of(self.size as u64)
    }

    // Whether the crossings of all rows fit 64 bits in parts of a pixel.
    #[inline(always)]
    fn is_near(&self) -> bool
        ensures { IsTrue result → IsNear self.now }
    {
        -FARTHEST <= self.start
            && self.start <= FARTHEST
            && -FLATTEST * self.size <= self.row
            && self.row <= FLATTEST * self.size
    }
}

impl TurnedEdges {
    ghost use Rattle.edge_lanes.specs.Crossings.{AreNear, AreTurned};

    #[inline(always)]
    pub fn of(edges: &NarrowEdges) -> TurnedEdges
        ensures { AreTurned (narrow_lines edges.now) result }
    {
        TurnedEdges {
            first: Turned::of(&edges.first),
            second: Turned::of(&edges.second),
            third: Turned::of(&edges.third),
        }
    }

    /// Whether each is near: it begins within 2^30 sizes of the screen's corner, and goes by at most 2^18 columns a
    /// row.
    #[inline(always)]
    pub fn are_near(&self) -> bool
        ensures { IsTrue result → AreNear self.now }
    {
        self.first.is_near() && self.second.is_near() && self.third.is_near()
    }
}
