//! Where the three edges of a piece cross the rows of samples.
ghost use Rattle.std.specs.Prelude.{◌≡◌, ℕ, ◌<◌};
ghost use Rattle.edge_lanes.specs.Lines.{Lines};

use crate::crossing::Crossing;
use crate::spans::Spans;
use crate::turned::TurnedEdges;

/// The crossings of the edges of a piece.
#[derive(Clone, Copy)]
pub struct Crossings {
    pub first: Crossing,
    pub second: Crossing,
    pub third: Crossing,
}

impl Crossings {
    ghost use Rattle.edge_lanes.specs.Crossings.{AreCrossings, AreNear, AreSpans, AreTurned};

    /// The crossings of three edges. Condition: they are near.
    #[inline(always)]
    pub fn of(edges: &TurnedEdges) -> Crossings
        requires { AreNear edges.now }
        ensures { (e : Lines) → AreTurned e edges.now → AreCrossings e result }
    {
        // the reciprocals branch, and LLVM zeroes a result that is filled behind branches: so they come first
        let first = edges.first.reciprocal();
        let second = edges.second.reciprocal();
        let third = edges.third.reciprocal();
        Crossings {
            first: Crossing::of(&edges.first, &first),
            second: Crossing::of(&edges.second, &second),
            third: Crossing::of(&edges.third, &third),
        }
    }

    /// The columns inside all three in each of the eight rows of a row of tiles. Condition: the row is below 256.
    #[inline(always)]
    pub fn spans(&self, row: u32) -> Spans
        requires { row < 256 }
        ensures { AreSpans self.now row result }
    {
        let others = self.second.spans(row).and(self.third.spans(row));
        self.first.spans(row).and(others)
    }
}
