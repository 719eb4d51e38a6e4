//! What an edge's value is at the first pixel, and the bias that makes one test of both sides' tests.
ghost use Rattle.std.specs.Prelude.{◌≡◌, ℕ, ℤ, pos, ◌^◌, ◌+◌, ◌+ℤ◌};
ghost use Rattle.cull_base.specs.Piece.{IsCoordinate, point, edge_value, is_top_or_left};
ghost use Rattle.cull_base.specs.Bounds.{Bounded};
ghost use Rattle.edge_lanes.specs.Lanes.{bias_of};

use cull_base::Side;
use cull_base::arithmetic::edge_value;

#[inline(always)]
fn is_top_or_left(ax: i32, ay: i32, bx: i32, by: i32) -> bool
    ensures { result ≡ is_top_or_left (point ax ay) (point bx by) }
{
    by < ay || (by == ay && ax < bx)
}

// What turns the test against 0 into the side's test: on an edge, an occluder's sample counts where the edge is a top
// or left one, an object's always.
#[inline(always)]
fn bias(side: Side, top_or_left: bool) -> i64
    ensures value { result ≡ bias_of side top_or_left }
    ensures bounded { Bounded 1 result }
{
    match side {
        Side::Occluder => if top_or_left { 0 } else { -1 },
        Side::Object => 0,
    }
}

#[inline(always)]
pub(crate) fn with_bias(value: i64, bias: i64) -> i64
    requires value { Bounded (2 ^ 61) value }
    requires bias { Bounded 1 bias }
    ensures value { result ≡ value +ℤ bias }
    ensures bounded { Bounded (2 ^ 61 + 1) result }
{
    value + bias
}

/// The value at the first pixel's sample of the edge from a to b, with the side's bias.
#[inline(always)]
pub fn first_value(ax: i32, ay: i32, bx: i32, by: i32, side: Side) -> i64
    requires ax { IsCoordinate ax }
    requires ay { IsCoordinate ay }
    requires bx { IsCoordinate bx }
    requires by { IsCoordinate by }
    ensures value { result ≡ edge_value (point ax ay) (point bx by) (point (pos 8) (pos 8))
        +ℤ bias_of side (is_top_or_left (point ax ay) (point bx by)) }
    ensures bounded { Bounded (2 ^ 61 + 1) result }
{
    with_bias(
        edge_value(ax, ay, bx, by, 8, 8),
        bias(side, is_top_or_left(ax, ay, bx, by)),
    )
}
