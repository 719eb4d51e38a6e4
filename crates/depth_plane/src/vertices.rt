//! The vertices of a piece, and the coefficients of its plane.
ghost use Rattle.std.specs.Prelude.{◌≡◌, ℕ, ℤ, pos, ◌*◌, ◌<◌, ◌≤◌, ◌^◌, ◌+ℤ◌, ◌-ℤ◌, ◌*ℤ◌};
ghost use Rattle.cull_base.specs.Piece.{IsPiece, IsCoordinate};
ghost use Rattle.cull_base.specs.Bounds.{Bounded};
ghost use Rattle.cull_base.specs.declared.nearness.TheConstants.{HELD_TOP};

use cull_base::ScreenTri;
use cull_base::arithmetic::{difference, minus, product};

#[inline(always)]
fn nearness_difference(a: u32, b: u32) -> i64
    requires a { a ≤ HELD_TOP }
    requires b { b ≤ HELD_TOP }
    ensures value { result ≡ pos a -ℤ pos b }
    ensures bounded { Bounded (2 ^ 24) result }
{
    i64::from(a) - i64::from(b)
}

/// How a vertex of a piece lies from the first one.
#[derive(Clone, Copy)]
pub struct Offset {
    x: i64,
    y: i64,
    q: i64,
    ghost x_within: { Bounded (2 ^ 30) x },
    ghost y_within: { Bounded (2 ^ 30) y },
    ghost q_within: { Bounded (2 ^ 24) q },
}

impl Offset {
    ghost use Rattle.depth_plane.specs.Vertices.{IsOffset};

    // Condition: k is below 3.
    #[inline(always)]
    fn of(tri: &ScreenTri, k: usize) -> Offset
        requires { k < 3 }
        ensures { IsOffset result tri.now k }
    {
        Offset {
            x: difference(tri.x()[k], tri.x()[0]),
            y: difference(tri.y()[k], tri.y()[0]),
            q: nearness_difference(tri.q()[k], tri.q()[0]),
        }
    }
}

// A difference of nearness times one of coordinates.
#[inline(always)]
fn rise(q: i64, v: i64) -> i64
    requires q { Bounded (2 ^ 24) q }
    requires v { Bounded (2 ^ 30) v }
    ensures value { result ≡ q *ℤ v }
    ensures bounded { Bounded (2 ^ 54) result }
{
    q * v
}

// What one rise is above another.
#[inline(always)]
fn slope(q: i64, v: i64, other_q: i64, other_v: i64) -> i64
    requires q { Bounded (2 ^ 24) q }
    requires v { Bounded (2 ^ 30) v }
    requires other_q { Bounded (2 ^ 24) other_q }
    requires other_v { Bounded (2 ^ 30) other_v }
    ensures value { result ≡ (q *ℤ v) -ℤ (other_q *ℤ other_v) }
    ensures bounded { Bounded (2 ^ 56) result }
    ensures closer { Bounded (2 ^ 55) result }
{
    minus(rise(q, v), rise(other_q, other_v))
}

#[inline(always)]
fn wide_product(a: i64, b: i64) -> i128
    ensures value { result ≡ a *ℤ b }
    ensures bounded { (m n : ℕ) → Bounded m a → Bounded n b → Bounded (m * n) result }
{
    i128::from(a) * i128::from(b)
}

// a - b - c
#[inline(always)]
fn less_both(a: i128, b: i128, c: i128) -> i128
    requires a { Bounded (2 ^ 85) a }
    requires b { Bounded (2 ^ 85) b }
    requires c { Bounded (2 ^ 85) c }
    ensures value { result ≡ (a -ℤ b) -ℤ c }
    ensures bounded { Bounded (2 ^ 87) result }
{
    a - b - c
}

/// The vertices of a piece: the first, and how the two others lie from it.
#[derive(Clone, Copy)]
pub struct Vertices {
    x: i32,
    y: i32,
    q: u32,
    second: Offset,
    third: Offset,
    ghost x_within: { IsCoordinate x },
    ghost y_within: { IsCoordinate y },
    ghost q_within: { q ≤ HELD_TOP },
}

impl Vertices {
    ghost use Rattle.depth_plane.specs.Vertices.{AreVertices, across_of, down_of, level_of, area_of};

    #[inline(always)]
    pub fn of(tri: &ScreenTri) -> Vertices
        ensures value { AreVertices result tri.now }
        ensures valid { IsPiece tri.now }
    {
        Vertices {
            x: tri.x()[0],
            y: tri.y()[0],
            q: tri.q()[0],
            second: Offset::of(tri, 1),
            third: Offset::of(tri, 2),
        }
    }

    /// What the depth's numerator rises by for each sixteenth of a pixel to the right.
    #[inline(always)]
    pub fn across(&self) -> i64
        ensures value { result ≡ across_of self.now }
        ensures bounded { Bounded (2 ^ 56) result }
        ensures closer { Bounded (2 ^ 55) result }
    {
        let Vertices { second, third, .. } = self;
        slope(second.q, third.y, third.q, second.y)
    }

    /// What it rises by for each sixteenth of a pixel down.
    #[inline(always)]
    pub fn down(&self) -> i64
        ensures value { result ≡ down_of self.now }
        ensures bounded { Bounded (2 ^ 56) result }
        ensures closer { Bounded (2 ^ 55) result }
    {
        let Vertices { second, third, .. } = self;
        slope(third.q, second.x, second.q, third.x)
    }

    /// The doubled area.
    #[inline(always)]
    pub fn area(&self) -> i64
        ensures value { result ≡ area_of self.now }
        ensures bounded { Bounded (2 ^ 61) result }
    {
        minus(
            product(self.second.x, self.third.y),
            product(self.second.y, self.third.x),
        )
    }

    /// The depth's numerator at the origin, from the other coefficients: at the first vertex it is the nearness there
    /// times the area.
    #[inline(always)]
    pub fn level(&self, across: i64, down: i64, area: i64) -> i128
        requires across { Bounded (2 ^ 56) across }
        requires down { Bounded (2 ^ 56) down }
        requires area { Bounded (2 ^ 61) area }
        ensures value { result ≡ level_of self.now across down area }
        ensures bounded { Bounded (2 ^ 87) result }
    {
        less_both(
            wide_product(area, i64::from(self.q)),
            wide_product(across, i64::from(self.x)),
            wide_product(down, i64::from(self.y)),
        )
    }
}
