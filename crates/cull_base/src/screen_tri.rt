//! Pieces: triangles on the screen.
ghost use Rattle.std.specs.Prelude.{◌≡◌, ◌≤◌, ◌↔◌, MatchOption, IsSome, IsTrue};
ghost use Rattle.std.specs.List.{All};
ghost use Rattle.std.specs.Int.{int_div_euclid};
ghost use Rattle.cull_base.specs.Piece.{IsCoordinate, IsPiece, Piece, least_of, greatest_of};
ghost use Rattle.cull_base.specs.declared.nearness.TheConstants.{HELD_TOP};

use crate::arithmetic::edge_value;
use crate::nearness::HELD_TOP;
use crate::rect::Rect;
use crate::sample_box::box_around;
use std::marker::Model;

/// A triangle on the screen: coordinates in sixteenths of a pixel, nearness from 0 to the top that pieces hold, and a
/// positive area.
#[derive(Clone, Copy)]
pub struct ScreenTri {
    x: [i32; 3],
    y: [i32; 3],
    q: [u32; 3],
}

impl Model for ScreenTri {
    ghost Value = { Piece };

    ghost view = { λ t. record { xs = t.x; ys = t.y; qs = t.q } };

    ghost invariant = { λ t. IsPiece (record { xs = t.x; ys = t.y; qs = t.q }) };

    ghost inverse = { λ v. record { x = v.xs; y = v.ys; q = v.qs } };
}

fn is_within(v: i32) -> bool
    ensures { IsTrue result ↔ IsCoordinate v }
{
    -0x2000_0000 < v && v < 0x2000_0000
}

fn are_within(values: &[i32; 3]) -> bool
    ensures { IsTrue result ↔ All IsCoordinate values.now }
{
    values.iter().all(|v| is_within(*v))
}

fn are_nearness(values: &[u32; 3]) -> bool
    ensures { IsTrue result ↔ All (λ q. q ≤ HELD_TOP) values.now }
{
    values.iter().all(|q| *q <= HELD_TOP)
}

impl ScreenTri {
    ghost use Rattle.cull_base.specs.Depth.{least_nearness, greatest_nearness};
    ghost use Rattle.cull_base.specs.Piece.{piece, box_of};

    /// A piece of these numbers. None exactly where the doubled area isn't positive, a coordinate isn't strictly between
    /// -2^29 and 2^29, or a nearness is above the top that pieces hold.
    pub fn new(x: [i32; 3], y: [i32; 3], q: [u32; 3]) -> Option<ScreenTri>
        ensures value { MatchOption result (IsPiece (piece x y q) → ⊥) (λ t. t ≡ piece x y q) }
        ensures given { IsPiece (piece x y q) → IsSome result }
    {
        if !are_within(&x) || !are_within(&y) || !are_nearness(&q) {
            return None;
        }
        if edge_value(x[0], y[0], x[1], y[1], x[2], y[2]) <= 0 {
            return None;
        }
        Some(ScreenTri { x, y, q })
    }

    /// A piece of these numbers. Condition: they make one, as `new` tests.
    #[inline(always)]
    pub fn from_valid(x: [i32; 3], y: [i32; 3], q: [u32; 3]) -> ScreenTri
        requires { IsPiece (piece x y q) }
        ensures { result ≡ piece x y q }
    {
        ScreenTri { x, y, q }
    }

    /// x of each vertex, in sixteenths of a pixel, strictly between -2^29 and 2^29.
    pub fn x(&self) -> [i32; 3]
        ensures value { result ≡ self.now.xs }
        ensures valid { IsPiece self.now }
    {
        self.x
    }

    /// y of each vertex, in sixteenths of a pixel, strictly between -2^29 and 2^29.
    pub fn y(&self) -> [i32; 3]
        ensures value { result ≡ self.now.ys }
        ensures valid { IsPiece self.now }
    {
        self.y
    }

    /// The nearness of each vertex, from 0 to the top that pieces hold.
    pub fn q(&self) -> [u32; 3]
        ensures value { result ≡ self.now.qs }
        ensures valid { IsPiece self.now }
    {
        self.q
    }

    /// The least nearness of its vertices.
    #[inline(always)]
    pub fn least_nearness(&self) -> u32
        ensures value { result ≡ least_nearness self.now }
        ensures valid { IsPiece self.now }
    {
        let [q0, q1, q2] = self.q;
        q0.min(q1.min(q2))
    }

    /// The greatest nearness of its vertices.
    #[inline(always)]
    pub fn greatest_nearness(&self) -> u32
        ensures value { result ≡ greatest_nearness self.now }
        ensures valid { IsPiece self.now }
    {
        let [q0, q1, q2] = self.q;
        q0.max(q1.max(q2))
    }

    /// The pixels that the piece may reach, not cut to the screen.
    pub fn boxed(&self) -> Rect
        ensures { result ≡ box_of self.now }
    {
        box_around(&self.x, &self.y)
    }
}
