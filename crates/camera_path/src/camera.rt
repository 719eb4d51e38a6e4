//! A camera, and where vertices lie as it sees them.
ghost use Rattle.std.specs.Prelude.{◌≡◌, ℤ, pos, ◌+◌, ◌<◌, ◌≤◌, ◌^◌, ◌+ℤ◌, ◌*ℤ◌, length, map, IfOk};
ghost use Rattle.std.specs.List.{All};
ghost use Rattle.cull_base.specs.Bounds.{Bounded};
ghost use Rattle.cull_base.specs.Depth.{floor_of};
ghost use Rattle.camera_path.specs.Clip.{coordinate_of, clip_of, number, AreWithin};
ghost use Rattle.camera_path.specs.Products.{AreProducts};

use cull_base::ClipVertex;
use cull_base::arithmetic::product;

/// Three rows of four numbers, for x, y and w: three factors in parts of 65536, and then a whole offset.
#[derive(Clone, Copy, Debug, PartialEq, Eq)]
pub struct Camera(pub [i32; 12]);

// Number k of a row or of a vertex.
#[inline(always)]
fn number(numbers: &[i32], k: usize) -> i64
    requires k { k < length numbers.now }
    requires within { AreWithin (2 ^ 24) numbers.now }
    ensures value { result ≡ number numbers.now k }
    ensures bounded { Bounded (2 ^ 24) result }
{
    i64::from(numbers[k])
}

// Parts of 65536, rounded down. `div_euclid` would be six instructions.
#[inline(always)]
fn floored(parts: i64) -> i64
    ensures { result ≡ floor_of parts (pos 65536) }
{
    parts >> 16
}

// The floor of a sum of terms over 65536.
#[inline(always)]
fn floor_of_sum(a: i64, b: i64, c: i64) -> i64
    requires a { Bounded (2 ^ 60) a }
    requires b { Bounded (2 ^ 60) b }
    requires c { Bounded (2 ^ 60) c }
    ensures value { result ≡ floor_of ((a +ℤ b) +ℤ c) (pos 65536) }
    ensures bounded { Bounded (2 ^ 62) result }
{
    floored(a + b + c)
}

/// What a row of a camera adds up for a vertex: a factor's product on each axis.
#[derive(Clone, Copy)]
pub(crate) struct Products {
    pub(crate) x: i64,
    pub(crate) y: i64,
    pub(crate) z: i64,
}

impl Camera {
    /// The products of the row that begins at number r.
    #[inline(always)]
    pub(crate) fn products(&self, r: usize, v: &[i32; 3]) -> Products
        requires row { r + 4 ≤ 12 }
        requires camera { AreWithin (2 ^ 24) self.now.0 }
        requires vertex { AreWithin (2 ^ 24) v.now }
        ensures { AreProducts self.now.0 r v.now result }
    {
        Products {
            x: product(number(&self.0, r), number(v, 0)),
            y: product(number(&self.0, r + 1), number(v, 1)),
            z: product(number(&self.0, r + 2), number(v, 2)),
        }
    }

    /// The coordinate that the row from number r gives of a product on each axis.
    #[inline(always)]
    pub(crate) fn added_up(&self, r: usize, x: i64, y: i64, z: i64) -> i64
        requires row { r + 4 ≤ 12 }
        requires camera { AreWithin (2 ^ 24) self.now.0 }
        requires x { Bounded (2 ^ 60) x }
        requires y { Bounded (2 ^ 60) y }
        requires z { Bounded (2 ^ 60) z }
        ensures { result ≡ floor_of ((x +ℤ y) +ℤ z) (pos 65536) +ℤ number self.now.0 (r + 3) }
    {
        floor_of_sum(x, y, z) + number(&self.0, r + 3)
    }

    // The coordinate of the row that begins at number r.
    #[inline(always)]
    fn coordinate(&self, r: usize, v: &[i32; 3]) -> i64
        requires row { r + 4 ≤ 12 }
        requires camera { AreWithin (2 ^ 24) self.now.0 }
        requires vertex { AreWithin (2 ^ 24) v.now }
        ensures { result ≡ coordinate_of self.now.0 r v.now }
    {
        let Products { x, y, z } = self.products(r, v);
        self.added_up(r, x, y, z)
    }

    /// Where a vertex lies: x, y and w, each a floor and then an offset. Condition: the camera's numbers and the
    /// vertex's are at most 2^24 away from 0.
    #[inline(always)]
    #[tactic(auto, unfolding(crate::specs::Clip::clip_of))]
    pub fn clip(&self, v: &[i32; 3]) -> ClipVertex
        requires camera { AreWithin (2 ^ 24) self.now.0 }
        requires vertex { AreWithin (2 ^ 24) v.now }
        ensures { result ≡ clip_of self.now.0 v.now }
    {
        ClipVertex {
            x: self.coordinate(0, v),
            y: self.coordinate(4, v),
            w: self.coordinate(8, v),
        }
    }
}
