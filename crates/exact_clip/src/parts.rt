//! What the coordinates of a position add to its clip coordinates, each by itself.
ghost use Rattle.std.specs.Prelude.{◌≡◌, ◌^◌, ◌+ℤ◌};
ghost use Rattle.cull_base.specs.Bounds.{Bounded};
ghost use Rattle.exact_clip.specs.Terms.{AreSmall, IsSum};

use crate::held::Held;

/// By x, by y and by z.
#[derive(Clone, Copy)]
pub(crate) struct Parts {
    pub(crate) x: Held,
    pub(crate) y: Held,
    pub(crate) z: Held,
}

#[inline(always)]
fn sum_of_four(a: i64, b: i64, c: i64, d: i64) -> i64
    requires a { Bounded (2 ^ 60) a }
    requires b { Bounded (2 ^ 60) b }
    requires c { Bounded (2 ^ 60) c }
    requires d { Bounded (2 ^ 60) d }
    ensures { result ≡ ((a +ℤ b) +ℤ c) +ℤ d }
{
    a + b + c + d
}

/// The clip coordinates of a position by its three parts and the matrix's last column.
#[inline(always)]
pub(crate) fn sum(x: &Held, y: &Held, z: &Held, last: &Held) -> Held
    requires x { AreSmall x.now }
    requires y { AreSmall y.now }
    requires z { AreSmall z.now }
    requires last { AreSmall last.now }
    ensures { IsSum x.now y.now z.now last.now result }
{
    Held {
        x: sum_of_four(x.x, y.x, z.x, last.x),
        y: sum_of_four(x.y, y.y, z.y, last.y),
        w: sum_of_four(x.w, y.w, z.w, last.w),
    }
}
