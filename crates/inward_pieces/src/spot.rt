//! Places on the screen and sides of lines, in floats.
ghost use Rattle.std.specs.Prelude.{◌^◌, IfSome};
ghost use Rattle.cull_base.specs.Bounds.{Bounded};

use pixel_forms::{Form, NearnessForm};
use std::num::saturating_f64_to_i32;

/// Farther out than so many sixteenths of a pixel, where lines cross isn't proposed.
const FAR: f64 = 32000.0;

/// By so many sixteenths proposals are moved inward: half of one, since they are rounded, and a little for the floats.
const ROOM: f64 = 0.51;

/// A place in sixteenths of a pixel, y downwards.
#[derive(Clone, Copy, Default)]
pub(crate) struct Spot {
    pub(crate) x: f64,
    pub(crate) y: f64,
}

/// Where a x + b y + c isn't negative.
#[derive(Clone, Copy)]
pub(crate) struct Side {
    a: f64,
    b: f64,
    c: f64,
}

/// A whole number as a float, by its upper and its lower half, of which each is one exactly.
#[inline(always)]
pub(crate) fn float(n: i64) -> f64 {
    let upper = (n >> 32) as i32;
    let lower = (n & 0xffff_ffff) as u32;
    f64::from(upper) * 4294967296.0 + f64::from(lower)
}

/// The whole number closest to a coordinate. None: it is too far out to be certified.
#[inline(always)]
pub(crate) fn rounded(coordinate: f64) -> Option<i32>
    ensures { IfSome result (Bounded (2 ^ 15)) }
{
    let closest = saturating_f64_to_i32((coordinate + 0.5).floor());
    if -0x8000 <= closest && closest <= 0x8000 {
        Some(closest)
    } else {
        None
    }
}

impl Spot {
    /// Whether it can be proposed where lines cross, which may be anywhere.
    #[inline(always)]
    pub(crate) fn is_near(&self) -> bool {
        self.x.abs() < FAR && self.y.abs() < FAR
    }

    /// The place at a part of the way to another.
    #[inline(always)]
    pub(crate) fn towards(&self, other: &Spot, part: f64) -> Spot {
        Spot {
            x: self.x + (other.x - self.x) * part,
            y: self.y + (other.y - self.y) * part,
        }
    }
}

impl Side {
    /// Where a form is certified, also at the closest whole numbers.
    #[inline(always)]
    pub(crate) fn within(form: &Form) -> Side {
        let a = float(form.a);
        let b = float(form.b);
        Side {
            a,
            b,
            c: float(form.c) - float(form.down) - ROOM * (a.abs() + b.abs()),
        }
    }

    /// Where a plane is certified not to be before the near distance, also at the closest whole numbers.
    #[inline(always)]
    pub(crate) fn behind_near(plane: &NearnessForm) -> Side {
        let a = float(plane.form.a);
        let b = float(plane.form.b);
        let c = float(plane.limit) - float(plane.form.c) - float(plane.form.down);
        Side {
            a: -a,
            b: -b,
            c: c - ROOM * (a.abs() + b.abs()),
        }
    }

    #[inline(always)]
    pub(crate) fn value(&self, spot: &Spot) -> f64 {
        self.a * spot.x + self.b * spot.y + self.c
    }

    /// Where the lines of two sides cross: nowhere near where they run side by side.
    #[inline(always)]
    pub(crate) fn crossing(&self, next: &Side) -> Spot {
        let part = 1.0 / (self.a * next.b - next.a * self.b);
        Spot {
            x: (self.b * next.c - next.b * self.c) * part,
            y: (next.a * self.c - self.a * next.c) * part,
        }
    }
}
