//! The forms of a triangle, or of a quad of two triangles, and the certificate of a corner by them.
ghost use Rattle.std.specs.Prelude.{ℕ, pos, ◌^◌, ◌≤◌, ◌≤ℤ◌, IfSome, IsSome};
ghost use Rattle.cull_base.specs.Grade.{top_of};

use crate::eye::Eye;
use crate::form::Form;
use crate::nearness_form::NearnessForm;

/// What a quad has beyond its first triangle.
#[derive(Clone, Copy)]
pub struct Half {
    pub edge: Form,
    pub plane: NearnessForm,
}

/// The edges' forms aren't negative inside, and the planes' say how near it is: a triangle has three edges and a plane, a
/// quad four and two.
#[derive(Clone, Copy)]
pub struct Forms {
    pub first: Form,
    pub second: Form,
    pub third: Form,
    pub plane: NearnessForm,
    pub other: Option<Half>,
}

impl Half {
    ghost use Rattle.cull_base.specs.Bounds.{Bounded};
    ghost use Rattle.cull_base.specs.Piece.{point};
    ghost use Rattle.cull_base.specs.declared.nearness.TheConstants.{HELD_TOP};
    ghost use Rattle.pixel_forms.specs.Seen.{nearest_of};
    ghost use Rattle.pixel_forms.specs.Forms.{least_at, IsSmall};
    ghost use Rattle.pixel_forms.specs.Certified.{IsSeen, IsAtMost};
    ghost use Rattle.pixel_forms.specs.Nearness.{IsSmallNearness};

    // The nearness at (x, y), where it is inside the edge.
    fn nearness(&self, eye: &Eye, x: i32, y: i32) -> Option<u32>
        requires edge { IsSmall self.now.edge }
        requires plane { IsSmallNearness self.now.plane }
        requires x { Bounded (2 ^ 15) x }
        requires y { Bounded (2 ^ 15) y }
        ensures inside { IfSome result (λ q. pos 0 ≤ℤ least_at self.now.edge (point x y)) }
        ensures seen { IfSome result (λ q. IsSeen self.now.plane (point x y)) }
        ensures at_most { IfSome result (λ q. IsAtMost (nearest_of eye.now) self.now.plane (point x y) q) }
        ensures greatest { IfSome result (λ q. (r : ℕ) → r ≤ top_of eye.now.grade
            → IsAtMost (nearest_of eye.now) self.now.plane (point x y) r → r ≤ q) }
        ensures given { pos 0 ≤ℤ least_at self.now.edge (point x y) → IsSeen self.now.plane (point x y) → IsSome result }
        ensures held { IfSome result (λ q. q ≤ HELD_TOP) }
    {
        if self.edge.least(x, y) < 0 {
            None
        } else {
            self.plane.nearness(eye, x, y)
        }
    }
}

impl Forms {
    ghost use Rattle.cull_base.specs.Bounds.{Bounded};
    ghost use Rattle.cull_base.specs.Piece.{point};
    ghost use Rattle.cull_base.specs.declared.nearness.TheConstants.{HELD_TOP};
    ghost use Rattle.pixel_forms.specs.Seen.{nearest_of};
    ghost use Rattle.pixel_forms.specs.Certified.{IsInside, IsCertified};
    ghost use Rattle.pixel_forms.specs.Nearness.{AreSmall};

    /// The greatest nearness with which (x, y), in sixteenths of a pixel, is certified as a corner of a piece. None: it isn't.
    /// Condition: both lie within 2^15.
    pub fn nearness_at(&self, eye: &Eye, x: i32, y: i32) -> Option<u32>
        requires small { AreSmall self.now }
        requires x { Bounded (2 ^ 15) x }
        requires y { Bounded (2 ^ 15) y }
        ensures certified { IfSome result (IsCertified (nearest_of eye.now) self.now (point x y)) }
        ensures greatest { IfSome result (λ q. (r : ℕ) → r ≤ top_of eye.now.grade
            → IsCertified (nearest_of eye.now) self.now (point x y) r → r ≤ q) }
        ensures given { IsInside self.now (point x y) → IsSome result }
        ensures held { IfSome result (λ q. q ≤ HELD_TOP) }
    {
        if self.first.least(x, y) < 0 || self.second.least(x, y) < 0 || self.third.least(x, y) < 0 {
            return None;
        }
        let nearness = self.plane.nearness(eye, x, y)?;
        match &self.other {
            None => Some(nearness),
            Some(half) => Some(nearness.min(half.nearness(eye, x, y)?)),
        }
    }
}
