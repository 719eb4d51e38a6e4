//! Which part of a triangle lies in front of the near plane.
ghost use Rattle.std.specs.Prelude.{◌≡◌, ℤ, ◌+ℤ◌, ◌-ℤ◌, ◌*ℤ◌, ◌^◌, ◌≤◌, [], false, ◌↔◌};
ghost use Rattle.std.specs.List.{All};
ghost use Rattle.cull_base.specs.Bounds.{Bounded};
ghost use Rattle.cull_base.specs.Guard.{is_past_guard};
ghost use Rattle.near_clip.specs.NearPart.{corner, is_in_front, whole, cut_point, near_part};
ghost use Rattle.near_clip.specs.Reach.{IsInReach};

use crate::hom_point::HomPoint;
use crate::polygon::Polygon;
use cull_base::ClipVertex;
use cull_base::arithmetic::product;

/// Whether a vertex lies in front of the near plane, or on it.
#[inline(always)]
pub fn is_in_front(v: &ClipVertex, near: u16) -> bool
    ensures { result ≡ is_in_front v.now near }
{
    i64::from(near) <= v.w
}

/// A vertex itself as a point, with scale 1.
#[inline(always)]
pub fn whole(v: &ClipVertex) -> HomPoint
    ensures { result ≡ whole v.now }
{
    HomPoint {
        x: v.x,
        y: v.y,
        w: v.w,
        scale: 1,
    }
}

// a - b, of numbers that are as far from 0 as the guard lets them be.
#[inline(always)]
fn narrow_difference(a: i64, b: i64) -> i64
    requires a { Bounded (2 ^ 24) a }
    requires b { Bounded (2 ^ 24) b }
    ensures value { result ≡ a -ℤ b }
    ensures bounded { Bounded (2 ^ 25) result }
{
    a - b
}

// p * b + q * a
#[inline(always)]
fn weighted_sum(p: i64, b: i64, q: i64, a: i64) -> i64
    requires p { Bounded (2 ^ 25) p }
    requires b { Bounded (2 ^ 24) b }
    requires q { Bounded (2 ^ 25) q }
    requires a { Bounded (2 ^ 24) a }
    ensures { result ≡ (p *ℤ b) +ℤ (q *ℤ a) }
{
    product(p, b) + product(q, a)
}

// The point of the edge from `inside` to `outside` that lies on the near plane.
fn cut(inside: &ClipVertex, outside: &ClipVertex, near: u16) -> HomPoint
    requires near { near ≤ 1024 }
    requires inside { is_past_guard inside.now near ≡ false }
    requires outside { is_past_guard outside.now near ≡ false }
    ensures { result ≡ cut_point inside.now outside.now near }
{
    let distance = i64::from(near);
    let p = narrow_difference(inside.w, distance);
    let q = narrow_difference(distance, outside.w);
    HomPoint {
        x: weighted_sum(p, outside.x, q, inside.x),
        y: weighted_sum(p, outside.y, q, inside.y),
        w: weighted_sum(p, outside.w, q, inside.w),
        scale: narrow_difference(inside.w, outside.w),
    }
}

#[tactic(auto, unfolding(crate::specs::NearPart::near_part))]
fn part(v0: &ClipVertex, v1: &ClipVertex, v2: &ClipVertex, near: u16) -> Polygon
    requires near { near ≤ 1024 }
    requires v0 { is_past_guard v0.now near ≡ false }
    requires v1 { is_past_guard v1.now near ≡ false }
    requires v2 { is_past_guard v2.now near ≡ false }
    ensures { result ≡ near_part v0.now v1.now v2.now near }
{
    match (
        is_in_front(v0, near),
        is_in_front(v1, near),
        is_in_front(v2, near),
    ) {
        (true, true, true) => Polygon::triangle(whole(v0), whole(v1), whole(v2)),
        (true, true, false) => {
            Polygon::quad(whole(v0), whole(v1), cut(v1, v2, near), cut(v0, v2, near))
        }
        (true, false, true) => {
            Polygon::quad(whole(v0), cut(v0, v1, near), cut(v2, v1, near), whole(v2))
        }
        (false, true, true) => {
            Polygon::quad(cut(v1, v0, near), whole(v1), whole(v2), cut(v2, v0, near))
        }
        (true, false, false) => Polygon::triangle(whole(v0), cut(v0, v1, near), cut(v0, v2, near)),
        (false, true, false) => Polygon::triangle(cut(v1, v0, near), whole(v1), cut(v1, v2, near)),
        (false, false, true) => Polygon::triangle(cut(v2, v0, near), cut(v2, v1, near), whole(v2)),
        (false, false, false) => Polygon::none(),
    }
}

/// The part of a triangle in front of the near plane, or on it. Condition: `near` is 1 to 1024 and no vertex is
/// past the guard.
pub fn clip_near(tri: &[ClipVertex; 3], near: u16) -> Polygon
    requires near_least { 1 ≤ near }
    requires near_most { near ≤ 1024 }
    requires guarded { All (λ v. is_past_guard v near ≡ false) tri.now }
    ensures value { result ≡ near_part (corner tri.now 0) (corner tri.now 1) (corner tri.now 2) near }
    ensures reach { All (IsInReach near) result }
    ensures empty { (result ≡ []) ↔ All (λ v. is_in_front v near ≡ false) tri.now }
{
    let [v0, v1, v2] = tri;
    part(v0, v1, v2, near)
}
