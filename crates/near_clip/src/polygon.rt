//! What is left of a triangle at the near plane.
ghost use Rattle.std.specs.Prelude.{◌≡◌, [], ◌∷◌, ◌<◌, ◌≤◌, ◌≢◌, length, slice_index_or};

use crate::hom_point::HomPoint;
use std::marker::Model;

/// A polygon in front of the near plane: no points, three or four, in order.
#[derive(Drop)]
pub struct Polygon {
    points: [HomPoint; 4],
    len: u8,
}

impl Model for Polygon {
    ghost use Rattle.std.specs.Prelude.{◌≡◌, ◌≤◌, ◌≢◌, List, length, take};
    ghost use Rattle.near_clip.specs.declared.hom_point.HomPoint.{HomPoint};

    ghost Value = { List HomPoint };

    ghost view = { λ p. take p.len p.points };

    ghost invariant = { λ p. (length p.points ≡ 4) × (p.len ≤ 4) × (p.len ≢ 1) × (p.len ≢ 2) };
}

impl Polygon {
    pub(crate) fn none() -> Polygon
        ensures { result ≡ [] }
    {
        let unused = HomPoint {
            x: 0,
            y: 0,
            w: 0,
            scale: 1,
        };
        Polygon {
            points: [unused; 4],
            len: 0,
        }
    }

    pub(crate) fn triangle(p: HomPoint, q: HomPoint, r: HomPoint) -> Polygon
        ensures { result ≡ p ∷ q ∷ r ∷ [] }
    {
        Polygon {
            points: [p, q, r, r],
            len: 3,
        }
    }

    pub(crate) fn quad(p: HomPoint, q: HomPoint, r: HomPoint, s: HomPoint) -> Polygon
        ensures { result ≡ p ∷ q ∷ r ∷ s ∷ [] }
    {
        Polygon {
            points: [p, q, r, s],
            len: 4,
        }
    }

    /// How many points: 0, 3 or 4.
    pub fn len(&self) -> u8
        ensures value { result ≡ length self.now }
        ensures most { result ≤ 4 }
        ensures not_one { result ≢ 1 }
        ensures not_two { result ≢ 2 }
    {
        self.len
    }

    /// Point i. Condition: i is below the length.
    pub fn get(&self, i: u8) -> HomPoint
        requires { i < length self.now }
        ensures { result ≡ slice_index_or self.now i result }
    {
        self.points[usize::from(i)]
    }
}
