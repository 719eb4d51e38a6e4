//! How far the corners of a box reach in clip space.
ghost use Rattle.std.specs.Prelude.{◌≡◌, ◌<◌, pos, int_lt, length};
ghost use Rattle.std.specs.Int.{int_min, int_max};
ghost use Rattle.rect_query.specs.Reaches.{limits_of, are_beyond};
ghost use Rattle.rect_query.specs.Reaches.{reach_of, reach_with, reach_of_all, is_reach_astray};

use cull_base::{ClipVertex, Near};

/// The guard in near distances.
const GUARD: u32 = 16384;

/// The least and the greatest of some numbers.
#[derive(Clone, Copy)]
pub(crate) struct Limits {
    pub(crate) least: i64,
    pub(crate) greatest: i64,
}

impl Limits {
    #[inline(always)]
    fn of(value: i64) -> Limits
        ensures { result ≡ limits_of value }
    {
        Limits {
            least: value,
            greatest: value,
        }
    }

    // The same numbers and one more.
    #[inline(always)]
    fn with(self, value: i64) -> Limits
        ensures least { result.least ≡ int_min self.least value }
        ensures greatest { result.greatest ≡ int_max self.greatest value }
    {
        Limits {
            least: self.least.min(value),
            greatest: self.greatest.max(value),
        }
    }

    // Whether some number lies further from 0 than this.
    #[inline(always)]
    fn are_beyond(&self, limit: u32) -> bool
        ensures { result ≡ are_beyond limit self.now }
    {
        let limit = i64::from(limit);
        (self.least < -limit) | (limit < self.greatest)
    }
}

/// The least and the greatest of each coordinate of some vertices.
#[derive(Clone, Copy)]
pub(crate) struct Reach {
    pub(crate) x: Limits,
    pub(crate) y: Limits,
    pub(crate) w: Limits,
}

impl Reach {
    #[inline(always)]
    fn of(v: &ClipVertex) -> Reach
        ensures { result ≡ reach_of v.now }
    {
        Reach {
            x: Limits::of(v.x),
            y: Limits::of(v.y),
            w: Limits::of(v.w),
        }
    }

    // The same vertices and one more.
    #[inline(always)]
    fn with(self, v: &ClipVertex) -> Reach
        ensures { result ≡ reach_with self v.now }
    {
        Reach {
            x: self.x.with(v.x),
            y: self.y.with(v.y),
            w: self.w.with(v.w),
        }
    }

    /// How far all corners reach.
    #[inline(always)]
    pub(crate) fn of_all(corners: &[ClipVertex; 8]) -> Reach
        ensures value { result ≡ reach_of_all corners.now }
        ensures some { 0 < length corners.now }
    {
        let rest = &corners[1..];
        let mut reach = Reach::of(&corners[0]);
        for corner in rest {
            reach = reach.with(corner);
        }
        reach
    }

    /// Whether all vertices lie before the near distance.
    #[inline(always)]
    pub(crate) fn is_behind(&self, near: u16) -> bool
        ensures { result ≡ int_lt self.now.w.greatest (pos near) }
    {
        self.w.greatest < i64::from(near)
    }

    /// Whether a vertex is past the guard or behind the near plane.
    #[inline(always)]
    pub(crate) fn is_astray(&self, near: Near) -> bool
        ensures { result ≡ is_reach_astray near.distance self.now }
    {
        let limit = GUARD * u32::from(near.distance);
        let beyond = self.x.are_beyond(limit) | self.y.are_beyond(limit) | self.w.are_beyond(limit);
        beyond | (self.w.least < i64::from(near.distance))
    }
}
