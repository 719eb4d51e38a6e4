//! How triangles are seen.
ghost use Rattle.std.specs.Prelude.{◌≡◌, ◌+◌, ◌*◌, ◌<◌, ◌≤◌, ◌^◌, max};

use cull_base::{Grade, Winding};

/// The near distance in units, the screen in pixels, the half side of the square around a sample in sixteenths of a
/// pixel, and which triangles count.
#[derive(Clone, Copy)]
pub struct Eye {
    pub near: u32,
    pub width: u32,
    pub height: u32,
    pub reach: u32,
    pub grade: Grade,
    pub winding: Winding,
    ghost near_positive: { 0 < near },
    ghost near_within: { near < 2 ^ 31 },
    ghost width_within: { width ≤ 2048 },
    ghost height_within: { height ≤ 2048 },
    ghost reach_within: { reach ≤ 64 },
}

impl Eye {
    ghost use Rattle.cull_base.specs.Grade.{top_of};
    ghost use Rattle.pixel_forms.specs.Seen.{keeps_turned, nearest_of, whole_of, span_of};

    /// Condition: the near distance is above 0 and below 2^31, the screen at most 2048 pixels wide and high, the reach at
    /// most 64.
    pub fn new(
        near: u32,
        width: u32,
        height: u32,
        reach: u32,
        grade: Grade,
        winding: Winding,
    ) -> Eye
        requires near_positive { 0 < near }
        requires near_within { near < 2 ^ 31 }
        requires width_within { width ≤ 2048 }
        requires height_within { height ≤ 2048 }
        requires reach_within { reach ≤ 64 }
        ensures near { result.near ≡ near }
        ensures width { result.width ≡ width }
        ensures height { result.height ≡ height }
        ensures reach { result.reach ≡ reach }
        ensures grade { result.grade ≡ grade }
        ensures winding { result.winding ≡ winding }
    {
        Eye {
            near,
            width,
            height,
            reach,
            grade,
            winding,
        }
    }

    /// The near distance times the top of nearness.
    #[inline(always)]
    pub(crate) fn nearest(&self) -> u64
        ensures value { result ≡ nearest_of self.now }
        ensures within { result < 2 ^ 55 }
    {
        u64::from(self.grade.top()) * u64::from(self.near)
    }

    /// What a ray through a pixel is long along w, in sixteenths.
    #[inline(always)]
    pub(crate) fn whole(&self) -> u32
        ensures value { result ≡ whole_of self.now }
        ensures within { result ≤ 2 ^ 25 }
    {
        8 * self.width * self.height
    }

    /// What it is long at most along x and along y.
    #[inline(always)]
    pub(crate) fn span(&self) -> u32
        ensures value { result ≡ span_of self.now }
        ensures within { result ≤ 2 ^ 25 + 2 ^ 17 }
    {
        8 * self.width * self.height + self.reach * self.width.max(self.height)
    }

    /// Whether a triangle counts that runs clockwise, or doesn't.
    #[inline(always)]
    pub(crate) fn keeps(&self, is_turned: bool) -> bool
        ensures { result ≡ keeps_turned self.now.winding is_turned }
    {
        match self.winding {
            Winding::Both => true,
            Winding::DropClockwise => !is_turned,
            Winding::DropCounter => is_turned,
        }
    }
}
