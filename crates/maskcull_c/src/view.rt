//! How a program's floats are seen: the matrix, the near distance, the screen. Floats are taken by their bits.
ghost use Rattle.std.specs.Prelude.{◌≡◌, ◌≤◌, ◌↔◌, IsTrue, IfSome, MatchOption, length};
ghost use Rattle.maskcull_c.specs.Floats.{IsView, position_count};
ghost use Rattle.maskcull_c.specs.Given.{IsSetup, size_of};

use crate::given::{Checked, Setup};

/// The rows of a matrix for x, y and w, four floats each, and the near distance, which is one in w. A position begins
/// `stride` floats behind the last, at least 3. The screen has 1 to as many pixels as the setup's, along each axis. What
/// is said of a pixel holds at each point of a square around its middle, whose sides are `reach` sixteenths of a pixel
/// away, 0 to 64: 8 is all of the pixel. What hides is nearer by `share` parts of 2^24, 0 to 2^20.
#[derive(Clone, Copy)]
#[repr(C)]
pub struct View {
    pub rows: [u32; 12],
    pub near_distance: u32,
    pub reach: u32,
    pub share: u32,
    pub stride: u32,
    pub width: u32,
    pub height: u32,
}

/// The least and the greatest coordinates of a box, x, y and z, by the bits of floats.
#[derive(Clone, Copy)]
#[repr(C)]
pub struct Bounds {
    pub low: [u32; 3],
    pub high: [u32; 3],
}

impl View {
    /// Whether it may be used with a setup.
    fn is_allowed(&self, setup: &Setup) -> bool
        ensures { IsTrue result ↔ IsView setup.now self.now }
    {
        self.reach <= 64
            && self.share <= 0x10_0000
            && 3 <= self.stride
            && 1 <= self.width
            && self.width <= setup.width
            && 1 <= self.height
            && self.height <= setup.height
    }

    /// A setup that is right and that the view may be used with. None exactly where it isn't.
    pub(crate) fn checked(&self, setup: &Setup) -> Option<Checked>
        ensures none { MatchOption result (IsSetup setup.now → IsView setup.now self.now → ⊥)
            (λ c. IsSetup setup.now × IsView setup.now self.now) }
        ensures size { IfSome result (λ c. c.size ≡ size_of setup.now) }
    {
        let checked = setup.checked()?;
        if self.is_allowed(setup) {
            Some(checked)
        } else {
            None
        }
    }

    /// How many positions some floats are. Condition: a position has at least three.
    pub(crate) fn position_count(&self, positions: &[u32]) -> usize
        requires { 3 ≤ self.now.stride }
        ensures { result ≡ position_count self.now.stride (length positions.now) }
    {
        if positions.len() < 3 {
            return 0;
        }
        (positions.len() - 3) / self.stride as usize + 1
    }
}
