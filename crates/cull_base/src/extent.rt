//! How far coordinates reach along one axis.
ghost use Rattle.std.specs.Prelude.{◌≡◌, ℤ};
ghost use Rattle.std.specs.Int.{int_min, int_max};
ghost use Rattle.cull_base.specs.Piece.{first_pixel, end_pixel, least_of, greatest_of};

/// The least and the greatest of some coordinates, in sixteenths of a pixel.
#[derive(Clone, Copy)]
pub struct Extent {
    pub least: i32,
    pub greatest: i32,
}

impl Extent {
    /// The extent of one coordinate.
    #[inline(always)]
    pub fn of(value: i32) -> Extent
        ensures { result ≡ record { least = value; greatest = value } }
    {
        Extent {
            least: value,
            greatest: value,
        }
    }

    /// The extent of the same coordinates and one more.
    #[inline(always)]
    pub fn with(self, value: i32) -> Extent
        ensures least { result.least ≡ int_min self.least value }
        ensures greatest { result.greatest ≡ int_max self.greatest value }
    {
        Extent {
            least: self.least.min(value),
            greatest: self.greatest.max(value),
        }
    }

    /// How far three coordinates reach.
    #[inline(always)]
    pub fn of_three(values: &[i32; 3]) -> Extent
        ensures least { result.least ≡ least_of values.now }
        ensures greatest { result.greatest ≡ greatest_of values.now }
    {
        Extent::of(values[0]).with(values[1]).with(values[2])
    }

    /// The pixel of the least.
    #[inline(always)]
    pub fn first_pixel(self) -> i32
        ensures { result ≡ first_pixel self.least }
    {
        self.least.div_euclid(16)
    }

    /// One past the pixel of the greatest.
    #[inline(always)]
    pub fn end_pixel(self) -> i32
        ensures { result ≡ end_pixel self.greatest }
    {
        self.greatest.div_euclid(16) + 1
    }
}
