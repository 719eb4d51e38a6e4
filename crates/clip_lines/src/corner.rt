//! Corners of triangles, in so few bits that their products fit.
ghost use Rattle.std.specs.Prelude.{◌≡◌, ℕ, ℤ, ◌+◌, ◌*◌, ◌^◌, ◌<◌, ◌≤◌, ◌↔◌, nat_abs};
ghost use Rattle.std.specs.List.{All};
ghost use Rattle.cull_base.specs.Bounds.{Bounded};
ghost use Rattle.exact_clip.specs.Clip.{Clip};
ghost use Rattle.exact_clip.specs.Held.{IsHeld, Holds};
ghost use Rattle.clip_lines.specs.Lines.{IsWithin, StandsFor};
ghost use Rattle.clip_lines.specs.Parts.{of_corner, norm_of, IsSized, IsShifted, IsFloor};

use exact_clip::Held;

/// What a corner's coordinate has, without its sign, so that the sum of three lines fits 64.
const CORNER_BITS: u32 = 30;

/// A step is 4 units at least, which is what held coordinates are known to.
const LEAST_SHIFT: u32 = 2;

/// A clip point in steps of units times a power of two: the exact one is at most a step away along each axis.
#[derive(Clone, Copy, Debug, PartialEq, Eq)]
pub struct Corner {
    pub x: i64,
    pub y: i64,
    pub w: i64,
}

// The greatest size of a coordinate.
#[inline(always)]
fn greatest_part(v: &Held) -> u64
    ensures { (s : ℕ) → (result < 2 ^ (30 + s)) ↔ IsShifted s v.now }
{
    v.x.unsigned_abs()
        .max(v.y.unsigned_abs())
        .max(v.w.unsigned_abs())
}

// The least shift, from `LEAST_SHIFT` on, that leaves `CORNER_BITS` bits of a size.
#[inline(always)]
fn shift_below(greatest: u64) -> u32
    ensures least { 2 ≤ result }
    ensures most { result ≤ 34 }
    ensures enough { greatest < 2 ^ (30 + result) }
    ensures no_more { (s : ℕ) → 2 ≤ s → greatest < 2 ^ (30 + s) → result ≤ s }
{
    (64 - greatest.leading_zeros()).max(CORNER_BITS + LEAST_SHIFT) - CORNER_BITS
}

/// The least shift, from 2 on, after which each coordinate is below 2^30.
#[inline(always)]
pub fn shift_of(corners: &[Held]) -> u32
    ensures least { 2 ≤ result }
    ensures most { result ≤ 34 }
    ensures enough { All (IsShifted result) corners.now }
    ensures no_more { (s : ℕ) → 2 ≤ s → All (IsShifted s) corners.now → result ≤ s }
{
    let mut greatest = 0;
    for v in corners {
        greatest = greatest.max(greatest_part(v));
    }
    shift_below(greatest)
}

// So many units over a power of two, rounded down.
#[inline(always)]
fn shifted(units: i64, shift: u32) -> i64
    requires { shift ≤ 34 }
    ensures { IsFloor units (2 ^ shift) result }
{
    units >> shift
}

// The steps at or below so many units, and one more, since what is held lies below.
#[inline(always)]
fn steps_of(units: i64, shift: u32) -> i64
    requires least { 2 ≤ shift }
    requires most { shift ≤ 34 }
    requires small { nat_abs units < 2 ^ (30 + shift) }
    ensures bounded { Bounded (2 ^ 30) result }
    ensures near { (unit : ℕ) (exact : ℤ) → IsHeld unit units exact → IsWithin (unit * 2 ^ shift) 1 result exact }
{
    shifted(units, shift) + 1
}

impl Corner {
    /// A point in steps of 2^shift units. Condition: the shift is one of `shift_of`, for this point among others.
    #[inline(always)]
    pub fn of(v: &Held, shift: u32) -> Corner
        requires least { 2 ≤ shift }
        requires most { shift ≤ 34 }
        requires small { IsShifted shift v.now }
        ensures sized { IsSized (2 ^ 30) (of_corner result) }
        ensures stands { (unit : ℕ) (exact : Clip) → Holds unit v.now exact
            → StandsFor (unit * 2 ^ shift) 1 (of_corner result) exact }
    {
        Corner {
            x: steps_of(v.x, shift),
            y: steps_of(v.y, shift),
            w: steps_of(v.w, shift),
        }
    }

    // The sizes of the coordinates, added up.
    #[inline(always)]
    pub(crate) fn norm(&self) -> u64
        requires { IsSized (2 ^ 30) (of_corner self.now) }
        ensures value { result ≡ norm_of (of_corner self.now) }
        ensures most { result ≤ 3 * 2 ^ 30 }
    {
        self.x.unsigned_abs() + self.y.unsigned_abs() + self.w.unsigned_abs()
    }
}
