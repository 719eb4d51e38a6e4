//! Halves of space whose face goes through the eye.
ghost use Rattle.std.specs.Prelude.{◌≡◌, ℕ, ℤ, pos, neg_ℤ, ◌*◌, ◌^◌, ◌≤◌, ◌<◌, ◌+ℤ◌, ◌-ℤ◌, ◌*ℤ◌, ◌≤ℤ◌, ◌<ℤ◌, List, true};
ghost use Rattle.std.specs.List.{All, AllZip};
ghost use Rattle.cull_base.specs.Bounds.{Bounded};
ghost use Rattle.exact_clip.specs.Clip.{Clip};
ghost use Rattle.exact_clip.specs.Held.{Holds};
ghost use Rattle.box_rays.specs.Corners.{IsAbout, IsShort, IsSmall, StandsFor};
ghost use Rattle.box_rays.specs.HalfSpaces.{IsIn, IsNarrow};

use crate::corner::Corner;
use exact_clip::Held;

/// The clip points where the sum of their coordinates, each times one of these, is positive. Downwards is against y.
#[derive(Clone, Copy)]
pub(crate) struct HalfSpace {
    pub(crate) across: i64,
    pub(crate) down: i64,
    pub(crate) w: i64,
}

#[inline(always)]
fn product(times: i64, steps: i64) -> i64
    requires times { Bounded (2 ^ 11) times }
    requires steps { Bounded (2 ^ 49) steps }
    ensures value { result ≡ times *ℤ steps }
    ensures bounded { Bounded (2 ^ 60) result }
{
    times * steps
}

#[inline(always)]
fn sum(across: i64, down: i64, w: i64) -> i64
    requires across { Bounded (2 ^ 60) across }
    requires down { Bounded (2 ^ 60) down }
    requires w { Bounded (2 ^ 60) w }
    ensures { result ≡ (across +ℤ down) +ℤ w }
{
    across + down + w
}

// What a number that is known in steps lies below, or at.
#[inline(always)]
fn upper_bound(steps: i64) -> i64
    requires { Bounded (2 ^ 48) steps }
    ensures value { result ≡ steps +ℤ pos 2 }
    ensures bounded { Bounded (2 ^ 49) result }
{
    steps + 2
}

// The least that so many times a number can be, which is known in steps.
#[inline(always)]
fn least_product(times: i64, steps: i64) -> i64
    requires times { Bounded (2 ^ 11) times }
    requires steps { Bounded (2 ^ 48) steps }
    ensures least { (step : ℕ) → (exact : ℤ) → IsAbout step steps exact → (result *ℤ pos step) ≤ℤ (times *ℤ exact) }
    ensures bounded { Bounded (2 ^ 60) result }
{
    if times < 0 {
        product(times, upper_bound(steps))
    } else {
        product(times, steps)
    }
}

// Twice as far as a place lies before the middle of so many pixels.
#[inline(always)]
fn before_middle(place: u32, pixels: u32) -> i64
    requires place { place ≤ pixels }
    requires pixels { pixels ≤ 2048 }
    ensures value { result ≡ pos pixels -ℤ pos (2 * place) }
    ensures narrow { Bounded (2 ^ 11) result }
{
    i64::from(pixels) - 2 * i64::from(place)
}

// Twice as far as it lies behind the middle.
#[inline(always)]
fn behind_middle(place: u32, pixels: u32) -> i64
    requires place { place ≤ pixels }
    requires pixels { pixels ≤ 2048 }
    ensures value { result ≡ pos (2 * place) -ℤ pos pixels }
    ensures narrow { Bounded (2 ^ 11) result }
{
    2 * i64::from(place) - i64::from(pixels)
}

#[inline(always)]
fn negated(pixels: u32) -> i64
    requires { pixels ≤ 2048 }
    ensures value { result ≡ neg_ℤ (pos pixels) }
    ensures narrow { Bounded (2 ^ 11) result }
{
    -i64::from(pixels)
}

impl HalfSpace {
    /// Ahead of the eye.
    #[inline(always)]
    pub(crate) fn ahead() -> HalfSpace
        ensures { IsNarrow result }
    {
        HalfSpace {
            across: 0,
            down: 0,
            w: 1,
        }
    }

    /// Behind the eye.
    #[inline(always)]
    pub(crate) fn behind() -> HalfSpace
        ensures narrow { IsNarrow result }
        ensures behind { (p : Clip) → IsIn result p → p.w <ℤ pos 0 }
    {
        HalfSpace {
            across: 0,
            down: 0,
            w: -1,
        }
    }

    /// What is seen to the right of the place where a column of the screen begins.
    #[inline(always)]
    pub(crate) fn right_of(column: u32, width: u32) -> HalfSpace
        requires column { column ≤ width }
        requires width { width ≤ 2048 }
        ensures narrow { IsNarrow result }
        ensures right { (p : Clip) → IsIn result p → (pos (2 * column) *ℤ p.w) <ℤ (pos width *ℤ (p.x +ℤ p.w)) }
    {
        HalfSpace {
            across: i64::from(width),
            down: 0,
            w: before_middle(column, width),
        }
    }

    /// What is seen to the left of it.
    #[inline(always)]
    pub(crate) fn left_of(column: u32, width: u32) -> HalfSpace
        requires column { column ≤ width }
        requires width { width ≤ 2048 }
        ensures narrow { IsNarrow result }
        ensures left { (p : Clip) → IsIn result p → (pos width *ℤ (p.x +ℤ p.w)) <ℤ (pos (2 * column) *ℤ p.w) }
    {
        HalfSpace {
            across: negated(width),
            down: 0,
            w: behind_middle(column, width),
        }
    }

    /// What is seen below the place where a row of the screen begins.
    #[inline(always)]
    pub(crate) fn below(row: u32, height: u32) -> HalfSpace
        requires row { row ≤ height }
        requires height { height ≤ 2048 }
        ensures narrow { IsNarrow result }
        ensures below { (p : Clip) → IsIn result p → (pos (2 * row) *ℤ p.w) <ℤ (pos height *ℤ (p.w -ℤ p.y)) }
    {
        HalfSpace {
            across: 0,
            down: i64::from(height),
            w: before_middle(row, height),
        }
    }

    /// What is seen above it.
    #[inline(always)]
    pub(crate) fn above(row: u32, height: u32) -> HalfSpace
        requires row { row ≤ height }
        requires height { height ≤ 2048 }
        ensures narrow { IsNarrow result }
        ensures above { (p : Clip) → IsIn result p → (pos height *ℤ (p.w -ℤ p.y)) <ℤ (pos (2 * row) *ℤ p.w) }
    {
        HalfSpace {
            across: 0,
            down: negated(height),
            w: behind_middle(row, height),
        }
    }

    /// Whether a corner certainly lies in it.
    #[inline(always)]
    pub(crate) fn has(&self, corner: &Corner) -> bool
        requires narrow { IsNarrow self.now }
        requires small { IsSmall corner.now }
        ensures { result ≡ true → (step : ℕ) → (exact : Clip) → StandsFor step corner.now exact → IsIn self.now exact }
    {
        let across = least_product(self.across, corner.across);
        let down = least_product(self.down, corner.down);
        let w = least_product(self.w, corner.w);
        0 < sum(across, down, w)
    }

    /// Whether all corners certainly lie in it.
    pub(crate) fn has_all(&self, corners: &[Held], shift: u32) -> bool
        requires narrow { IsNarrow self.now }
        requires least { 2 ≤ shift }
        requires most { shift < 64 }
        requires short { All (IsShort shift) corners.now }
        ensures { result ≡ true → (unit : ℕ) → (points : List Clip) → AllZip (Holds unit) corners.now points → All (IsIn self.now) points }
    {
        for v in corners {
            if !self.has(&Corner::of(v, shift)) {
                return false;
            }
        }
        true
    }
}
