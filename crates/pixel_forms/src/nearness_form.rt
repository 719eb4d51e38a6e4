//! What is proportional to a triangle's nearness over the screen.
ghost use Rattle.std.specs.Prelude.{◌≡◌, ℕ, ℤ, pos, ◌+◌, ◌-◌, ◌*◌, ◌^◌, ◌<◌, ◌≤◌, ◌*ℤ◌, ◌≤ℤ◌};

use crate::eye::Eye;
use crate::form::Form;
use crate::narrow_line::NarrowLine;
use clip_lines::Plane;
use cull_base::Divisor;

/// What a divisor has.
const DIVISOR_BITS: u32 = 38;

/// A product with this power of two fits 128 bits.
const GREATEST_POWER: u32 = 88;

/// From here on every quotient is above the top of nearness.
const GREATEST: u128 = 0x8000_0000_0000_0000;

/// The near distance times the top times the form, over the divisor times 2^power, is at most the triangle's nearness.
/// Where the form, and `down` with it, is above `limit`, the triangle may lie before the near distance.
#[derive(Clone, Copy)]
pub struct NearnessForm {
    pub form: Form,
    pub divisor: Divisor,
    pub power: u32,
    pub limit: i64,
}

/// How large a determinant is along a whole ray, at least and at most, in steps of 2^power.
#[derive(Clone, Copy)]
struct Span {
    least: u64,
    most: u64,
    power: u32,
}

#[inline(always)]
fn power_of(greatest: u128) -> u32
    ensures most { result ≤ 90 }
    ensures enough { greatest < 2 ^ (38 + result) }
{
    (128 - greatest.leading_zeros()).max(DIVISOR_BITS) - DIVISOR_BITS
}

#[inline(always)]
fn along(length: u128, whole: u32) -> u128
    requires length { length < 2 ^ 97 }
    requires whole { whole ≤ 2 ^ 25 }
    ensures { result ≡ length * whole }
{
    length * u128::from(whole)
}

#[inline(always)]
fn steps_in(size: u128, power: u32) -> u64
    requires power { power ≤ 90 }
    requires size { size < 2 ^ (38 + power) }
    ensures least { result * 2 ^ power ≤ size }
    ensures most { size < (result + 1) * 2 ^ power }
    ensures small { result < 2 ^ 38 }
{
    (size >> power) as u64
}

#[inline(always)]
fn span_of(length: u128, unsure: u128, whole: u32) -> Span
    requires known { unsure < length }
    requires length { length < 2 ^ 96 }
    requires whole { whole ≤ 2 ^ 25 }
    ensures least { result.least * 2 ^ result.power ≤ (length - unsure) * whole }
    ensures most { (length + unsure) * whole ≤ result.most * 2 ^ result.power }
    ensures small { result.least < 2 ^ 38 }
    ensures positive { 0 < result.most }
    ensures bounded { result.most ≤ 2 ^ 38 }
    ensures power { result.power ≤ 90 }
{
    let greatest = along(length + unsure, whole);
    let power = power_of(greatest);
    Span {
        least: steps_in(along(length - unsure, whole), power),
        most: steps_in(greatest, power) + 1,
        power,
    }
}

// No more than so many steps of 2^power.
#[inline(always)]
fn size_of(steps: u64, power: u32) -> u128
    requires { steps < 2 ^ 38 }
    ensures { result ≤ steps * 2 ^ power }
{
    u128::from(steps) << power.min(GREATEST_POWER)
}

// How great a form may be for which the near distance times it is no more than a size.
#[inline(always)]
fn limit_of(size: u128, near: u32) -> i64
    requires { 0 < near }
    ensures { (result *ℤ pos near) ≤ℤ pos size }
{
    (size / u128::from(near)).min(GREATEST - 1) as i64
}

// The near distance times the top times a form.
#[inline(always)]
fn product(form: i64, nearest: u64) -> u128
    requires form { pos 0 ≤ℤ form }
    requires nearest { nearest < 2 ^ 55 }
    ensures { pos result ≡ pos nearest *ℤ form }
{
    u128::from(form as u64) * u128::from(nearest)
}

// In steps of 2^power, as far as they tell quotients apart.
#[inline(always)]
fn steps_of(size: u128, power: u32) -> u64
    requires { power < 128 }
    ensures least { result * 2 ^ power ≤ size }
    ensures most { (steps : ℕ) → steps ≤ 2 ^ 63 → steps * 2 ^ power ≤ size → steps ≤ result }
{
    (size >> power).min(GREATEST) as u64
}

impl NearnessForm {
    ghost use Rattle.std.specs.Prelude.{◌<ℤ◌, true, false, IfSome, IsSome};
    ghost use Rattle.pixel_forms.specs.Forms.{least_at, most_at, IsSmall};
    ghost use Rattle.cull_base.specs.Grade.{top_of};
    ghost use Rattle.cull_base.specs.Bounds.{Bounded};
    ghost use Rattle.cull_base.specs.Piece.{point};
    ghost use Rattle.cull_base.specs.declared.nearness.TheConstants.{HELD_TOP};
    ghost use Rattle.clip_lines.specs.Parts.{IsSumOf};
    ghost use Rattle.pixel_forms.specs.Seen.{nearest_of};
    ghost use Rattle.pixel_forms.specs.Certified.{IsSeen, IsAtMost};
    ghost use Rattle.pixel_forms.specs.Nearness.{IsNearnessOf, IsSmallNearness};

    /// Of a triangle's plane, by corners that were shifted so far. `is_front` says that none lies before the near
    /// distance. None: the plane is shifted further than the corners and the determinant together, which never comes.
    #[inline(always)]
    pub(crate) fn of(eye: &Eye, shift: u32, plane: &Plane, is_front: bool) -> Option<NearnessForm>
        requires sum { IsSumOf 3 plane.now.sum }
        requires known { plane.now.unsure < plane.now.length }
        requires length { plane.now.length < 2 ^ 96 }
        requires shift { shift ≤ 34 }
        ensures small { IfSome result IsSmallNearness }
        ensures stands { IfSome result (IsNearnessOf eye.now shift plane.now is_front) }
    {
        let line = NarrowLine::of(&plane.sum).turned(plane.is_turned);
        let span = span_of(plane.length, plane.unsure, eye.whole());
        let power = (span.power + shift).checked_sub(line.shift)?;
        let limit = if is_front {
            i64::MAX
        } else {
            limit_of(size_of(span.least, power), eye.near)
        };
        Some(NearnessForm {
            form: Form::of(eye, &line),
            divisor: Divisor::of(span.most),
            power,
            limit,
        })
    }

    // The form is no less around (x, y).
    #[inline(always)]
    fn least(&self, x: i32, y: i32) -> i64
        requires small { IsSmall self.now.form }
        requires x { Bounded (2 ^ 15) x }
        requires y { Bounded (2 ^ 15) y }
        ensures { result ≡ least_at self.now.form (point x y) }
    {
        self.form.least(x, y)
    }

    // Whether the triangle may lie before the near distance around (x, y).
    #[inline(always)]
    fn may_be_cut(&self, x: i32, y: i32) -> bool
        requires small { IsSmall self.now.form }
        requires x { Bounded (2 ^ 15) x }
        requires y { Bounded (2 ^ 15) y }
        ensures uncut { result ≡ false → most_at self.now.form (point x y) ≤ℤ self.now.limit }
        ensures cut { result ≡ true → self.now.limit <ℤ most_at self.now.form (point x y) }
    {
        self.limit < self.form.most(x, y)
    }

    /// The greatest nearness that the triangle surely has around (x, y), at most the top. None: it may lie behind the eye
    /// there, or before the near distance.
    #[inline(always)]
    pub fn nearness(&self, eye: &Eye, x: i32, y: i32) -> Option<u32>
        requires small { IsSmallNearness self.now }
        requires x { Bounded (2 ^ 15) x }
        requires y { Bounded (2 ^ 15) y }
        ensures seen { IfSome result (λ q. IsSeen self.now (point x y)) }
        ensures at_most { IfSome result (λ q. IsAtMost (nearest_of eye.now) self.now (point x y) q) }
        ensures greatest { IfSome result (λ q. (r : ℕ) → r ≤ top_of eye.now.grade
            → IsAtMost (nearest_of eye.now) self.now (point x y) r → r ≤ q) }
        ensures given { IsSeen self.now (point x y) → IsSome result }
        ensures held { IfSome result (λ q. q ≤ HELD_TOP) }
    {
        let least = self.least(x, y);
        if least < 0 || self.may_be_cut(x, y) {
            return None;
        }
        let steps = steps_of(product(least, eye.nearest()), self.power);
        let quotient = self.divisor.quotient(steps);
        Some(quotient.min(u64::from(eye.grade.top())) as u32)
    }
}
