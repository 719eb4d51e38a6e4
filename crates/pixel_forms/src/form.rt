//! A linear form over the screen.
ghost use Rattle.std.specs.Prelude.{◌≡◌, ℕ, ℤ, pos, neg_ℤ, ◌+◌, ◌*◌, ◌^◌, ◌<◌, ◌≤◌, ◌+ℤ◌, ◌-ℤ◌, ◌*ℤ◌, ◌≤ℤ◌, ◌<ℤ◌, nat_abs};
ghost use Rattle.cull_base.specs.Bounds.{Bounded};

use crate::eye::Eye;
use crate::narrow_line::NarrowLine;

/// At (x, y) in sixteenths of a pixel it is a x + b y + c. Over the square around a sample of the screen the exact form,
/// in some parts, is at most `down` away from that.
#[derive(Clone, Copy)]
pub struct Form {
    pub a: i64,
    pub b: i64,
    pub c: i64,
    pub down: i64,
}

#[inline(always)]
fn slope(part: i64, pixels: u32) -> i64
    requires part { Bounded (2 ^ 34) part }
    requires pixels { pixels ≤ 2048 }
    ensures value { result ≡ part *ℤ pos pixels }
    ensures bounded { Bounded (2 ^ 45) result }
{
    part * i64::from(pixels)
}

#[inline(always)]
fn opposite(slope: i64) -> i64
    requires { Bounded (2 ^ 45) slope }
    ensures value { result ≡ neg_ℤ slope }
    ensures bounded { Bounded (2 ^ 45) result }
{
    -slope
}

// w - x + y
#[inline(always)]
fn corner_sum(x: i64, y: i64, w: i64) -> i64
    requires x { Bounded (2 ^ 34) x }
    requires y { Bounded (2 ^ 34) y }
    requires w { Bounded (2 ^ 34) w }
    ensures value { result ≡ (w -ℤ x) +ℤ y }
    ensures bounded { Bounded (3 * 2 ^ 34) result }
{
    w - x + y
}

#[inline(always)]
fn level(corner_sum: i64, whole: u32) -> i64
    requires corner_sum { Bounded (3 * 2 ^ 34) corner_sum }
    requires whole { whole ≤ 2 ^ 25 }
    ensures value { result ≡ corner_sum *ℤ pos whole }
    ensures bounded { Bounded (3 * 2 ^ 59) result }
{
    corner_sum * i64::from(whole)
}

// What a form falls by at most from the middle of a square.
#[inline(always)]
fn fall(reach: u32, a: i64, b: i64) -> u64
    requires reach { reach ≤ 64 }
    requires a { Bounded (2 ^ 45) a }
    requires b { Bounded (2 ^ 45) b }
    ensures value { result ≡ reach * (nat_abs a + nat_abs b) }
    ensures most { result ≤ 2 ^ 52 }
{
    u64::from(reach) * (a.unsigned_abs() + b.unsigned_abs())
}

// What an exact line may be off by along a ray of this length.
#[inline(always)]
fn slack(off: u64, span: u32) -> u64
    requires off { off ≤ 3 * 2 ^ 33 + 2 }
    requires span { span ≤ 2 ^ 25 + 2 ^ 17 }
    ensures value { result ≡ 3 * off * span }
    ensures most { result ≤ 3 * 2 ^ 60 }
{
    3 * off * u64::from(span)
}

#[inline(always)]
fn both(fall: u64, slack: u64) -> i64
    requires fall { fall ≤ 2 ^ 52 }
    requires slack { slack ≤ 3 * 2 ^ 60 }
    ensures { result ≡ pos (fall + slack) }
{
    (fall + slack) as i64
}

#[inline(always)]
fn product(slope: i64, place: i32) -> i64
    requires slope { Bounded (2 ^ 45) slope }
    requires place { Bounded (2 ^ 15) place }
    ensures value { result ≡ slope *ℤ place }
    ensures bounded { Bounded (2 ^ 60) result }
{
    slope * i64::from(place)
}

#[inline(always)]
fn sum(across: i64, along: i64, level: i64) -> i64
    requires across { Bounded (2 ^ 60) across }
    requires along { Bounded (2 ^ 60) along }
    requires level { Bounded (2 ^ 61) level }
    ensures value { result ≡ (across +ℤ along) +ℤ level }
    ensures bounded { Bounded (2 ^ 62) result }
{
    across + along + level
}

#[inline(always)]
fn less(value: i64, down: i64) -> i64
    requires value { Bounded (2 ^ 62) value }
    requires positive { pos 0 ≤ℤ down }
    requires down { down <ℤ pos (2 ^ 62) }
    ensures { result ≡ value -ℤ down }
{
    value - down
}

#[inline(always)]
fn more(value: i64, down: i64) -> i64
    requires value { Bounded (2 ^ 62) value }
    requires positive { pos 0 ≤ℤ down }
    requires down { down <ℤ pos (2 ^ 62) }
    ensures { result ≡ value +ℤ down }
{
    value + down
}

impl Form {
    ghost use Rattle.exact_clip.specs.Clip.{Clip};
    ghost use Rattle.cull_base.specs.Piece.{point};
    ghost use Rattle.clip_lines.specs.Lines.{StandsFor};
    ghost use Rattle.pixel_forms.specs.Narrow.{of_narrow, IsNarrow};
    ghost use Rattle.pixel_forms.specs.Seen.{size_seen};
    ghost use Rattle.pixel_forms.specs.Forms.{value_at, least_at, most_at, IsSmall, IsMadeOf, IsFormOf};

    /// Of a line.
    #[inline(always)]
    pub(crate) fn of(eye: &Eye, line: &NarrowLine) -> Form
        requires { IsNarrow line.now }
        ensures made { IsMadeOf eye.now.width eye.now.height eye.now.reach line.now.off (of_narrow line.now) result }
        ensures small { IsSmall result }
        ensures stands { (scale : ℕ) (exact : Clip) → StandsFor scale line.now.off (of_narrow line.now) exact
            → IsFormOf (size_seen eye.now) eye.now.reach scale result exact }
    {
        let a = slope(line.x, eye.height);
        let b = opposite(slope(line.y, eye.width));
        Form {
            a,
            b,
            c: level(corner_sum(line.x, line.y, line.w), eye.whole()),
            down: both(fall(eye.reach, a, b), slack(line.off, eye.span())),
        }
    }

    /// The value at (x, y), in sixteenths of a pixel. Condition: both lie within 2^15.
    #[inline(always)]
    pub fn value(&self, x: i32, y: i32) -> i64
        requires small { IsSmall self.now }
        requires x { Bounded (2 ^ 15) x }
        requires y { Bounded (2 ^ 15) y }
        ensures value { result ≡ value_at self.now (point x y) }
        ensures bounded { Bounded (2 ^ 62) result }
    {
        sum(product(self.a, x), product(self.b, y), self.c)
    }

    /// No less over the square around (x, y).
    #[inline(always)]
    pub fn least(&self, x: i32, y: i32) -> i64
        requires small { IsSmall self.now }
        requires x { Bounded (2 ^ 15) x }
        requires y { Bounded (2 ^ 15) y }
        ensures { result ≡ least_at self.now (point x y) }
    {
        less(self.value(x, y), self.down)
    }

    /// No more over the square around (x, y).
    #[inline(always)]
    pub fn most(&self, x: i32, y: i32) -> i64
        requires small { IsSmall self.now }
        requires x { Bounded (2 ^ 15) x }
        requires y { Bounded (2 ^ 15) y }
        ensures { result ≡ most_at self.now (point x y) }
    {
        more(self.value(x, y), self.down)
    }
}
