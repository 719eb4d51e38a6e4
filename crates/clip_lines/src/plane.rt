//! The plane of a triangle, by the sum of its lines, and whether it is known which way it is turned.
ghost use Rattle.std.specs.Prelude.{◌≡◌, ℕ, ℤ, pos, ◌+◌, ◌*◌, ◌^◌, ◌<◌, ◌≤◌, ◌+ℤ◌, ◌*ℤ◌, nat_abs, IfSome, MatchOption};
ghost use Rattle.cull_base.specs.Bounds.{Bounded};
ghost use Rattle.exact_clip.specs.Clip.{Clip};
ghost use Rattle.clip_lines.specs.Lines.{dot};
ghost use Rattle.clip_lines.specs.Parts.{of_corner, of_line, norm_of, IsSized, IsSumOf};
ghost use Rattle.clip_lines.specs.Planes.{sum_of_lines, unsure_of, AreOf, IsPlaneOf};

use crate::corner::Corner;
use crate::line::Line;

/// The sum of a triangle's lines, and its determinant, in cubes of the corners' steps.
#[derive(Clone, Copy, Debug, PartialEq, Eq)]
pub struct Plane {
    /// Its product with a corner is the determinant.
    pub sum: Line,
    /// The determinant without its sign.
    pub length: u128,
    /// What that is off by at most.
    pub unsure: u128,
    /// Whether the determinant is below 0.
    pub is_turned: bool,
}

#[inline(always)]
fn sum_part(l: i64, m: i64, n: i64) -> i64
    requires l { Bounded (2 ^ 61) l }
    requires m { Bounded (2 ^ 61) m }
    requires n { Bounded (2 ^ 61) n }
    ensures value { result ≡ (l +ℤ m) +ℤ n }
    ensures bounded { Bounded (3 * 2 ^ 61) result }
{
    l + m + n
}

#[inline(always)]
fn sum_of(l: &Line, m: &Line, n: &Line) -> Line
    requires l { IsSumOf 1 l.now }
    requires m { IsSumOf 1 m.now }
    requires n { IsSumOf 1 n.now }
    ensures value { result ≡ sum_of_lines l.now m.now n.now }
    ensures sized { IsSumOf 3 result }
{
    Line {
        x: sum_part(l.x, m.x, n.x),
        y: sum_part(l.y, m.y, n.y),
        w: sum_part(l.w, m.w, n.w),
        off: l.off + m.off + n.off,
    }
}

#[inline(always)]
fn wide_product(a: i64, b: i64) -> i128
    requires a { Bounded (3 * 2 ^ 61) a }
    requires b { Bounded (2 ^ 30) b }
    ensures value { result ≡ a *ℤ b }
    ensures bounded { Bounded (3 * 2 ^ 91) result }
{
    i128::from(a) * i128::from(b)
}

#[inline(always)]
fn wide_sum(a: i128, b: i128, c: i128) -> i128
    requires a { Bounded (3 * 2 ^ 91) a }
    requires b { Bounded (3 * 2 ^ 91) b }
    requires c { Bounded (3 * 2 ^ 91) c }
    ensures value { result ≡ (a +ℤ b) +ℤ c }
    ensures bounded { Bounded (9 * 2 ^ 91) result }
{
    a + b + c
}

// A corner's distance from a plane through the eye, in its normal's length.
#[inline(always)]
fn product_of(p: &Corner, l: &Line) -> i128
    requires p { IsSized (2 ^ 30) (of_corner p.now) }
    requires l { IsSumOf 3 l.now }
    ensures value { result ≡ dot (of_line l.now) (of_corner p.now) }
    ensures bounded { Bounded (9 * 2 ^ 91) result }
{
    wide_sum(
        wide_product(l.x, p.x),
        wide_product(l.y, p.y),
        wide_product(l.w, p.w),
    )
}

#[inline(always)]
fn wide_norm(l: &Line) -> u128
    requires { IsSumOf 3 l.now }
    ensures value { result ≡ norm_of (of_line l.now) }
    ensures most { result ≤ 9 * 2 ^ 61 }
{
    u128::from(l.x.unsigned_abs()) + u128::from(l.y.unsigned_abs()) + u128::from(l.w.unsigned_abs())
}

#[inline(always)]
fn wide_off(off: u64, norm: u64) -> u128
    requires off { off ≤ 3 * 2 ^ 33 }
    requires norm { norm ≤ 3 * 2 ^ 30 }
    ensures value { result ≡ off * (norm + 3) }
    ensures most { result ≤ 2 ^ 70 }
{
    u128::from(off) * u128::from(norm + 3)
}

#[inline(always)]
fn unsure_of(p: &Corner, l: &Line) -> u128
    requires p { IsSized (2 ^ 30) (of_corner p.now) }
    requires l { IsSumOf 3 l.now }
    ensures value { result ≡ unsure_of p.now l.now }
    ensures most { result ≤ 2 ^ 71 }
{
    wide_norm(l) + wide_off(l.off, p.norm())
}

impl Plane {
    /// Of a triangle a b c, from its first corner and its lines. None: it is thin, so that its determinant's sign isn't
    /// known. Condition: all are by one shift.
    #[inline(always)]
    pub fn of(first: &Corner, ab: &Line, bc: &Line, ca: &Line) -> Option<Plane>
        requires first { IsSized (2 ^ 30) (of_corner first.now) }
        requires ab { IsSumOf 1 ab.now }
        requires bc { IsSumOf 1 bc.now }
        requires ca { IsSumOf 1 ca.now }
        ensures sum { IfSome result (λ p. p.sum ≡ sum_of_lines ab.now bc.now ca.now) }
        ensures sized { IfSome result (λ p. IsSumOf 3 p.sum) }
        ensures length { IfSome result (λ p. p.length ≡ nat_abs (dot (of_line p.sum) (of_corner first.now))) }
        ensures small { IfSome result (λ p. p.length < 2 ^ 96) }
        ensures unsure { IfSome result (λ p. p.unsure ≡ unsure_of first.now p.sum) }
        ensures stands { IfSome result (λ p. (scale : ℕ) (a b c : Clip)
            → AreOf scale first.now ab.now bc.now ca.now a b c → IsPlaneOf scale p a b c) }
        ensures thin { MatchOption result
            (nat_abs (dot (of_line (sum_of_lines ab.now bc.now ca.now)) (of_corner first.now))
            ≤ unsure_of first.now (sum_of_lines ab.now bc.now ca.now))
            (λ p. p.unsure < p.length) }
    {
        let sum = sum_of(ab, bc, ca);
        let product = product_of(first, &sum);
        let length = product.unsigned_abs();
        let unsure = unsure_of(first, &sum);
        if unsure < length {
            Some(Plane {
                sum,
                length,
                unsure,
                is_turned: product < 0,
            })
        } else {
            None
        }
    }
}
