//! The product of two floats in whole units, rounded down.
ghost use Rattle.std.specs.Prelude.{◌≡◌, pos, neg_ℤ, ◌-◌, ◌≤◌, ◌<◌, ◌^◌, ◌*ℤ◌, ◌<ℤ◌};
ghost use Rattle.cull_base.specs.Bounds.{Bounded};
ghost use Rattle.exact_clip.specs.Terms.{IsFloor, IsFactor, IsTerm};

use float_bits::{Number, decoded};

/// Mantissas of a matrix are shifted up by so much, which leaves their products within 2^60.
const RAISED: i64 = 4096;

/// A number's power is one less than the exponent that is written, and it may be 12 above the unit's.
const ROOM: u32 = 13;

/// A float of a matrix for one unit: its mantissa times 4096. Numbers from the power `room` on have too great a product
/// with it.
#[derive(Clone, Copy)]
pub(crate) struct Factor {
    pub(crate) mantissa: i64,
    pub(crate) room: u32,
}

/// What a number within 2^60 is shifted down by at most: then only its sign is left.
const FARTHEST: u32 = 63;

fn raised(mantissa: i32) -> i64
    requires above { neg_ℤ (pos (2 ^ 24)) <ℤ mantissa }
    requires below { mantissa <ℤ pos (2 ^ 24) }
    ensures { result ≡ mantissa *ℤ pos 4096 }
{
    i64::from(mantissa) * RAISED
}

/// A float of a matrix, for units of 2^exponent parts of 2^-298.
pub(crate) fn factor_of(bits: u32, exponent: u32) -> Factor
    requires { exponent ≤ 395 }
    ensures { IsFactor exponent bits result }
{
    let number = decoded(bits);
    Factor {
        mantissa: raised(number.mantissa),
        room: (exponent + ROOM).saturating_sub(number.power),
    }
}

#[inline(always)]
fn product(factor: i64, mantissa: i32) -> i64
    requires factor { Bounded (2 ^ 36) factor }
    requires above { neg_ℤ (pos (2 ^ 24)) <ℤ mantissa }
    requires below { mantissa <ℤ pos (2 ^ 24) }
    ensures value { result ≡ factor *ℤ mantissa }
    ensures bounded { Bounded (2 ^ 60) result }
{
    factor * i64::from(mantissa)
}

#[inline(always)]
fn shifted_down(product: i64, down: u32) -> i64
    requires product { Bounded (2 ^ 60) product }
    requires down { down ≤ 63 }
    ensures floor { IsFloor product (2 ^ down) result }
    ensures bounded { Bounded (2 ^ 60) result }
{
    product >> down
}

#[inline(always)]
fn floored(product: i64, down: u32) -> i64
    requires { Bounded (2 ^ 60) product }
    ensures floor { IsFloor product (2 ^ down) result }
    ensures bounded { Bounded (2 ^ 60) result }
{
    shifted_down(product, down.min(FARTHEST))
}

/// The product of a factor and a number. Condition: it isn't lost.
#[inline(always)]
pub(crate) fn term(factor: &Factor, number: &Number) -> i64
    requires factor { Bounded (2 ^ 36) factor.now.mantissa }
    requires above { neg_ℤ (pos (2 ^ 24)) <ℤ number.now.mantissa }
    requires below { number.now.mantissa <ℤ pos (2 ^ 24) }
    requires reach { number.now.power < factor.now.room }
    ensures { IsTerm factor.now number.now result }
{
    floored(
        product(factor.mantissa, number.mantissa),
        factor.room - 1 - number.power,
    )
}
