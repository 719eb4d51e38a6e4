//! The bits of a float as a mantissa and a power of two.
ghost use Rattle.std.specs.Prelude.{◌≡◌, pos, neg_ℤ, ◌≤◌, ◌^◌, ◌<ℤ◌, IsTrue, IsSome, IfSome, ◌↔◌};
ghost use Rattle.float_bits.specs.Floats.{field_of, IsNumber, mantissa_of, power_of, with_sign_of};
ghost use Rattle.float_bits.specs.Numbers.{IsDecoded};

/// The sign's bit.
const SIGN: u32 = 0x8000_0000;

/// A mantissa's leading bit, which isn't written. The exponent's bits begin there.
const LEADING: u32 = 0x80_0000;

/// The exponent's bits of what is infinite, or no number at all.
const NO_NUMBER: u32 = 255;

/// A float: its mantissa times 2^power, in parts of 2^-149.
#[derive(Clone, Copy, Debug, PartialEq, Eq)]
pub struct Number {
    pub mantissa: i32,
    pub power: u32,
}

#[inline(always)]
fn field(bits: u32) -> u32
    ensures { result ≡ field_of bits }
{
    bits / LEADING % 256
}

/// Whether a float is neither infinite nor no number at all.
#[inline(always)]
pub fn is_number(bits: u32) -> bool
    ensures { IsTrue result ↔ IsNumber bits }
{
    field(bits) != NO_NUMBER
}

#[inline(always)]
fn mantissa(bits: u32) -> i32
    ensures value { result ≡ with_sign_of bits (mantissa_of bits) }
    ensures above { neg_ℤ (pos (2 ^ 24)) <ℤ result }
    ensures below { result <ℤ pos (2 ^ 24) }
{
    let leading = if field(bits) == 0 { 0 } else { LEADING };
    let size = (bits % LEADING + leading) as i32;
    if bits / SIGN == 0 { size } else { -size }
}

#[inline(always)]
fn power(bits: u32) -> u32
    ensures { result ≡ power_of bits }
{
    field(bits).max(1) - 1
}

/// What a float's bits stand for, where they are a number's.
#[inline(always)]
pub fn decoded(bits: u32) -> Number
    ensures { IsDecoded bits result }
{
    Number {
        mantissa: mantissa(bits),
        power: power(bits),
    }
}

/// What a float's bits stand for. None: it is infinite, or no number at all.
#[inline(always)]
pub fn number_of(bits: u32) -> Option<Number>
    ensures known { IsSome result ↔ IsNumber bits }
    ensures value { IfSome result (IsDecoded bits) }
    ensures most { IfSome result (λ n. n.power ≤ 253) }
{
    if is_number(bits) {
        Some(decoded(bits))
    } else {
        None
    }
}
