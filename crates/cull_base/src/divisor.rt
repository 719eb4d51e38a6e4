//! Quotients by one divisor, from its reciprocal.
ghost use Rattle.std.specs.Prelude.{◌≡◌, ℕ, pos, ◌+◌, ◌*◌, ◌/◌, ◌<◌, ◌≤◌};
ghost use Rattle.cull_base.specs.Bounds.{Bounded};
ghost use Rattle.cull_base.specs.Depth.{floor_of};

use std::marker::Model;

/// A number below this size, and above its negative, fits 64 bits.
const NARROW: i128 = 0x4000_0000_0000_0000;

/// A positive number to divide by more than once.
#[derive(Clone, Copy)]
pub struct Divisor {
    number: u64,
    // (2^64 - 1) over the number, rounded down
    reciprocal: u64,
}

impl Model for Divisor {
    ghost use Rattle.std.specs.Prelude.{ℕ, ◌/◌, ◌-◌, ◌^◌};
    ghost use Rattle.std.proofs.Common.{ap, sym};
    ghost use Rattle.cull_base.specs.Divisor.{IsDivisor};

    ghost Value = { ℕ };

    ghost view = { λ d. d.number };

    ghost invariant = { λ d. IsDivisor d.number d.reciprocal };

    ghost inverse = { λ n. record { number = n; reciprocal = (2 ^ 64 - 1) / n } };

    ghost inverse_ok = { λ d h. ap (λ r. record d { reciprocal = r }) (sym h.is_reciprocal) };
}

impl Divisor {
    /// Divides once, for the reciprocal. Condition: the number is positive.
    #[inline(always)]
    pub fn of(number: u64) -> Divisor
        requires { 0 < number }
        ensures { result ≡ number }
    {
        Divisor {
            number,
            reciprocal: u64::MAX / number,
        }
    }

    /// The number itself.
    #[inline(always)]
    pub fn number(&self) -> u64
        ensures value { result ≡ self.now }
        ensures positive { 0 < result }
    {
        self.number
    }

    // Never too great, and at most one too small.
    #[inline(always)]
    fn guess(&self, n: u64) -> u64
        ensures least { result * self.now ≤ n }
        ensures most { n < (result + 2) * self.now }
    {
        (u128::from(n) * u128::from(self.reciprocal) / 0x1_0000_0000_0000_0000) as u64
    }

    /// n over the number, rounded down.
    #[inline(always)]
    pub fn quotient(&self, n: u64) -> u64
        ensures { result ≡ n / self.now }
    {
        let guess = self.guess(n);
        if n - guess * self.number < self.number {
            guess
        } else {
            guess + 1
        }
    }

    /// The floor of n over the number, below 0 too.
    #[inline(always)]
    pub fn floor(&self, n: i64) -> i64
        ensures { result ≡ floor_of n (pos self.now) }
    {
        if 0 <= n {
            self.quotient(n as u64) as i64
        } else {
            -1 - self.quotient((-1 - n) as u64) as i64
        }
    }

    /// The floor of n over the number, of an n of 128 bits; most of them fit 64 bits all the same. The result lies no
    /// further away from 0 than n.
    #[inline(always)]
    pub fn wide_floor(&self, n: i128) -> i128
        ensures value { result ≡ floor_of n (pos self.now) }
        ensures bounded { (m : ℕ) → Bounded m n → Bounded m result }
        ensures positive { 0 < self.now }
    {
        if -NARROW <= n && n < NARROW {
            i128::from(self.floor(n as i64))
        } else {
            n.div_euclid(i128::from(self.number))
        }
    }
}
