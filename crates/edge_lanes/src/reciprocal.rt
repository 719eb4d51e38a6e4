//! Quotients by an edge's size, from its reciprocal.
ghost use Rattle.std.specs.Prelude.{◌≡◌, ◌+◌, ◌*◌, ◌/◌, ◌<◌, ◌≤◌, ◌^◌};
ghost use Rattle.edge_lanes.specs.Reciprocals.{IsReciprocal};

/// The reciprocal of a size below this takes a division of 32 bits, which is faster than one of 64 by far.
const SHORT: u64 = 0x1_0000;

const TWO_TO_32: u64 = 0x1_0000_0000;

/// A positive number to divide by more than once.
#[derive(Clone, Copy)]
pub struct Reciprocal {
    pub number: u64,
    // 2^64 over the number, at most two too small
    reciprocal: u64,
    ghost is_reciprocal: { IsReciprocal number reciprocal },
}

// Of a short size: 2^32 over it, and twice what is left of that.
#[inline(always)]
fn short_reciprocal(number: u64) -> u64
    requires positive { 0 < number }
    requires short { number < 2 ^ 16 }
    ensures { IsReciprocal number result }
{
    let guess = u64::from(u32::MAX / number as u32);
    let rest = TWO_TO_32 - guess * number;
    guess * TWO_TO_32 + rest * guess + rest * rest * guess / TWO_TO_32
}

#[inline(always)]
fn long_reciprocal(number: u64) -> u64
    requires { 0 < number }
    ensures { IsReciprocal number result }
{
    u64::MAX / number
}

#[inline(always)]
fn reciprocal_of(number: u64) -> u64
    requires { 0 < number }
    ensures { IsReciprocal number result }
{
    if number < SHORT {
        short_reciprocal(number)
    } else {
        long_reciprocal(number)
    }
}

impl Reciprocal {
    /// Divides once, for the reciprocal. Condition: the number is positive.
    #[inline(always)]
    pub fn of(number: u64) -> Reciprocal
        requires { 0 < number }
        ensures { result.number ≡ number }
    {
        Reciprocal {
            number,
            reciprocal: reciprocal_of(number),
        }
    }

    // Never too great, and at most one too small.
    #[inline(always)]
    fn guess(&self, n: u64) -> u64
        requires { n ≤ 2 ^ 62 }
        ensures least { result * self.now.number ≤ n }
        ensures most { n < (result + 2) * self.now.number }
    {
        (u128::from(n) * u128::from(self.reciprocal) / 0x1_0000_0000_0000_0000) as u64
    }

    /// n over the number, rounded down. Condition: n is at most 2^62.
    #[inline(always)]
    pub fn quotient(&self, n: u64) -> u64
        requires { n ≤ 2 ^ 62 }
        ensures { result ≡ n / self.now.number }
    {
        let guess = self.guess(n);
        if n - guess * self.number < self.number {
            guess
        } else {
            guess + 1
        }
    }
}
