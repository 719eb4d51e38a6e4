//! Quotients read off fixed-point numbers.
ghost use Rattle.std.specs.Prelude.{◌≡◌, ℕ, ℤ, pos, ◌^◌};
ghost use Rattle.std.specs.Int.{int_div_euclid};
ghost use Rattle.lane_numbers.specs.Parts.{StandsFor};

// The wholes of a number of parts.
#[inline(always)]
fn wholes(parts: i64) -> i64
    ensures { result ≡ int_div_euclid parts (pos (2 ^ 32)) }
{
    parts >> 32
}

/// The whole part of a number in parts of 2^-32: where it stands for (n + 1/2) / p with an error of less than half a
/// step, 1 / 2p, that is n / p, rounded down.
#[inline(always)]
pub fn whole_part(parts: i64) -> i64
    ensures { (n : ℤ) (p : ℕ) → StandsFor (2 ^ 32) n p parts → result ≡ int_div_euclid n (pos p) }
{
    wholes(parts)
}
