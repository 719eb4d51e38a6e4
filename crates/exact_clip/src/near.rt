//! The near distance, which gives the unit.
ghost use Rattle.std.specs.Prelude.{◌≡◌, pos, ◌+◌, ◌*◌, ◌≤◌, ◌<◌, ◌^◌, ◌*ℤ◌, ◌<ℤ◌, IsSome, IfSome, ◌↔◌};
ghost use Rattle.float_bits.specs.Floats.{IsNumber, whole_of};
ghost use Rattle.exact_clip.specs.Clip.{distance_of};

use float_bits::number_of;

/// A float is a whole number of parts of 2^-149.
const PARTS: u32 = 149;

/// A near distance as so many units, of which each is 2^exponent parts of 2^-298.
#[derive(Clone, Copy)]
pub struct Near {
    pub distance: u32,
    pub exponent: u32,
    pub ghost least: { 2 ^ 30 ≤ distance },
    pub ghost most: { distance < 2 ^ 31 },
    pub ghost least_exponent: { 119 ≤ exponent },
    pub ghost most_exponent: { exponent ≤ 395 },
}

// By how many bits a mantissa is shifted up, so that bit 30 leads.
fn room_above(size: u32) -> u32
    requires positive { 0 < size }
    requires small { size < 2 ^ 24 }
    ensures least { 7 ≤ result }
    ensures most { result ≤ 30 }
    ensures above { 2 ^ 30 ≤ size * 2 ^ result }
    ensures below { size * 2 ^ result < 2 ^ 31 }
{
    size.leading_zeros() - 1
}

fn shifted_up(size: u32, up: u32) -> u32
    requires up { up ≤ 30 }
    requires room { size * 2 ^ up < 2 ^ 31 }
    ensures { result ≡ size * 2 ^ up }
{
    size << up
}

fn near_of(size: u32, power: u32) -> Near
    requires positive { 0 < size }
    requires small { size < 2 ^ 24 }
    requires power { power ≤ 253 }
    ensures { result.distance * 2 ^ result.exponent ≡ size * 2 ^ (power + 149) }
{
    let up = room_above(size);
    Near {
        distance: shifted_up(size, up),
        exponent: power + PARTS - up,
    }
}

impl Near {
    /// The near distance of a float's bits. None: no number, or not above 0.
    pub fn of(bits: u32) -> Option<Near>
        ensures known { IsSome result ↔ (IsNumber bits × (pos 0 <ℤ whole_of bits)) }
        ensures value { IfSome result (λ n. pos n.distance *ℤ pos (2 ^ n.exponent) ≡ distance_of bits) }
    {
        let number = number_of(bits)?;
        if number.mantissa > 0 {
            Some(near_of(number.mantissa as u32, number.power))
        } else {
            None
        }
    }
}
