//! A column of a matrix: what a coordinate of a position adds to its clip coordinates.
ghost use Rattle.std.specs.Prelude.{pos, neg_ℤ, ◌≤◌, ◌<◌, ◌^◌, ◌<ℤ◌, IsTrue, ◌↔◌};
ghost use Rattle.exact_clip.specs.Terms.{IsColumn, IsNarrow, AreTerms};

use crate::held::Held;
use crate::term::{Factor, factor_of, term};
use float_bits::Number;

/// The floats by which a coordinate is multiplied: for x, for y and for w. Numbers from the power `room` on have too
/// great a product with one of them.
#[derive(Clone, Copy)]
pub(crate) struct Column {
    pub(crate) x: Factor,
    pub(crate) y: Factor,
    pub(crate) w: Factor,
    pub(crate) room: u32,
}

impl Column {
    /// Column k of a matrix, for units of 2^exponent parts of 2^-298.
    pub(crate) fn of(matrix: &[u32; 12], k: usize, exponent: u32) -> Column
        requires column { k < 4 }
        requires exponent { exponent ≤ 395 }
        ensures { IsColumn exponent matrix.now k result }
    {
        let x = factor_of(matrix[k], exponent);
        let y = factor_of(matrix[k + 4], exponent);
        let w = factor_of(matrix[k + 8], exponent);
        Column {
            x,
            y,
            w,
            room: x.room.min(y.room).min(w.room),
        }
    }

    /// Whether no product with a number is lost.
    #[inline(always)]
    pub(crate) fn reaches(&self, number: &Number) -> bool
        ensures { IsTrue result ↔ (number.now.power < self.now.room) }
    {
        number.power < self.room
    }

    /// The products with a number, in whole units, rounded down. Condition: none is lost.
    #[inline(always)]
    pub(crate) fn terms(&self, number: &Number) -> Held
        requires column { IsNarrow self.now }
        requires above { neg_ℤ (pos (2 ^ 24)) <ℤ number.now.mantissa }
        requires below { number.now.mantissa <ℤ pos (2 ^ 24) }
        requires reach { number.now.power < self.now.room }
        ensures { AreTerms self.now number.now result }
    {
        Held {
            x: term(&self.x, number),
            y: term(&self.y, number),
            w: term(&self.w, number),
        }
    }
}
