//! The rows of a matrix, decoded once for many positions.
ghost use Rattle.std.specs.Prelude.{◌≡◌, ℕ, pos, ◌+◌, ◌≤◌, ◌<◌, ◌^◌, IsTrue, IsSome, IfSome, IfNone, ◌↔◌};
ghost use Rattle.std.specs.List.{All};
ghost use Rattle.std.specs.Option.{ForSome, ForNone};
ghost use Rattle.float_bits.specs.Floats.{IsNumber};
ghost use Rattle.exact_clip.specs.Clip.{clip_of};
ghost use Rattle.exact_clip.specs.Held.{Holds};
ghost use Rattle.exact_clip.specs.Lost.{one, IsColumnInReach, IsPositionInReach, IsInReach};
ghost use Rattle.exact_clip.specs.Parts.{AreParts, IsLast};
ghost use Rattle.exact_clip.specs.Terms.{IsColumn};

use crate::column::Column;
use crate::held::Held;
use crate::near::Near;
use crate::parts::{Parts, sum};
use float_bits::{Number, decoded, is_number};

/// The bits of the number 1, by which a matrix's last column is multiplied.
const ONE: u32 = 0x3f80_0000;

/// Twelve floats, the rows of x, of y and of w of a matrix, in units of 2^exponent parts of 2^-298.
#[derive(Clone, Copy)]
pub struct Rows {
    pub matrix: [u32; 12],
    pub exponent: u32,
    x: Column,
    y: Column,
    z: Column,
    // what the last column adds, or None where that is lost
    last: Option<Held>,
    ghost x_is: { IsColumn exponent matrix 0 x },
    ghost y_is: { IsColumn exponent matrix 1 y },
    ghost z_is: { IsColumn exponent matrix 2 z },
    ghost last_is: { ForSome last (IsLast exponent matrix) },
    ghost lost: { ForNone last (¬ IsColumnInReach exponent matrix 3 one) },
}

#[inline(always)]
fn are_numbers(position: &[u32; 3]) -> bool
    ensures { IsTrue result ↔ All IsNumber position.now }
{
    is_number(position[0]) && is_number(position[1]) && is_number(position[2])
}

// What the last column adds to each position.
fn last_of(matrix: &[u32; 12], exponent: u32) -> Option<Held>
    requires { exponent ≤ 395 }
    ensures value { IfSome result (IsLast exponent matrix.now) }
    ensures lost { IfNone result (¬ IsColumnInReach exponent matrix.now 3 one) }
{
    let column = Column::of(matrix, 3, exponent);
    let number = decoded(ONE);
    if column.reaches(&number) {
        Some(column.terms(&number))
    } else {
        None
    }
}

fn rows_of(matrix: &[u32; 12], exponent: u32) -> Rows
    requires { exponent ≤ 395 }
    ensures matrix { result.matrix ≡ matrix.now }
    ensures exponent { result.exponent ≡ exponent }
{
    Rows {
        matrix: *matrix,
        exponent,
        x: Column::of(matrix, 0, exponent),
        y: Column::of(matrix, 1, exponent),
        z: Column::of(matrix, 2, exponent),
        last: last_of(matrix, exponent),
    }
}

impl Rows {
    /// None: one of the floats is no number.
    pub fn of(matrix: &[u32; 12], near: &Near) -> Option<Rows>
        ensures known { IsSome result ↔ All IsNumber matrix.now }
        ensures matrix { IfSome result (λ r. r.matrix ≡ matrix.now) }
        ensures exponent { IfSome result (λ r. r.exponent ≡ near.now.exponent) }
    {
        if matrix.iter().all(|bits| is_number(*bits)) {
            Some(rows_of(matrix, near.exponent))
        } else {
            None
        }
    }

    // Whether no product with a position's numbers is lost.
    #[inline(always)]
    fn is_in_reach(&self, x: &Number, y: &Number, z: &Number) -> bool
        ensures { IsTrue result ↔ ((x.now.power < self.now.x.room)
            × (y.now.power < self.now.y.room)
            × (z.now.power < self.now.z.room)) }
    {
        self.x.reaches(x) & self.y.reaches(y) & self.z.reaches(z)
    }

    /// What the coordinates of a position add to its clip coordinates. None: one of the floats is no number, or a
    /// product is lost.
    #[inline(always)]
    pub(crate) fn parts(&self, position: &[u32; 3]) -> Option<Parts>
        ensures known { IsSome result ↔ (All IsNumber position.now
            × IsPositionInReach self.now.exponent self.now.matrix position.now) }
        ensures cut { IfSome result (AreParts self.now.exponent self.now.matrix position.now) }
    {
        let x = decoded(position[0]);
        let y = decoded(position[1]);
        let z = decoded(position[2]);
        if are_numbers(position) && self.is_in_reach(&x, &y, &z) {
            Some(Parts {
                x: self.x.terms(&x),
                y: self.y.terms(&y),
                z: self.z.terms(&z),
            })
        } else {
            None
        }
    }

    /// What the last column adds to each position's clip coordinates. None: it is lost.
    #[inline(always)]
    pub(crate) fn last(&self) -> Option<Held>
        ensures value { IfSome result (IsLast self.now.exponent self.now.matrix) }
        ensures lost { IfNone result (¬ IsColumnInReach self.now.exponent self.now.matrix 3 one) }
    {
        self.last
    }

    /// The clip coordinates of a position. None: one of the floats is no number, or the product of two is lost.
    pub fn vertex(&self, position: &[u32; 3]) -> Option<Held>
        ensures known { IsSome result ↔ (All IsNumber position.now
            × IsInReach self.now.exponent self.now.matrix position.now) }
        ensures holds { IfSome result
            (λ v. Holds (2 ^ self.now.exponent) v (clip_of self.now.matrix position.now)) }
    {
        let last = self.last()?;
        let parts = self.parts(position)?;
        Some(sum(&parts.x, &parts.y, &parts.z, &last))
    }
}
