//! An edge of a piece of a few pixels, at most 2^10 sixteenths of a pixel long each way, by its values' sixteenths as
//! in `NarrowEdge`, in lanes of 16 bits.
ghost use Rattle.std.specs.Prelude.{◌≡◌, ◌^◌};
ghost use Rattle.cull_base.specs.Bounds.{Bounded};
ghost use Rattle.edge_lanes.specs.Lanes.{offsets_of, row_of};
ghost use Rattle.edge_lanes.specs.Lines.{line, outside_from};

use crate::narrow_edge::Rows;
use std::simd::prelude::*;

/// What an edge's values move by.
#[derive(Clone, Copy)]
pub struct SmallEdge {
    // what a pixel to the right adds, and one below
    column: i16,
    row: i16,
    // what each of eight columns adds
    columns: i16x8,
    ghost column_bounded: { Bounded (2 ^ 10) column },
    ghost row_bounded: { Bounded (2 ^ 10) row },
    ghost are_columns: { columns ≡ offsets_of column },
}

/// A value in 16 bits.
#[inline(always)]
pub fn short(value: i32) -> i16
    requires { Bounded (2 ^ 14) value }
    ensures { result ≡ value }
{
    value as i16
}

impl SmallEdge {
    ghost use Rattle.edge_lanes.specs.Inside.{slope};

    /// An edge of these steps.
    #[inline(always)]
    pub fn of(column: i32, row: i32) -> SmallEdge
        requires column { Bounded (2 ^ 10) column }
        requires row { Bounded (2 ^ 10) row }
        ensures column { result.column ≡ column }
        ensures row { result.row ≡ row }
    {
        let column = short(column);
        SmallEdge {
            column,
            row: short(row),
            columns: i16x8::splat(column).strict_mul(i16x8::from_array([0, 1, 2, 3, 4, 5, 6, 7])),
        }
    }

    /// The samples that are outside of a subtile that begins with this value, row by row.
    #[inline(always)]
    pub fn outside(&self, start: i16) -> Rows
        requires { Bounded (2 ^ 14) start }
        ensures first { result.first ≡ row_of (outside_from (slope self.now) start) 0 }
        ensures second { result.second ≡ row_of (outside_from (slope self.now) start) 1 }
        ensures third { result.third ≡ row_of (outside_from (slope self.now) start) 2 }
        ensures fourth { result.fourth ≡ row_of (outside_from (slope self.now) start) 3 }
    {
        let none = i16x8::splat(0);
        let row = i16x8::splat(self.row);
        let first = i16x8::splat(start).strict_add(self.columns);
        let second = first.strict_add(row);
        let third = second.strict_add(row);
        let fourth = third.strict_add(row);
        Rows {
            first: first.simd_lt(none).to_bitmask(),
            second: second.simd_lt(none).to_bitmask(),
            third: third.simd_lt(none).to_bitmask(),
            fourth: fourth.simd_lt(none).to_bitmask(),
        }
    }
}
