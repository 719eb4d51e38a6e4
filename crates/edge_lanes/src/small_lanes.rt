//! Values of the edges of a piece of a few pixels side by side: lane k is that of edge k, from vertex k to the next, and
//! the last lane is that of the first edge again.
ghost use Rattle.std.specs.Prelude.{◌≡◌, ℤ, pos, ◌^◌, ◌+◌, ◌+ℤ◌, ◌-ℤ◌, IsTrue};
ghost use Rattle.std.specs.Int.{int_div_euclid};
ghost use Rattle.cull_base.specs.Bounds.{Bounded};
ghost use Rattle.cull_base.specs.Piece.{IsCoordinate};
ghost use Rattle.edge_lanes.specs.Around.{AreBounded, AreClose, around, lane, sign_of, steps_around, steps_back, value_from, value_past};
ghost use Rattle.edge_lanes.specs.Lines.{held_few};

use std::simd::prelude::*;

/// A piece whose box has sides below this many sixteenths of a pixel takes lanes of 16 bits.
const FEW: i32 = 0x400;

/// A subtile's samples lie less than 2^14 from its first, so a value clamped to this size there keeps its sign at each.
const FAR: i32 = 0x4000;

/// In `biases` a row counts as so many columns, which is more than such an edge passes.
const ROW: i32 = 2048;

/// From each vertex to the next.
#[inline(always)]
pub fn steps_around(at: [i32; 3]) -> i32x4
    requires first { IsCoordinate (lane at 0) }
    requires second { IsCoordinate (lane at 1) }
    requires third { IsCoordinate (lane at 2) }
    ensures value { result ≡ steps_around at }
    ensures bounded { AreBounded (2 ^ 30) result }
{
    let begins = i32x4::from_array([at[0], at[1], at[2], at[0]]);
    i32x4::from_array([at[1], at[2], at[0], at[1]]).strict_sub(begins)
}

/// The same the other way round.
#[inline(always)]
pub fn steps_back(at: [i32; 3]) -> i32x4
    requires first { IsCoordinate (lane at 0) }
    requires second { IsCoordinate (lane at 1) }
    requires third { IsCoordinate (lane at 2) }
    ensures value { result ≡ steps_back at }
    ensures bounded { AreBounded (2 ^ 30) result }
{
    let ends = i32x4::from_array([at[1], at[2], at[0], at[1]]);
    i32x4::from_array([at[0], at[1], at[2], at[0]]).strict_sub(ends)
}

/// Whether no edge passes more than a few sixteenths of a pixel.
#[inline(always)]
pub fn are_few(across: i32x4, down: i32x4) -> bool
    requires across { AreBounded (2 ^ 30) across }
    requires down { AreBounded (2 ^ 30) down }
    ensures across { IsTrue result → AreBounded (2 ^ 10) across }
    ensures down { IsTrue result → AreBounded (2 ^ 10) down }
{
    let greater = across.abs().simd_max(down.abs());
    greater.simd_lt(i32x4::splat(FEW)).all()
}

/// How far a place lies past each vertex.
#[inline(always)]
pub fn past(place: i32, at: [i32; 3]) -> i32x4
    requires at { AreClose at }
    requires place { Bounded (2 ^ 4) (place -ℤ lane at 0) }
    ensures value { result ≡ around (place -ℤ lane at 0) (place -ℤ lane at 1) (place -ℤ lane at 2) }
    ensures bounded { AreBounded (2 ^ 11) result }
{
    let begins = i32x4::from_array([at[0], at[1], at[2], at[0]]);
    i32x4::splat(place).strict_sub(begins)
}

/// The edges' values at a sample that lies so far past each edge's begin.
#[inline(always)]
pub fn values(row: i32x4, column: i32x4, right: i32x4, below: i32x4) -> i32x4
    requires row { AreBounded (2 ^ 10) row }
    requires column { AreBounded (2 ^ 10) column }
    requires right { AreBounded (2 ^ 11) right }
    requires below { AreBounded (2 ^ 11) below }
    ensures value { result ≡ around (value_past row column right below 0)
        (value_past row column right below 1) (value_past row column right below 2) }
    ensures bounded { AreBounded (2 ^ 22) result }
{
    let down = row.strict_mul(below);
    let across = column.strict_mul(right);
    down.strict_add(across)
}

/// The biases of an occluder's edges, without a test: 0 of a top or left edge, else -1.
#[inline(always)]
pub fn biases(row: i32x4, column: i32x4) -> i32x4
    requires row { AreBounded (2 ^ 10) row }
    requires column { AreBounded (2 ^ 10) column }
    ensures value { result ≡ around (sign_of row column 0) (sign_of row column 1) (sign_of row column 2) }
    ensures bounded { AreBounded 1 result }
{
    let columns = column.strict_mul(i32x4::splat(ROW));
    let leans = row.strict_add(columns);
    leans.strict_sub(i32x4::splat(1)) >> i32x4::splat(31)
}

/// The sixteenths of the values with their biases, rounded down.
#[inline(always)]
pub fn sixteenths(values: i32x4, biases: i32x4) -> i32x4
    requires values { AreBounded (2 ^ 22) values }
    requires biases { AreBounded 1 biases }
    ensures value { result ≡ around (int_div_euclid (lane values 0 +ℤ lane biases 0) (pos 16))
        (int_div_euclid (lane values 1 +ℤ lane biases 1) (pos 16))
        (int_div_euclid (lane values 2 +ℤ lane biases 2) (pos 16)) }
    ensures bounded { AreBounded (2 ^ 20) result }
{
    let biased = values.strict_add(biases);
    biased >> i32x4::splat(4)
}

/// The values so many pixels further.
#[inline(always)]
pub fn moved(start: i32x4, column: i32x4, row: i32x4, across: i32, down: i32) -> i32x4
    requires start { AreBounded (2 ^ 20) start }
    requires column { AreBounded (2 ^ 10) column }
    requires row { AreBounded (2 ^ 10) row }
    requires across { Bounded (2 ^ 19) across }
    requires down { Bounded (2 ^ 19) down }
    ensures value { result ≡ around (value_from start column row across down 0)
        (value_from start column row across down 1) (value_from start column row across down 2) }
    ensures bounded { AreBounded (2 ^ 30 + 2 ^ 20) result }
{
    let columns = column.strict_mul(i32x4::splat(across));
    let rows = row.strict_mul(i32x4::splat(down));
    let beside = start.strict_add(columns);
    beside.strict_add(rows)
}

/// The values held in 16 bits, with their signs.
#[inline(always)]
pub fn held(values: i32x4) -> i32x4
    requires { AreBounded (2 ^ 30 + 2 ^ 20) values }
    ensures value { result
        ≡ around (held_few (lane values 0)) (held_few (lane values 1)) (held_few (lane values 2)) }
    ensures bounded { AreBounded (2 ^ 14) result }
{
    values
        .simd_min(i32x4::splat(FAR))
        .simd_max(i32x4::splat(-FAR))
}
