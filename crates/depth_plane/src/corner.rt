//! The corner of a subtile where a plane is least or greatest, picked by the slopes' signs.
ghost use Rattle.std.specs.Prelude.{◌≡◌, ℕ, ℤ, pos, ◌+◌, ◌<◌, ◌^◌, ◌+ℤ◌, ◌*ℤ◌, IfSome, IsTrue, ◌↔◌};
ghost use Rattle.cull_base.specs.Bounds.{Bounded};
ghost use Rattle.depth_plane.specs.Corner.{end_place};
ghost use Rattle.depth_plane.specs.Plane.{coefficients, IsNarrow};

/// From the first sample of a subtile to the last in its row, in sixteenths of a pixel.
pub const SPAN_ACROSS: u32 = 112;

/// From the first sample of a subtile to the last in its column.
pub const SPAN_DOWN: u32 = 48;

/// Where the screen's first sample stands along each axis.
const FIRST: u32 = 8;

/// The steepest slope of a narrow plane: over a screen of 2048 pixels, below 2^15 sixteenths, it adds less than 2^61.
const STEEPEST: i64 = 0x4000_0000_0000;

/// The greatest numerator of a narrow plane at the origin.
const GREATEST: i128 = 0x2000_0000_0000_0000;

/// The least or the greatest of a plane over a subtile.
#[derive(Clone, Copy)]
pub enum End {
    Least,
    Greatest,
}

/// Where along one axis a plane of this slope has that end, from a first place over a span, in sixteenths of a pixel.
#[inline(always)]
pub fn place_along(slope: i64, first: u32, span: u32, end: End) -> u32
    requires first { first < 2 ^ 20 }
    requires span { span < 2 ^ 10 }
    ensures value { result ≡ first + end_place end slope span }
    ensures small { result < 2 ^ 21 }
{
    match end {
        End::Least => { if slope < 0 { first + span } else { first } }
        End::Greatest => { if slope < 0 { first } else { first + span } }
    }
}

#[inline(always)]
fn term(slope: i64, place: u32) -> i128
    requires slope { Bounded (2 ^ 56) slope }
    requires place { place < 2 ^ 21 }
    ensures value { result ≡ slope *ℤ pos place }
    ensures bounded { Bounded (2 ^ 77) result }
{
    i128::from(slope) * i128::from(place)
}

#[inline(always)]
fn sum(a: i128, b: i128, level: i128) -> i128
    requires a { Bounded (2 ^ 77) a }
    requires b { Bounded (2 ^ 77) b }
    requires level { Bounded (2 ^ 87) level }
    ensures value { result ≡ (a +ℤ b) +ℤ level }
    ensures bounded { Bounded (2 ^ 88) result }
{
    a + b + level
}

/// The value of a plane at a place.
#[inline(always)]
pub fn numerator_at(across: i64, down: i64, level: i128, x: u32, y: u32) -> i128
    requires across { Bounded (2 ^ 56) across }
    requires down { Bounded (2 ^ 56) down }
    requires level { Bounded (2 ^ 87) level }
    requires x { x < 2 ^ 21 }
    requires y { y < 2 ^ 21 }
    ensures value { result ≡ ((across *ℤ pos x) +ℤ (down *ℤ pos y)) +ℤ level }
    ensures bounded { Bounded (2 ^ 88) result }
{
    sum(term(across, x), term(down, y), level)
}

fn is_gentle(slope: i64) -> bool
    ensures { IsTrue result ↔ Bounded (2 ^ 46) slope }
{
    -STEEPEST <= slope && slope <= STEEPEST
}

fn is_small(numerator: i128) -> bool
    ensures { IsTrue result ↔ Bounded (2 ^ 61) numerator }
{
    -GREATEST <= numerator && numerator <= GREATEST
}

#[inline(always)]
fn narrow_term(slope: i64, place: u32) -> i64
    requires slope { Bounded (2 ^ 46) slope }
    requires place { place < 2 ^ 15 }
    ensures value { result ≡ slope *ℤ pos place }
    ensures bounded { Bounded (2 ^ 61) result }
{
    slope * i64::from(place)
}

/// The value of a narrow plane so far to the right and below of a place where it is `first`.
#[inline(always)]
pub fn narrow_numerator(across: i64, down: i64, first: i64, right: u32, below: u32) -> i64
    requires across { Bounded (2 ^ 46) across }
    requires down { Bounded (2 ^ 46) down }
    requires first { Bounded (2 ^ 61 + 2 ^ 54) first }
    requires right { right < 2 ^ 15 }
    requires below { below < 2 ^ 15 }
    ensures value { result ≡ (first +ℤ (across *ℤ pos right)) +ℤ (down *ℤ pos below) }
    ensures bounded { Bounded (2 ^ 62 + 2 ^ 61 + 2 ^ 54) result }
{
    first + narrow_term(across, right) + narrow_term(down, below)
}

/// The least value over the first subtile, where the values at a screen's samples fit 64 bits.
#[inline(always)]
pub fn narrow_first(across: i64, down: i64, level: i128) -> Option<i64>
    ensures { (area : ℤ) → IfSome result (IsNarrow (coefficients across down level area)) }
{
    if is_gentle(across) && is_gentle(down) && is_small(level) {
        let x = place_along(across, FIRST, SPAN_ACROSS, End::Least);
        let y = place_along(down, FIRST, SPAN_DOWN, End::Least);
        Some(narrow_numerator(across, down, level as i64, x, y))
    } else {
        None
    }
}
