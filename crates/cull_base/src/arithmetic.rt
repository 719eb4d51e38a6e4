//! Steps of arithmetic on screen coordinates that stay inside their width, each with its value and its bound.
ghost use Rattle.std.specs.Prelude.{◌≡◌, ℕ, ℤ, pos, ◌^◌, ◌*◌, ◌-ℤ◌, ◌*ℤ◌, ◌≤ℤ◌};
ghost use Rattle.cull_base.specs.Piece.{IsCoordinate, point, edge_value};
ghost use Rattle.cull_base.specs.Bounds.{Bounded};

/// A pixel's number without its sign. Condition: it isn't below 0.
#[inline(always)]
pub fn pixel_of(place: i32) -> u32
    requires { pos 0 ≤ℤ place }
    ensures { pos result ≡ place }
{
    place as u32
}

/// a - b.
#[inline(always)]
pub fn difference(a: i32, b: i32) -> i64
    requires a_within { IsCoordinate a }
    requires b_within { IsCoordinate b }
    ensures value { result ≡ a -ℤ b }
    ensures bounded { Bounded (2 ^ 30) result }
{
    i64::from(a) - i64::from(b)
}

/// a * b.
#[inline(always)]
pub fn product(a: i64, b: i64) -> i64
    requires a_bounded { Bounded (2 ^ 30) a }
    requires b_bounded { Bounded (2 ^ 30) b }
    ensures value { result ≡ a *ℤ b }
    ensures bounded { Bounded (2 ^ 60) result }
{
    a * b
}

/// a - b. Its bound is twice that of both.
#[inline(always)]
pub fn minus(a: i64, b: i64) -> i64
    requires a_bounded { Bounded (2 ^ 60) a }
    requires b_bounded { Bounded (2 ^ 60) b }
    ensures value { result ≡ a -ℤ b }
    ensures bounded { (n : ℕ) → Bounded n a → Bounded n b → Bounded (2 * n) result }
{
    a - b
}

/// The value at the third point of the edge from the first to the second: the doubled area of the triangle, positive
/// where it runs clockwise on the screen.
#[inline(always)]
pub fn edge_value(ax: i32, ay: i32, bx: i32, by: i32, px: i32, py: i32) -> i64
    requires ax { IsCoordinate ax }
    requires ay { IsCoordinate ay }
    requires bx { IsCoordinate bx }
    requires by { IsCoordinate by }
    requires px { IsCoordinate px }
    requires py { IsCoordinate py }
    ensures value { result ≡ edge_value (point ax ay) (point bx by) (point px py) }
    ensures bounded { Bounded (2 ^ 61) result }
{
    minus(
        product(difference(bx, ax), difference(py, ay)),
        product(difference(by, ay), difference(px, ax)),
    )
}
