//! Corners that whole numbers certify, and the pieces between three of them.
ghost use Rattle.std.specs.Prelude.{◌≡◌, pos, ◌<ℤ◌, IfSome};
ghost use Rattle.cull_base.specs.Piece.{doubled_area};
ghost use Rattle.pixel_forms.specs.declared.eye.Eye.{Eye};
ghost use Rattle.pixel_forms.specs.declared.forms.Forms.{Forms};
ghost use Rattle.pixel_forms.specs.Nearness.{AreSmall};
ghost use Rattle.inward_pieces.specs.Fans.{IsPlaced, IsCorner, HasCorners, between};

use crate::spot::{Spot, rounded};
use cull_base::ScreenTri;
use cull_base::arithmetic::edge_value;
use pixel_forms::{Eye, Forms};

/// A corner in sixteenths of a pixel, with its nearness.
#[derive(Clone, Copy)]
pub(crate) struct Corner {
    pub(crate) x: i32,
    pub(crate) y: i32,
    pub(crate) q: u32,
}

/// The corner closest to a place. None: it isn't certified.
#[inline(always)]
pub(crate) fn certified(forms: &Forms, eye: &Eye, spot: &Spot) -> Option<Corner>
    requires { AreSmall forms.now }
    ensures { IfSome result (IsCorner eye.now forms.now) }
{
    let x = rounded(spot.x)?;
    let y = rounded(spot.y)?;
    let q = forms.nearness_at(eye, x, y)?;
    Some(Corner { x, y, q })
}

// Positive where the corners run clockwise on the screen.
#[inline(always)]
fn doubled_area(a: &Corner, b: &Corner, c: &Corner) -> i64
    requires a { IsPlaced a.now }
    requires b { IsPlaced b.now }
    requires c { IsPlaced c.now }
    ensures { result ≡ doubled_area (between a.now b.now c.now) }
{
    edge_value(a.x, a.y, b.x, b.y, c.x, c.y)
}

#[inline(always)]
fn between(a: &Corner, b: &Corner, c: &Corner) -> ScreenTri
    requires a { IsPlaced a.now }
    requires b { IsPlaced b.now }
    requires c { IsPlaced c.now }
    requires area { pos 0 <ℤ doubled_area (between a.now b.now c.now) }
    ensures { result ≡ between a.now b.now c.now }
{
    ScreenTri::from_valid([a.x, b.x, c.x], [a.y, b.y, c.y], [a.q, b.q, c.q])
}

/// The piece between three corners, turned so that its area is positive. None: its area is 0.
#[inline(always)]
pub(crate) fn piece(a: &Corner, b: &Corner, c: &Corner) -> Option<ScreenTri>
    requires a { IsPlaced a.now }
    requires b { IsPlaced b.now }
    requires c { IsPlaced c.now }
    ensures { IfSome result (λ t. (eye : Eye) (forms : Forms)
        → IsCorner eye forms a.now → IsCorner eye forms b.now → IsCorner eye forms c.now → HasCorners eye forms t) }
{
    let area = doubled_area(a, b, c);
    if area == 0 {
        None
    } else if area < 0 {
        Some(between(a, c, b))
    } else {
        Some(between(a, b, c))
    }
}
