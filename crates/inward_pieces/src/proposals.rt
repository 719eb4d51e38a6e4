//! The pieces of triangles and of quads.
ghost use Rattle.std.specs.Prelude.{◌≤◌, ◌-◌, length, IfSome};
ghost use Rattle.std.specs.List.{All};
ghost use Rattle.cull_base.specs.Piece.{IsPiece};
ghost use Rattle.pixel_forms.specs.Nearness.{AreSmall};
ghost use Rattle.inward_pieces.specs.Fans.{HasCorners};
ghost use Rattle.inward_pieces.specs.Pieces.{IsWithinTriangle, IsWithinQuad};

use crate::fan::fan;
use crate::fan_pieces::FanPieces;
use crate::outline::Outline;
use crate::outlook::{Outlook, quad_outlook, triangle_outlook};
use crate::spot::{Side, Spot};
use exact_clip::Held;
use pixel_forms::{Eye, Forms};

// Whether lines may bound pieces without a cut by the screen.
#[inline(always)]
fn can_be_whole(outlook: Outlook, corners: &[Spot]) -> bool {
    outlook == Outlook::Whole && corners.iter().all(|corner| corner.is_near())
}

// Where a triangle's lines cross. None: the near plane cuts it, or a crossing is far out.
#[inline(always)]
fn triangle_corners(forms: &Forms, outlook: Outlook) -> Option<[Spot; 3]> {
    let ab = Side::within(&forms.first);
    let bc = Side::within(&forms.second);
    let ca = Side::within(&forms.third);
    let corners = [ca.crossing(&ab), ab.crossing(&bc), bc.crossing(&ca)];
    can_be_whole(outlook, &corners).then_some(corners)
}

// Where a quad's lines cross. None: as above.
#[inline(always)]
fn quad_corners(forms: &Forms, outlook: Outlook) -> Option<[Spot; 4]> {
    let half = forms.other?;
    let ab = Side::within(&forms.first);
    let bc = Side::within(&forms.second);
    let cd = Side::within(&forms.third);
    let da = Side::within(&half.edge);
    let corners = [
        da.crossing(&ab),
        ab.crossing(&bc),
        bc.crossing(&cd),
        cd.crossing(&da),
    ];
    can_be_whole(outlook, &corners).then_some(corners)
}

// Out of line, since few triangles are cut: the pieces within what is left of the screen, of which at most so many
// corners are taken. Condition: at most twelve.
#[inline(never)]
fn cut_pieces(forms: &Forms, eye: &Eye, most: usize) -> Option<FanPieces>
    requires small { AreSmall forms.now }
    requires most { most ≤ 12 }
    ensures certified { IfSome result (All (HasCorners eye.now forms.now)) }
    ensures most { IfSome result (λ pieces. length pieces ≤ most - 2) }
{
    let outline = Outline::of(forms, eye);
    let spots = outline.spots();
    fan(forms, eye, &spots[..spots.len().min(most)])
}

#[inline(always)]
fn triangle_fan(forms: &Forms, eye: &Eye, outlook: Outlook) -> Option<FanPieces>
    requires { AreSmall forms.now }
    ensures certified { IfSome result (All (HasCorners eye.now forms.now)) }
    ensures most { IfSome result (λ pieces. length pieces ≤ 7) }
{
    match triangle_corners(forms, outlook) {
        Some(corners) => fan(forms, eye, &corners),
        None => cut_pieces(forms, eye, 9),
    }
}

#[inline(always)]
fn quad_fan(forms: &Forms, eye: &Eye, outlook: Outlook) -> Option<FanPieces>
    requires { AreSmall forms.now }
    ensures { IfSome result (All (HasCorners eye.now forms.now)) }
{
    match quad_corners(forms, outlook) {
        Some(corners) => fan(forms, eye, &corners),
        None => cut_pieces(forms, eye, 12),
    }
}

/// The pieces of a triangle, at most seven: over the square around each sample of the screen that one covers there is the
/// triangle, no farther than the piece says. There is none of a triangle that is thin, dropped by its winding, or too
/// small for such a square.
#[inline(always)]
pub fn triangle_pieces(eye: &Eye, a: &Held, b: &Held, c: &Held) -> FanPieces
    ensures pieces { All IsPiece result }
    ensures within { All (IsWithinTriangle eye.now a.now b.now c.now) result }
    ensures most { length result ≤ 7 }
{
    let outlook = triangle_outlook(eye, a, b, c);
    if outlook == Outlook::Nothing {
        return FanPieces::none();
    }
    let Some(forms) = Forms::triangle(eye, a, b, c) else {
        return FanPieces::none();
    };
    match triangle_fan(&forms, eye, outlook) {
        Some(pieces) => pieces,
        None => FanPieces::none(),
    }
}

/// The pieces of a quad a b c d that is cut along a c, at most ten: over each such square there is one of its two
/// triangles. None: the triangles have to be taken each alone.
#[inline(always)]
pub fn quad_pieces(eye: &Eye, a: &Held, b: &Held, c: &Held, d: &Held) -> Option<FanPieces>
    ensures pieces { IfSome result (All IsPiece) }
    ensures within { IfSome result (All (IsWithinQuad eye.now a.now b.now c.now d.now)) }
{
    let outlook = quad_outlook(eye, a, b, c, d);
    if outlook == Outlook::Nothing {
        return Some(FanPieces::none());
    }
    let Some(forms) = Forms::quad(eye, a, b, c, d) else {
        return None;
    };
    match quad_fan(&forms, eye, outlook) {
        Some(pieces) => if pieces.is_empty() {
            None
        } else {
            Some(pieces)
        },
        None => None,
    }
}
