//! Fans of pieces within an outline.
ghost use Rattle.std.specs.Prelude.{◌≤◌, ◌-◌, ◌+◌, length, IfSome};
ghost use Rattle.std.specs.List.{All};
ghost use Rattle.pixel_forms.specs.Nearness.{AreSmall};
ghost use Rattle.inward_pieces.specs.Fans.{HasCorners};

use crate::corner::{certified, piece};
use crate::fan_pieces::FanPieces;
use crate::spot::Spot;
use pixel_forms::{Eye, Forms};

/// The pieces between the first place of an outline and the sides that it isn't on, each with its corners at the closest
/// whole numbers. None: a corner isn't certified. Condition: at most twelve places.
#[inline(always)]
pub(crate) fn fan(forms: &Forms, eye: &Eye, outline: &[Spot]) -> Option<FanPieces>
    requires small { AreSmall forms.now }
    requires room { length outline.now ≤ 12 }
    ensures certified { IfSome result (All (HasCorners eye.now forms.now)) }
    ensures most { IfSome result (λ pieces. length pieces ≤ length outline.now - 2) }
{
    let [first, second, rest @ ..] = outline else {
        return None;
    };
    let first = certified(forms, eye, first)?;
    let mut before = certified(forms, eye, second)?;
    let mut pieces = FanPieces::none();
    for spot in rest {
        let corner = certified(forms, eye, spot)?;
        pieces = pieces.with(piece(&first, &before, &corner));
        before = corner;
    }
    Some(pieces)
}
