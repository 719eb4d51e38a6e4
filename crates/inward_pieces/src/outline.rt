//! Convex outlines on the screen, in floats, cut side by side.
ghost use Rattle.std.specs.Prelude.{◌≤◌, length};

use crate::spot::{Side, Spot};
use arrayvec::ArrayVec;
use pixel_forms::{Eye, Forms, NearnessForm};

/// The corners of an outline, in order: at most twelve, four of the screen's and one a cut of the eight of a quad.
#[derive(Drop)]
pub(crate) struct Outline {
    spots: ArrayVec<Spot, 12>,
}

impl Outline {
    fn empty() -> Outline {
        Outline {
            spots: ArrayVec::new(),
        }
    }

    // The screen, a sixteenth of a pixel more on each side.
    fn around_screen(eye: &Eye) -> Outline {
        let right = 16.0 * f64::from(eye.width) + 1.0;
        let lower = 16.0 * f64::from(eye.height) + 1.0;
        let mut outline = Outline::empty();
        outline.push(Spot { x: -1.0, y: -1.0 });
        outline.push(Spot { x: right, y: -1.0 });
        outline.push(Spot { x: right, y: lower });
        outline.push(Spot { x: -1.0, y: lower });
        outline
    }

    // A cut of an outline that isn't quite convex, as floats are, may want more room: a corner is left out then.
    fn push(&mut self, spot: Spot) {
        if !self.spots.is_full() {
            self.spots.push(spot);
        }
    }

    fn push_crossing(&mut self, side: &Side, from: &Spot, to: &Spot) {
        let first = side.value(from);
        let second = side.value(to);
        if (0.0 <= first) != (0.0 <= second) {
            self.push(from.towards(to, first / (first - second)));
        }
    }

    // What of it lies on a side.
    fn cut(self, side: &Side) -> Outline {
        let mut left = Outline::empty();
        let spots = self.spots.as_slice();
        let Some(last) = spots.last() else {
            return left;
        };
        let mut before = *last;
        for spot in spots {
            left.push_crossing(side, &before, spot);
            if 0.0 <= side.value(spot) {
                left.push(*spot);
            }
            before = *spot;
        }
        left
    }

    // What of it is in front of the eye, and behind the near plane.
    fn seen(self, plane: &NearnessForm) -> Outline {
        self.cut(&Side::within(&plane.form))
            .cut(&Side::behind_near(plane))
    }

    /// The part of the screen where all of the forms can be certified.
    pub(crate) fn of(forms: &Forms, eye: &Eye) -> Outline {
        let outline = Outline::around_screen(eye)
            .cut(&Side::within(&forms.first))
            .cut(&Side::within(&forms.second))
            .cut(&Side::within(&forms.third))
            .seen(&forms.plane);
        match &forms.other {
            Some(half) => outline.cut(&Side::within(&half.edge)).seen(&half.plane),
            None => outline,
        }
    }

    /// The corners.
    pub(crate) fn spots(&self) -> &[Spot]
        ensures { length result.now ≤ 12 }
    {
        self.spots.as_slice()
    }
}
