//! A setup and a view that go together, and the units in which clip points are held.
ghost use Rattle.std.specs.Prelude.{◌≡◌, ◌^◌};
ghost use Rattle.pixel_forms.specs.Seen.{sight_of as sight_of_eye};
ghost use Rattle.maskcull_c.specs.Floats.{IsView, sight_of};

use crate::given::{Setup, winding_of};
use crate::view::View;
use box_rays::Reached;
use exact_clip::{Held, Near, Rows};
use pixel_forms::Eye;

/// How floats become clip points, and how these are seen.
#[derive(Clone, Copy)]
pub(crate) struct Lens {
    pub(crate) setup: Setup,
    pub(crate) view: View,
    pub(crate) eye: Eye,
    pub(crate) rows: Rows,
    ghost allowed: { IsView setup view },
    ghost matrix_is: { rows.matrix ≡ view.rows },
    ghost sight_is: { sight_of_eye eye (2 ^ rows.exponent) ≡ sight_of setup view },
}

impl Lens {
    ghost use Rattle.std.specs.Prelude.{◌+◌, ◌*◌, ◌<◌, IfSome, length, List};
    ghost use Rattle.std.specs.List.{AllZip};
    ghost use Rattle.exact_clip.specs.Clip.{Clip};
    ghost use Rattle.exact_clip.specs.Held.{Holds};
    ghost use Rattle.maskcull_c.specs.Floats.{MayStandFor, position_at, position_count};
    ghost use Rattle.maskcull_c.specs.Given.{IsSetup, size_of};
    ghost use Rattle.maskcull_c.specs.Lenses.{IsPoint, MeetsScreen, shape_of, unit_of};

    /// None: the near distance is no number above 0, or one of the matrix is no number.
    pub(crate) fn of(setup: &Setup, view: &View) -> Option<Lens>
        requires setup { IsSetup setup.now }
        requires view { IsView setup.now view.now }
        ensures setup { IfSome result (λ lens. lens.setup ≡ setup.now) }
        ensures view { IfSome result (λ lens. lens.view ≡ view.now) }
    {
        let near = Near::of(view.near_distance)?;
        let rows = Rows::of(&view.rows, &near)?;
        let eye = Eye {
            near: near.distance,
            width: view.width,
            height: view.height,
            reach: view.reach,
            grade: setup.grade(),
            winding: winding_of(setup.winding),
        };
        Some(Lens {
            setup: *setup,
            view: *view,
            eye,
            rows,
        })
    }

    // Where the floats of a position begin. Condition: there is such a position.
    #[inline(always)]
    fn first_float(&self, positions: &[u32], k: usize) -> usize
        requires { k < position_count self.now.view.stride (length positions.now) }
        ensures place { result ≡ self.now.view.stride * k }
        ensures within { result + 2 < length positions.now }
    {
        // the length bounds the product
        let _count = positions.len();
        self.view.stride as usize * k
    }

    /// The floats of a position. Condition: there is such a position.
    #[inline(always)]
    pub(crate) fn position(&self, positions: &[u32], k: usize) -> [u32; 3]
        requires { k < position_count self.now.view.stride (length positions.now) }
        ensures { result ≡ position_at self.now.view.stride positions.now k }
    {
        let first = self.first_float(positions, k);
        [positions[first], positions[first + 1], positions[first + 2]]
    }

    /// The clip point of a position. None: one of its floats is no number, or a product is too great to be held.
    /// Condition: there is such a position.
    #[inline(always)]
    pub(crate) fn point(&self, positions: &[u32], k: usize) -> Option<Held>
        requires { k < position_count self.now.view.stride (length positions.now) }
        ensures { IfSome result (IsPoint self.now positions.now k) }
    {
        self.rows.vertex(&self.position(positions, k))
    }

    /// Where the object between some points is seen.
    pub(crate) fn reached(&self, corners: &[Held]) -> Reached
        ensures stands { (points : List Clip) → AllZip (Holds (unit_of self.now)) corners.now points
            → MayStandFor self.now.setup self.now.view points (shape_of result) }
        ensures meets { MeetsScreen (size_of self.now.setup) result }
    {
        Reached::of(
            corners,
            self.eye.near,
            self.eye.width,
            self.eye.height,
            self.view.share,
            self.eye.grade.top(),
        )
    }
}
