//! The forms of a triangle or a quad, by its corners.
ghost use Rattle.std.specs.Prelude.{◌≡◌, ℕ, pos, true, ◌<◌, ◌≤ℤ◌, IfSome};
ghost use Rattle.exact_clip.specs.Clip.{Clip};
ghost use Rattle.exact_clip.specs.Held.{Holds};

use crate::eye::Eye;
use crate::form::Form;
use crate::forms::{Forms, Half};
use crate::narrow_line::NarrowLine;
use crate::nearness_form::NearnessForm;
use clip_lines::{Corner, Line, Plane, shift_of};
use exact_clip::Held;

// Whether no corner lies before the near distance.
#[inline(always)]
fn is_front(eye: &Eye, a: &Held, b: &Held, c: &Held) -> bool
    ensures a { result ≡ true → pos eye.now.near ≤ℤ a.now.w }
    ensures b { result ≡ true → pos eye.now.near ≤ℤ b.now.w }
    ensures c { result ≡ true → pos eye.now.near ≤ℤ c.now.w }
{
    let near = i64::from(eye.near);
    near <= a.w && near <= b.w && near <= c.w
}

impl Form {
    ghost use Rattle.clip_lines.specs.Lines.{StandsFor};
    ghost use Rattle.clip_lines.specs.Parts.{of_line, IsSumOf};
    ghost use Rattle.pixel_forms.specs.Seen.{size_seen, turned_line};
    ghost use Rattle.pixel_forms.specs.Forms.{IsSmall, IsFormOf};

    // Of an edge, which is positive inside.
    #[inline(always)]
    fn of_edge(eye: &Eye, line: &Line, is_turned: bool) -> Form
        requires { IsSumOf 1 line.now }
        ensures small { IsSmall result }
        ensures stands { (scale : ℕ) (exact : Clip) → StandsFor scale line.now.off (of_line line.now) exact
            → (s : ℕ) × IsFormOf (size_seen eye.now) eye.now.reach s result (turned_line is_turned exact) }
    {
        Form::of(eye, &NarrowLine::of(line).turned(is_turned))
    }
}

impl Forms {
    ghost use Rattle.pixel_forms.specs.Seen.{sight_of, nearest_of};
    ghost use Rattle.pixel_forms.specs.Certified.{StandFor, IsTriangle, IsHalf};
    ghost use Rattle.pixel_forms.specs.Nearness.{AreSmall};

    /// Of a triangle. None: it is thin, so that it isn't known which way round it runs, or that way isn't kept.
    pub fn triangle(eye: &Eye, a: &Held, b: &Held, c: &Held) -> Option<Forms>
        ensures small { IfSome result AreSmall }
        ensures stand { IfSome result (λ forms. (unit : ℕ) (p q r : Clip) → 0 < unit
            → Holds unit a.now p → Holds unit b.now q → Holds unit c.now r
            → StandFor (sight_of eye.now unit) (nearest_of eye.now) forms (IsTriangle p q r)) }
    {
        let shift = shift_of(&[*a, *b, *c]);
        let p = Corner::of(a, shift);
        let q = Corner::of(b, shift);
        let r = Corner::of(c, shift);
        let pq = Line::through(&p, &q);
        let qr = Line::through(&q, &r);
        let rp = Line::through(&r, &p);
        let plane = Plane::of(&p, &pq, &qr, &rp)?;
        if !eye.keeps(plane.is_turned) {
            return None;
        }
        let nearness = NearnessForm::of(eye, shift, &plane, is_front(eye, a, b, c))?;
        Some(Forms {
            first: Form::of_edge(eye, &pq, plane.is_turned),
            second: Form::of_edge(eye, &qr, plane.is_turned),
            third: Form::of_edge(eye, &rp, plane.is_turned),
            plane: nearness,
            other: None,
        })
    }

    /// Of a quad of the triangles a b c and a c d. None: one of them is thin, they don't run the same way round, or that
    /// way isn't kept.
    pub fn quad(eye: &Eye, a: &Held, b: &Held, c: &Held, d: &Held) -> Option<Forms>
        ensures small { IfSome result AreSmall }
        ensures stand { IfSome result (λ forms. (unit : ℕ) (p q r s : Clip) → 0 < unit
            → Holds unit a.now p → Holds unit b.now q → Holds unit c.now r → Holds unit d.now s
            → StandFor (sight_of eye.now unit) (nearest_of eye.now) forms (IsHalf p q r s)) }
    {
        let shift = shift_of(&[*a, *b, *c, *d]);
        let p = Corner::of(a, shift);
        let q = Corner::of(b, shift);
        let r = Corner::of(c, shift);
        let s = Corner::of(d, shift);
        let pq = Line::through(&p, &q);
        let qr = Line::through(&q, &r);
        let rs = Line::through(&r, &s);
        let sp = Line::through(&s, &p);
        let rp = Line::through(&r, &p);
        let plane = Plane::of(&p, &pq, &qr, &rp)?;
        let over = Plane::of(&p, &rp.opposite(), &rs, &sp)?;
        if plane.is_turned != over.is_turned || !eye.keeps(plane.is_turned) {
            return None;
        }
        let nearness = NearnessForm::of(eye, shift, &plane, is_front(eye, a, b, c))?;
        let nearness_over = NearnessForm::of(eye, shift, &over, is_front(eye, a, c, d))?;
        Some(Forms {
            first: Form::of_edge(eye, &pq, plane.is_turned),
            second: Form::of_edge(eye, &qr, plane.is_turned),
            third: Form::of_edge(eye, &rs, plane.is_turned),
            plane: nearness,
            other: Some(Half {
                edge: Form::of_edge(eye, &sp, plane.is_turned),
                plane: nearness_over,
            }),
        })
    }
}
