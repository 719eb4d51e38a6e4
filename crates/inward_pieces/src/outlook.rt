//! What triangles and quads may leave on the screen, guessed in floats. What is dropped here isn't drawn.

use crate::spot::{Spot, float};
use cull_base::Winding;
use exact_clip::Held;
use pixel_forms::Eye;

/// What of a triangle or a quad there is to be drawn.
#[derive(Clone, Copy, PartialEq, Eq)]
pub(crate) enum Outlook {
    /// Nothing: no square around a pixel's middle is within it, or its winding is dropped.
    Nothing,
    /// All of it: it lies behind the near plane.
    Whole,
    /// The part behind the near plane.
    Cut,
}

/// The near distance in units, the screen in pixels, the reach in sixteenths of one.
#[derive(Clone, Copy)]
struct View {
    near: f64,
    width: f64,
    height: f64,
    reach: f64,
    winding: Winding,
}

/// A clip point in units.
#[derive(Clone, Copy)]
struct Point {
    x: f64,
    y: f64,
    w: f64,
}

/// Which of the planes a point is beyond that bound what is seen.
#[derive(Clone, Copy)]
struct Beyond {
    near: bool,
    left: bool,
    right: bool,
    upper: bool,
    lower: bool,
}

/// From a least to a greatest coordinate, in sixteenths of a pixel.
#[derive(Clone, Copy)]
struct Span {
    least: f64,
    greatest: f64,
}

impl View {
    #[inline(always)]
    fn of(eye: &Eye) -> View {
        View {
            near: f64::from(eye.near),
            width: f64::from(eye.width),
            height: f64::from(eye.height),
            reach: f64::from(eye.reach),
            winding: eye.winding,
        }
    }

    // A positive area is clockwise.
    #[inline(always)]
    fn drops(&self, area: f64) -> bool {
        match self.winding {
            Winding::Both => false,
            Winding::DropClockwise => 1.0 < area,
            Winding::DropCounter => area < -1.0,
        }
    }

    // Whether the square around a pixel's middle lies between the ends along both axes.
    #[inline(always)]
    fn has_middle(&self, across: Span, down: Span) -> bool {
        across.has_middle(self.reach, self.width) && down.has_middle(self.reach, self.height)
    }
}

impl Point {
    #[inline(always)]
    fn of(v: &Held) -> Point {
        Point {
            x: float(v.x),
            y: float(v.y),
            w: float(v.w),
        }
    }

    #[inline(always)]
    fn beyond(&self, view: &View) -> Beyond {
        Beyond {
            near: self.w < view.near,
            left: self.x < -self.w,
            right: self.w < self.x,
            upper: self.w < self.y,
            lower: self.y < -self.w,
        }
    }

    #[inline(always)]
    fn spot(&self, view: &View) -> Spot {
        let part = 1.0 / self.w;
        Spot {
            x: (1.0 + self.x * part) * (8.0 * view.width),
            y: (1.0 - self.y * part) * (8.0 * view.height),
        }
    }
}

impl Beyond {
    // Of two points, the planes that both are beyond.
    #[inline(always)]
    fn both(self, other: Beyond) -> Beyond {
        Beyond {
            near: self.near & other.near,
            left: self.left & other.left,
            right: self.right & other.right,
            upper: self.upper & other.upper,
            lower: self.lower & other.lower,
        }
    }

    #[inline(always)]
    fn is_any(&self) -> bool {
        self.near | self.left | self.right | self.upper | self.lower
    }
}

impl Span {
    #[inline(always)]
    fn of(a: f64, b: f64) -> Span {
        Span {
            least: if a < b { a } else { b },
            greatest: if a < b { b } else { a },
        }
    }

    #[inline(always)]
    fn join(self, other: Span) -> Span {
        Span {
            least: if self.least < other.least {
                self.least
            } else {
                other.least
            },
            greatest: if self.greatest < other.greatest {
                other.greatest
            } else {
                self.greatest
            },
        }
    }

    // Whether the middle of a pixel, of so many from 0 on, lies in it, no closer to its ends than the reach.
    #[inline(always)]
    fn has_middle(self, reach: f64, pixels: f64) -> bool {
        let last = ((self.greatest - reach - 8.0) * 0.0625).floor();
        let last = if last < pixels { last } else { pixels - 1.0 };
        0.0 <= last && self.least + reach <= 16.0 * last + 8.0
    }
}

#[inline(always)]
fn doubled_area(a: Spot, b: Spot, c: Spot) -> f64 {
    (b.x - a.x) * (c.y - a.y) - (b.y - a.y) * (c.x - a.x)
}

// A square within a triangle has at most half of its area.
#[inline(always)]
fn shows_triangle(view: &View, a: Spot, b: Spot, c: Spot) -> bool {
    let across = Span::of(a.x, b.x).join(Span::of(c.x, c.x));
    let down = Span::of(a.y, b.y).join(Span::of(c.y, c.y));
    let area = doubled_area(a, b, c);
    view.has_middle(across, down)
        && 16.0 * view.reach * view.reach <= area.abs()
        && !view.drops(area)
}

#[inline(always)]
fn shows_quad(view: &View, a: Spot, b: Spot, c: Spot, d: Spot) -> bool {
    let across = Span::of(a.x, b.x).join(Span::of(c.x, d.x));
    let down = Span::of(a.y, b.y).join(Span::of(c.y, d.y));
    view.has_middle(across, down)
        && !(view.drops(doubled_area(a, b, c)) && view.drops(doubled_area(a, c, d)))
}

/// Of a triangle.
#[inline(always)]
pub(crate) fn triangle_outlook(eye: &Eye, a: &Held, b: &Held, c: &Held) -> Outlook {
    let view = View::of(eye);
    let (a, b, c) = (Point::of(a), Point::of(b), Point::of(c));
    let (at_a, at_b, at_c) = (a.beyond(&view), b.beyond(&view), c.beyond(&view));
    if at_a.both(at_b).both(at_c).is_any() {
        Outlook::Nothing
    } else if at_a.near | at_b.near | at_c.near {
        Outlook::Cut
    } else if shows_triangle(&view, a.spot(&view), b.spot(&view), c.spot(&view)) {
        Outlook::Whole
    } else {
        Outlook::Nothing
    }
}

/// Of a quad.
#[inline(always)]
pub(crate) fn quad_outlook(eye: &Eye, a: &Held, b: &Held, c: &Held, d: &Held) -> Outlook {
    let view = View::of(eye);
    let (a, b, c, d) = (Point::of(a), Point::of(b), Point::of(c), Point::of(d));
    let (at_a, at_b) = (a.beyond(&view), b.beyond(&view));
    let (at_c, at_d) = (c.beyond(&view), d.beyond(&view));
    if at_a.both(at_b).both(at_c.both(at_d)).is_any() {
        Outlook::Nothing
    } else if at_a.near | at_b.near | at_c.near | at_d.near {
        Outlook::Cut
    } else if shows_quad(
        &view,
        a.spot(&view),
        b.spot(&view),
        c.spot(&view),
        d.spot(&view),
    ) {
        Outlook::Whole
    } else {
        Outlook::Nothing
    }
}
