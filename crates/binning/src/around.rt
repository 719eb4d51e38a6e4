//! A rectangle around some bins: what misses it misses all of them.
ghost use Rattle.std.specs.Prelude.{◌≡◌, true};
ghost use Rattle.std.specs.Int.{int_min, int_max};
ghost use Rattle.cull_base.specs.Rectangle.{meets};
ghost use Rattle.binning.specs.Rooms.{IsAround, least_with};

use crate::rooms::BinRoom;
use cull_base::{NO_PIXELS, Rect};

fn lesser(a: i32, b: i32) -> i32
    ensures { result ≡ int_min a b }
{
    a.min(b)
}

fn greater(a: i32, b: i32) -> i32
    ensures { result ≡ int_max a b }
{
    a.max(b)
}

// The least rectangle that has two.
fn least_with(a: &Rect, b: &Rect) -> Rect
    ensures { result ≡ least_with a.now b.now }
{
    Rect {
        x0: lesser(a.x0, b.x0),
        y0: lesser(a.y0, b.y0),
        x1: greater(a.x1, b.x1),
        y1: greater(a.y1, b.y1),
    }
}

// The same, where one without columns takes no room.
fn around_both(a: &Rect, b: &Rect) -> Rect
    ensures first { (box : Rect) → meets box a.now ≡ true → meets box result ≡ true }
    ensures second { (box : Rect) → meets box b.now ≡ true → meets box result ≡ true }
{
    if a.x1 <= a.x0 {
        *b
    } else if b.x1 <= b.x0 {
        *a
    } else {
        least_with(a, b)
    }
}

/// A rectangle that each box meets which meets a room's bin.
pub fn rect_around(rooms: &[BinRoom]) -> Rect
    ensures { IsAround result rooms.now }
{
    let mut around = NO_PIXELS;
    for room in rooms {
        around = around_both(&around, room.rect());
    }
    around
}
