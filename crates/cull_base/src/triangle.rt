//! How a triangle counts: by the sense in which it runs, and by what it is for.

/// Which triangles are dropped by the sense in which they run on the screen.
#[derive(Clone, Copy, Debug, PartialEq, Eq)]
pub enum Winding {
    Both,
    DropClockwise,
    DropCounter,
}

/// What a triangle is for: an occluder hides, and its nearness is rounded down; an object is tested, and its nearness is
/// rounded up.
#[derive(Clone, Copy, Debug, PartialEq, Eq)]
pub enum Side {
    Occluder,
    Object,
}
