//! The parts of a scene that it shares with its report.
use crate::rect::Rect;
use crate::triangle::Winding;

/// A triangle by the numbers of its vertices.
#[derive(Clone, Copy, Debug, PartialEq, Eq)]
pub struct Tri(pub [u32; 3]);

/// So many occluder triangles one after another, all with the same winding.
#[derive(Clone, Copy, Debug, PartialEq, Eq)]
pub struct Batch {
    pub count: u32,
    pub winding: Winding,
}

/// An object of a scene: a rectangle of pixels at a distance, a box in space, or a range of object triangles.
#[derive(Clone, Copy, Debug, PartialEq, Eq)]
pub enum Object {
    Area { rect: Rect, w: i32 },
    Block { low: [i32; 3], high: [i32; 3] },
    Mesh { first: u32, count: u32 },
}

/// The result of an object's test.
#[derive(Clone, Copy, Debug, PartialEq, Eq)]
pub enum Verdict {
    Visible,
    Occluded,
    Outside,
}
