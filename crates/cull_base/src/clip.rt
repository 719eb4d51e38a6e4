//! Clip space.

/// A vertex in clip space, before the division by w.
#[derive(Clone, Copy, Debug, PartialEq, Eq)]
pub struct ClipVertex {
    pub x: i64,
    pub y: i64,
    pub w: i64,
}
