//! Points that are given up to a scale.

/// The clip point (x, y, w) / scale.
#[derive(Clone, Copy, Debug, PartialEq, Eq)]
pub struct HomPoint {
    pub x: i64,
    pub y: i64,
    pub w: i64,
    pub scale: i64,
}
