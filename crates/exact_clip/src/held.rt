//! Clip coordinates in whole numbers of a unit.

/// The exact coordinates lie from so many units to less than four units above.
#[derive(Clone, Copy, Debug, PartialEq, Eq)]
pub struct Held {
    pub x: i64,
    pub y: i64,
    pub w: i64,
}
