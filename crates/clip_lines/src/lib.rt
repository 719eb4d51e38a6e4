//! Lines through the corners of triangles, and the planes that they lie in, in whole numbers, each with what it may be
//! off by. A unit's power is taken off until products fit.
#![tactic(auto)]

mod corner;
mod line;
mod plane;

pub use corner::{Corner, shift_of};
pub use line::Line;
pub use plane::Plane;
