//! Clipping at the near plane. What lies behind it is cut off, exactly: a cut point keeps its numbers whole by a
//! scale of its own.
#![tactic(auto)]

mod clip;
mod hom_point;
mod polygon;

pub use clip::{clip_near, is_in_front, whole};
pub use hom_point::HomPoint;
pub use polygon::Polygon;
