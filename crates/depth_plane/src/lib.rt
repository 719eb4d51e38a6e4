//! Depth: the plane of a piece's depth over the screen, and its bounds over a subtile.
#![tactic(auto)]

mod corner;
mod floor_lanes;
mod plane;
mod quotient;
mod small_plane;
mod vertices;

pub use plane::Plane;
pub use small_plane::SmallPlane;
