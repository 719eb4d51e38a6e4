//! Pieces of triangles and quads of clip points that say no more than these do. They are proposed in floats, and kept
//! where whole numbers certify each of their corners; nothing else rests on the floats.
#![tactic(auto)]

mod corner;
mod fan;
mod fan_pieces;
mod outline;
mod outlook;
mod proposals;
mod spot;

pub use fan_pieces::FanPieces;
pub use proposals::{quad_pieces, triangle_pieces};
