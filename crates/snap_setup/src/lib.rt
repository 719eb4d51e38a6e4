//! From clip vertices to pieces: clipping, snapping to sixteenths of a pixel, and the choice of which triangles
//! are kept. Every quotient is exact.
#![tactic(auto)]

mod boxes;
mod frame;
mod keeping;
mod laws;
mod occluders;
mod pieces;
mod runs;
mod sampled;
mod snapping;
mod triangle;
mod vertices;

pub use boxes::{near_box, rect_between};
pub use frame::{corners, frame_list};
pub use laws::{one_batch, within_top};
pub use occluders::Occluders;
pub use pieces::Pieces;
pub use runs::frame_list_by_workers;
pub use sampled::{KeptList, sampled_list};
pub use snapping::{Place, Snapped, place_of, snap};
pub use triangle::set_up;
