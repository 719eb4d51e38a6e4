//! Calls for C and C++: triangles are drawn onto tiles in memory of the caller, and rectangles, boxes and meshes are
//! tested against them, by whole numbers in clip space or by floats. Nothing is allocated, kept between calls or started,
//! and no call has a condition.
#![tactic(auto)]

mod ask;
#[cfg(test)]
mod ask_tests;
mod band;
mod draw;
mod float_set_up;
mod float_test;
#[cfg(test)]
mod float_tests;
mod given;
mod laws;
mod lens;
mod mesh;
mod picture;
mod picture_laws;
#[cfg(test)]
mod piece_tests;
mod pieces;
mod scratch;
mod set_up;
mod small_band;
mod status;
#[cfg(test)]
mod tests;
mod tiles;
mod view;

pub use ask::{maskcull_test, maskcull_test_box, maskcull_test_mesh};
pub use draw::{maskcull_draw, maskcull_draw_band};
pub use float_set_up::maskcull_set_up_floats;
pub use float_test::{maskcull_test_box_floats, maskcull_test_mesh_floats};
pub use given::{Area, Corners, Setup, Triangle, Vertex, WIDE};
pub use laws::{after_is_sound, bands_join, part_cleared, slices_join};
pub use picture::maskcull_nearness;
pub use picture_laws::{drawn_is_frame, hidden_in_picture, nearer_than_all};
pub use pieces::{ListedPiece, PieceRoom, maskcull_draw_pieces};
pub use scratch::Scratch;
pub use set_up::maskcull_set_up;
pub use status::{BAD_INDEX, BAD_ROOM, BAD_SETUP, BAD_TILES, DONE, OCCLUDED, OUTSIDE, VISIBLE};
pub use tiles::{SubtileState, maskcull_clear, maskcull_subtile, maskcull_tile_count};
pub use view::{Bounds, View};
