//! What tests of scenes share: scenes in bytes, their frames, and waits of gates.
#![tactic(auto)]

mod bytes;
mod frames;
mod waiting;

pub use bytes::{
    FIRST, OCCLUDED, QUAD, TWO, UNDRAWN, VISIBLE, WHOLE, changed, first_bytes, first_scene,
    in_batches, scene, scene_of, second_scene, seen_from, two_frames, wide_scene,
};
pub use frames::{clips_of, first_list, scene_from};
pub use waiting::{Patience, wait_for};
