//! From the scene into clip space: where a vertex lies as a camera sees it, whether that is before the near distance,
//! and the guard, past which nothing is held in whole numbers.
#![tactic(auto)]

mod boxes;
mod camera;
mod clips;
mod guard;
mod identity;

pub use camera::Camera;
pub use clips::{clip_all, clip_into};
pub use guard::{is_behind, past_guard};
pub use identity::identity_keeps;
