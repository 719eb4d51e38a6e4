//! Scenes: their bytes are read, tested and written here, so the layers above never see a scene that isn't valid.
#![tactic(auto)]

mod batches;
mod checks;
mod error;
mod header;
mod intake;
mod laws;
mod numbers;
mod objects;
mod parts;
mod reading;
mod scene;
mod tables;
mod writing;

pub use error::SceneError;
pub use laws::{one_layout, upgrades_scenes};
pub use parts::SceneParts;
pub use reading::{read_part, read_scene};
pub use scene::{Scene, upgrade};
pub use writing::write_scene;
