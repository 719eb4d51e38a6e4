//! The scene that a number makes: random triangles, boxes between them, and four cameras.
#![tactic(auto)]

mod generator;
mod scene;

pub use scene::{BOXES, FRAMES, demo_scene};

#[cfg(test)]
mod tests;
