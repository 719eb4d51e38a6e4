//! Meshes, tested against the tiles: whether each sample that a piece touches is hidden.
#![tactic(auto)]

mod area;
mod edged_tile;
mod mesh;
mod piece;
mod vertices;

pub use area::mesh_area;
pub use mesh::{Progress, ask_triangle, mesh_test};
