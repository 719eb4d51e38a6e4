//! Coverage: which of a subtile's 32 samples lie inside the three edges of a piece, eight columns at a time.
#![tactic(auto)]

mod arithmetic;
mod bias;
mod crossing;
mod crossings;
mod edges;
mod eight_columns;
mod narrow_edge;
mod narrow_edges;
mod near_edges;
mod reciprocal;
mod row_edges;
mod shared;
mod slant;
mod small_edge;
mod small_edges;
mod small_lanes;
mod spans;
mod tile_edges;
mod tile_row;
mod turned;
mod wide_edge;
mod wide_edges;

pub use crossings::Crossings;
pub use edges::Edges;
pub use near_edges::NearEdges;
pub use row_edges::{EdgesView, RowEdges};
pub use shared::shared_edge;
pub use small_edges::SmallEdges;
pub use tile_edges::TileEdges;
pub use tile_row::TileRow;
