//! Bins: the tiles of a screen cut into columns and rows, and a frame list cut into batches, each with one part a bin.
#![tactic(auto)]

mod around;
mod axis;
mod batches;
mod bins;
mod cut;
mod fill;
mod grid;
mod part;
mod parts;
mod rooms;
mod tiles;

pub use around::rect_around;
pub use batches::{batch_count, batch_size};
pub use bins::{bin_of_tile, bin_rect, bin_span};
pub use cut::Cut;
pub use part::BinPart;
pub use parts::{bin_batch, parts_make_tile_lists};
pub use rooms::{BinRoom, bin_into};
