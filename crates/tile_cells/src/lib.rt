//! Tiles as cells of thirteen words, each written by one writer and read by others while it is written. What a reader
//! gets is the tile after exactly so many members of its list, and never fewer than it had seen.
#![tactic(auto)]

mod cells;
mod close;
mod kinds;
mod make;
mod note;
mod reader;
mod reading;
mod rule;
mod slots;
mod snapshot;
mod steps;
mod words;
mod writer;

pub use cells::TileCells;
pub use note::Note;
pub use reader::TileReader;
pub use snapshot::Snapshot;
pub use words::{tile_of, words_of};
pub use writer::TileWriter;
