//! The tiles of a bin, whoever keeps them, and how pieces are drawn into them: batch by batch, or a whole list at once.
#![tactic(auto)]

mod bin_view;
mod gate;
mod keeper;
mod meeting;
mod one_worker;
mod part;
mod plain;
mod screen;
mod unbinned;

pub use bin_view::{BinTable, BinView};
pub use gate::{Gate, OpenGate};
pub use keeper::Keeper;
pub use one_worker::draw_batches;
pub use part::draw_part;
pub use screen::Screen;
pub use unbinned::draw_unbinned;
