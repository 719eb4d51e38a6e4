//! The drawing of a frame through cells by workers side by side, each with bins of its own, beside a caller.
#![tactic(auto)]

mod bin_task;
mod caller;
mod cell_bin;
mod close_queues;
mod drawing;
mod frame;
mod make_queues;
mod queues;
mod share;
mod submitter;
mod tile_slots;

pub use bin_task::BinTask;
pub use bin_tasks::Drained;
pub use bin_tiles::{BinTable, BinView, Gate, OpenGate};
pub use caller::Caller;
pub use frame::{draw_frame, read_cells};
pub use queues::BinQueues;
pub use submitter::Submitter;
