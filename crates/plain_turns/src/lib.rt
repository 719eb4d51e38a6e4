//! The drawing of a frame into plain tiles by workers: whoever comes takes a bin that waits, draws some of it and gives
//! it back, until all are at the whole list.
#![tactic(auto)]

mod finishing;
mod plain_frame;
mod plain_tasks;
mod turns;
mod waiting;

pub use plain_frame::draw_plain_frame;
