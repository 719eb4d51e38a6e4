//! The task of a bin: it draws the parts of the bin's queue into the bin's tiles, whoever keeps these. And the batches
//! that come through the queues, binned and submitted one after another.
#![tactic(auto)]

mod batches;
mod draining;
mod drawing;
mod task;

pub use batches::parts_at;
pub use drawing::Drawing;
pub use task::{Drained, Task};
