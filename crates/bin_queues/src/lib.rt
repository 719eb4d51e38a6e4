//! The queues of a frame's bins: each bin's parts pass in the order of their batches, and batches are published.
#![tactic(auto)]

mod batched;
mod intake;
mod number_rule;
mod number_steps;
mod open_queues;
mod queue_rule;
mod queue_steps;
mod queues;
mod sender;

pub use batched::Batched;
pub use intake::Intake;
pub use queues::PartQueues;
pub use sender::Sender;
