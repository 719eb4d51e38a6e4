//! What the threads share that draw a frame.
use bin_queues::{Batched, PartQueues};

/// What every thread that draws a frame shares: the queues of the bins, the frame's batches, what lies beside the bins'
/// tiles, and the gate that is asked.
#[derive(Drop)]
pub struct Drawing<'a, R, B, G> {
    pub rt: &'a R,
    pub queues: &'a PartQueues,
    pub frame: Batched<'a>,
    pub beside: &'a B,
    pub gate: &'a G,
}
