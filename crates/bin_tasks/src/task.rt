//! A bin's task, and how a call that drains it ends.
use bin_queues::Intake;

/// Whether a task has drawn all batches.
#[derive(Clone, Copy, Debug, PartialEq, Eq, Drop)]
pub enum Drained {
    /// All are drawn.
    Whole,
    /// All that were submitted are drawn, and more are to come.
    Empty,
}

/// A bin's tiles, and what is drawn into them.
#[derive(Drop)]
pub struct Task<K> {
    pub intake: Intake,
    pub keeper: K,
}
