//! What the workers of a pool share.
use binning::Cut;
use cull_base::FrameList;
use tile_cells::TileCells;
use tile_queues::BinQueues;

/// What every worker shares: the queues and the cells of the tasks, the list, and the gate that is asked. The cut, the
/// size of batches and the room of a deque are those that its views name.
#[derive(Clone, Copy)]
pub struct Pool<'a, R, G> {
    pub rt: &'a R,
    pub queues: &'a BinQueues,
    pub cells: &'a TileCells,
    pub list: &'a FrameList,
    pub gate: &'a G,
    pub cut: Cut,
    pub size: u32,
    pub room: usize,
}
