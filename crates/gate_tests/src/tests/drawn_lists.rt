//! Lists that workers draw through cells, beside what one thread draws.
ghost use Rattle.std.specs.Prelude.{◌≤◌};

use binning::{Cut, batch_size};
use cull_base::{FrameList, Memory};
use masked_update::TileState;
use std::alloc::Global;
use std::sync::Wait;
use std::thread::Threads;
use steal_pool::draw_stolen;
use tile_cells::TileCells;
use tile_queues::{Caller, Gate, draw_frame};

/// So many workers. Where they steal, one that is done takes bins from the others.
#[derive(Clone, Copy)]
pub struct Pool {
    pub workers: u32,
    pub steal: bool,
}

/// What cells hold when a list is drawn through them by such workers, each piece a batch.
pub fn drawn_in_cells<R: Threads + Wait + Sync, G: Gate, C: Caller>(
    rt: &R,
    alloc: Global,
    list: &FrameList,
    cut: &Cut,
    pool: Pool,
    gate: &G,
    caller: &mut C,
) -> Result<Vec<TileState>, Memory>
    requires some { 1 ≤ pool.workers }
    requires workers { pool.workers ≤ 64 }
    requires ready { C.ready caller.old list.now.list }
{
    let batch = batch_size(list.len(), 1);
    let Pool { workers, steal } = pool;
    let (cells, writers, mut readers) = TileCells::make(rt, alloc, list, 1)?;
    if steal {
        let reader = &mut readers[0];
        let writers = draw_stolen(
            rt, alloc, list, &cells, writers, reader, cut, workers, batch, gate, caller,
        )?;
        return Ok(cells.close(rt, writers, readers));
    }
    let reader = &mut readers[0];
    let writers = draw_frame(
        rt, alloc, list, &cells, writers, reader, cut, workers, batch, gate, caller,
    )?;
    Ok(cells.close(rt, writers, readers))
}

fn have_same_states(one: &TileState, other: &TileState) -> bool {
    (0..8).all(|j| {
        let (a, b) = (one.sub(j), other.sub(j));
        a.reference() == b.reference() && a.working() == b.working() && a.mask() == b.mask()
    })
}

/// Whether there are as many tiles, each with the same states.
pub fn are_alike(tiles: &[TileState], others: &[TileState]) -> bool {
    tiles.len() == others.len() && (0..tiles.len()).all(|t| have_same_states(&tiles[t], &others[t]))
}
