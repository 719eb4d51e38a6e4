//! Cells that several threads open.
ghost use Rattle.std.specs.Prelude.{◌≡◌, ◌<◌, map, length, IfOk};
ghost use Rattle.crossbeam_utils.specs.Seq.{cell_view};
ghost use Rattle.cull_base.specs.Screen.{tile_count_of};
ghost use Rattle.tile_cells.specs.Opened.{AreAllOpened, IsOpened};
ghost use Rattle.tile_cells.specs.Passes.{AreOpened};
ghost use Rattle.tile_cells.specs.Rule.{writer};

use crate::rule::{Cell, CellPass};
use crate::steps;
use cull_base::{FrameList, Memory};
use side_by_side::for_each_share;
use std::alloc::Global;
use std::thread::Threads;

/// A new cell, and the pass of its writer.
#[derive(Drop)]
pub struct Opened {
    cell: Cell,
    pass: CellPass,
}

// Empty slots, one for each tile.
fn empty_slots(alloc: Global, list: &FrameList) -> Result<Vec<Option<Opened>>, Memory>
    ensures { IfOk result (λ v. length v.items ≡ tile_count_of list.now.list.size) }
{
    let tiles = list.size().tile_count();
    let mut slots = Vec::with_capacity(alloc, tiles as usize).map_err(|_| Memory)?;
    for _ in 0..tiles {
        slots.push_reserved(None);
    }
    Ok(slots)
}

// Puts a tile's new cell into its slot, unless memory gives out.
fn open_into(alloc: Global, list: &FrameList, tile: usize, slot: &mut Option<Opened>)
    requires { tile < tile_count_of list.now.list.size }
    ensures { IsOpened list.now.list tile slot.new }
{
    // an accessor tells how many tiles there may be
    let _tiles = list.size().tile_count();
    match steps::opened(alloc) {
        Ok((cell, mut pass)) => {
            steps::name(&cell, &mut pass, list, tile as u32);
            *slot = Some(Opened { cell, pass });
        }
        Err(_) => *slot = None,
    }
}

// Puts each tile's new cell into its slot, by so many threads. Where memory gives out, a slot is empty.
fn open_each<R: Threads + Sync>(
    rt: &R,
    alloc: Global,
    list: &FrameList,
    slots: &mut [Option<Opened>],
    threads: usize,
)
    requires { length slots.old ≡ tile_count_of list.now.list.size }
    ensures whole { length slots.new ≡ length slots.old }
    ensures opened { AreAllOpened list.now.list slots.new }
{
    for_each_share(
        rt,
        slots,
        threads,
        &|tile: usize, slot: &mut Option<Opened>|
            requires { tile < tile_count_of list.now.list.size }
            ensures { IsOpened list.entry.now.list tile slot.new }
        { open_into(alloc, list, tile, slot) },
    );
}

// The cell in a slot, with its pass. Err where the slot is empty: memory gave out for it.
fn take(slot: Option<Opened>, _list: &FrameList, _tile: usize) -> Result<(Cell, CellPass), Memory>
    requires { IsOpened _list.now.list _tile slot }
    ensures own { IfOk result (λ r. r.1.table_id ≡ r.0.table.shared.table_id) }
    ensures named { IfOk result (λ r. cell_view r.1 ≡ writer _list.now.list _tile 0 0) }
{
    match slot {
        Some(Opened { cell, pass }) => Ok((cell, pass)),
        None => Err(Memory),
    }
}

// The cells of all slots, and the passes of their writers. Err where a slot is empty.
fn take_all(
    alloc: Global,
    list: &FrameList,
    slots: Vec<Option<Opened>>,
) -> Result<(Vec<Cell>, Vec<CellPass>), Memory>
    requires whole { length slots.items ≡ tile_count_of list.now.list.size }
    requires opened { AreAllOpened list.now.list slots.items }
    ensures { IfOk result (λ r. AreOpened list.now.list (tile_count_of list.now.list.size)
        (map (λ c. c.table.shared.table_id) r.0.items) r.1.items) }
{
    let mut cells = Vec::with_capacity(alloc, slots.len()).map_err(|_| Memory)?;
    let mut passes = Vec::with_capacity(alloc, slots.len()).map_err(|_| Memory)?;
    let mut tile = 0usize;
    for slot in slots {
        let (cell, pass) = take(slot, list, tile)?;
        cells.push_reserved(cell);
        passes.push_reserved(pass);
        tile += 1;
    }
    Ok((cells, passes))
}

/// A cell for each tile, and the passes of their writers, opened by so many threads. Err if out of memory.
pub(crate) fn open_by<R: Threads + Sync>(
    rt: &R,
    alloc: Global,
    list: &FrameList,
    threads: usize,
) -> Result<(Vec<Cell>, Vec<CellPass>), Memory>
    ensures { IfOk result (λ r. AreOpened list.now.list (tile_count_of list.now.list.size)
        (map (λ c. c.table.shared.table_id) r.0.items) r.1.items) }
{
    let mut slots = empty_slots(alloc, list)?;
    open_each(rt, alloc, list, slots.as_mut_slice(), threads);
    take_all(alloc, list, slots)
}
