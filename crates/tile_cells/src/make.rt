//! How cells are made.
ghost use Rattle.std.specs.Prelude.{◌≡◌, ◌<◌, map, length, IfOk, All};
ghost use Rattle.cull_base.specs.Screen.{tile_count_of};
ghost use Rattle.tile_cells.specs.Cells.{AreFresh, IsNew};
ghost use Rattle.tile_cells.specs.Passes.{AreOpened};

use crate::cells::{TileCells, threads_for};
use crate::reader::TileReader;
use crate::rule::{Cell, CellPass};
use crate::slots::open_by;
use crate::steps;
use crate::writer::TileWriter;
use cull_base::{FrameList, Memory};
use std::alloc::Global;
use std::sync::Wait;
use std::thread::Threads;

// A cell for each tile, and the passes of their writers.
fn open_all(alloc: Global, list: &FrameList) -> Result<(Vec<Cell>, Vec<CellPass>), Memory>
    ensures { IfOk result (λ r. AreOpened list.now.list (tile_count_of list.now.list.size)
        (map (λ c. c.table.shared.table_id) r.0.items) r.1.items) }
{
    let tiles = list.size().tile_count();
    let mut cells = Vec::with_capacity(alloc, tiles as usize).map_err(|_| Memory)?;
    let mut passes = Vec::with_capacity(alloc, tiles as usize).map_err(|_| Memory)?;
    for tile in 0..tiles {
        let (cell, mut pass) = steps::opened(alloc).map_err(|_| Memory)?;
        steps::name(&cell, &mut pass, list, tile);
        cells.push_reserved(cell);
        passes.push_reserved(pass);
    }
    Ok((cells, passes))
}

// The writers, of their passes.
fn write_all(
    alloc: Global,
    list: &FrameList,
    cells: &TileCells,
    passes: Vec<CellPass>,
) -> Result<Vec<TileWriter>, Memory>
    requires whole { length cells.now ≡ tile_count_of list.now.list.size }
    requires opened { AreOpened list.now.list (length cells.now) cells.now passes.items }
    ensures { IfOk result (λ v. AreFresh cells.now list.now.list (length cells.now) v.items) }
{
    // an accessor tells how many tiles there may be
    let _tiles = list.size().tile_count();
    let mut writers = Vec::with_capacity(alloc, passes.len()).map_err(|_| Memory)?;
    let mut tile = 0u32;
    for pass in passes {
        writers.push_reserved(TileWriter::first(pass, list, tile));
        tile += 1;
    }
    Ok(writers)
}

// A reader that has seen nothing.
fn read_all(
    alloc: Global,
    list: &FrameList,
    cells: &TileCells,
    writers: &mut [TileWriter],
) -> Result<TileReader, Memory>
    requires whole { length cells.now ≡ tile_count_of list.now.list.size }
    requires fresh { AreFresh cells.now list.now.list (length cells.now) writers.old }
    ensures same { writers.new ≡ writers.old }
    ensures new { IfOk result (IsNew cells.now list.now.list) }
{
    let size = list.size();
    // accessors tell that there is a tile
    let (_columns, _rows) = (size.tile_columns(), size.tile_rows());
    let mut passes = Vec::with_capacity(alloc, writers.len()).map_err(|_| Memory)?;
    for tile in 0..writers.len() {
        passes.push_reserved(writers[tile].tell(cells));
    }
    let seen = vec![in alloc; 0u32; writers.len()].map_err(|_| Memory)?;
    Ok(TileReader::of(passes, seen))
}

// So many readers that have seen nothing.
fn read_many(
    alloc: Global,
    list: &FrameList,
    cells: &TileCells,
    writers: &mut [TileWriter],
    readers: u32,
) -> Result<Vec<TileReader>, Memory>
    requires whole { length cells.now ≡ tile_count_of list.now.list.size }
    requires fresh { AreFresh cells.now list.now.list (length cells.now) writers.old }
    ensures same { writers.new ≡ writers.old }
    ensures new { IfOk result (λ v. (length v.items ≡ readers) × All (IsNew cells.now list.now.list) v.items) }
{
    let mut made = Vec::with_capacity(alloc, readers as usize).map_err(|_| Memory)?;
    for _ in 0..readers {
        let reader = read_all(alloc, list, cells, writers)?;
        made.push_reserved(reader);
    }
    Ok(made)
}

impl TileCells {
    // What `make` gives, over cells that are open. Err if out of memory.
    fn over(
        alloc: Global,
        list: &FrameList,
        cells: Vec<Cell>,
        passes: Vec<CellPass>,
        readers: u32,
    ) -> Result<(TileCells, Vec<TileWriter>, Vec<TileReader>), Memory>
        requires { AreOpened list.now.list (tile_count_of list.now.list.size)
            (map (λ c. c.table.shared.table_id) cells.items) passes.items }
        ensures cells { IfOk result (λ r. length r.0 ≡ tile_count_of list.now.list.size) }
        ensures writers { IfOk result (λ r. AreFresh r.0 list.now.list (length r.0) r.1.items) }
        ensures readers { IfOk result (λ r. (length r.2.items ≡ readers)
            × All (IsNew r.0 list.now.list) r.2.items) }
    {
        let room = Vec::with_capacity(alloc, cells.len()).map_err(|_| Memory)?;
        let cells = TileCells::of(cells, room);
        let mut writers = write_all(alloc, list, &cells, passes)?;
        let made = read_many(alloc, list, &cells, writers.as_mut_slice(), readers)?;
        Ok((cells, writers, made))
    }

    /// The cells of a list, each tile empty: with a writer for each tile, in tile order, and so many readers that have
    /// seen nothing. Err if out of memory. All memory is taken here, also that which
    /// `close` and `close_by` need.
    pub fn make<R: Wait>(
        _rt: &R,
        alloc: Global,
        list: &FrameList,
        readers: u32,
    ) -> Result<(TileCells, Vec<TileWriter>, Vec<TileReader>), Memory>
        ensures cells { IfOk result (λ r. length r.0 ≡ tile_count_of list.now.list.size) }
        ensures writers { IfOk result (λ r. AreFresh r.0 list.now.list (length r.0) r.1.items) }
        ensures readers { IfOk result (λ r. (length r.2.items ≡ readers)
            × All (IsNew r.0 list.now.list) r.2.items) }
    {
        let (cells, passes) = open_all(alloc, list)?;
        TileCells::over(alloc, list, cells, passes, readers)
    }

    /// As `make`, by one thread for each 512 tiles and at most `workers` threads; where these would be fewer than two, the
    /// caller does it. Err if out of memory.
    pub fn make_by<R: Threads + Wait + Sync>(
        rt: &R,
        alloc: Global,
        list: &FrameList,
        readers: u32,
        workers: u32,
    ) -> Result<(TileCells, Vec<TileWriter>, Vec<TileReader>), Memory>
        ensures cells { IfOk result (λ r. length r.0 ≡ tile_count_of list.now.list.size) }
        ensures writers { IfOk result (λ r. AreFresh r.0 list.now.list (length r.0) r.1.items) }
        ensures readers { IfOk result (λ r. (length r.2.items ≡ readers)
            × All (IsNew r.0 list.now.list) r.2.items) }
    {
        let threads = threads_for(list.size().tile_count() as usize, workers);
        if threads < 2 {
            return TileCells::make(rt, alloc, list, readers);
        }
        let (cells, passes) = open_by(rt, alloc, list, threads)?;
        TileCells::over(alloc, list, cells, passes, readers)
    }
}
