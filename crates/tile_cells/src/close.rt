//! How cells are closed.
ghost use Rattle.std.specs.Prelude.{◌≡◌, ℕ, ◌<◌, ◌≤◌, [], map, length, All, slice_index_or, vec_len, vec_capacity};
ghost use Rattle.tile_cells.specs.Cells.{AreClosed, AreWriters, CoversSeen, IsAt, IsReaderOf, Writing};
ghost use Rattle.tile_cells.specs.Passes.{AreChecked, HearWithin, HeardBelow, Hears};

use crate::cells::{TileCells, threads_for};
use crate::reader::TileReader;
use crate::rule::Cell;
use crate::writer::TileWriter;
use masked_update::TileState;
use side_by_side::for_each_share;
use std::sync::Wait;
use std::thread::Threads;

// Ends the views of a reader in those of the writers.
fn end_reader(cells: &TileCells, writers: &mut [TileWriter], reader: TileReader)
    requires writers { AreWriters cells.now writers.old }
    requires reader { IsReaderOf cells.now writers.old reader }
    ensures same { Hears writers.old writers.new }
    ensures heard { HeardBelow (length cells.now) reader.seen writers.new }
{
    let mut tile = 0usize;
    for pass in reader.into_passes() {
        writers[tile].end(cells, pass);
        tile += 1;
    }
}

// Ends the views of all readers.
fn end_readers(cells: &TileCells, writers: &mut [TileWriter], readers: Vec<TileReader>)
    requires writers { AreWriters cells.now writers.old }
    requires readers { All (IsReaderOf cells.now writers.old) readers.items }
    ensures same { Hears writers.old writers.new }
    ensures heard { All (λ r. HeardBelow (length cells.now) r.seen writers.new) readers.items }
{
    let mut done = 0usize;
    for reader in readers {
        end_reader(cells, writers, reader);
        done += 1;
    }
}

// The tile of each cell, read once, into the room.
fn check_all<R: Wait>(
    rt: &R,
    cells: &[Cell],
    mut writers: Vec<TileWriter>,
    mut room: Vec<TileState>,
) -> Vec<TileState>
    requires whole { vec_len writers ≡ length cells.now }
    requires room { (room.items ≡ []) × (length cells.now ≤ vec_capacity room) }
    requires at { (t : ℕ) (d : Writing) → t < length cells.now
        → IsAt (map (λ c. c.table.shared.table_id) cells.now) t (slice_index_or writers.items t d).cell }
    ensures whole { length result.items ≡ vec_len writers }
    ensures states { AreChecked (vec_len writers) writers.items result.items }
    ensures heard { HearWithin (vec_len writers) writers.items }
{
    for tile in 0..writers.len() {
        let state = writers[tile].check(rt, &cells[tile]);
        room.push_reserved(state);
    }
    room
}

// Reads the tile of each cell once, by so many threads, each into its writer.
fn renew_all<R: Threads + Wait + Sync>(
    rt: &R,
    cells: &[Cell],
    writers: &mut [TileWriter],
    threads: usize,
)
    requires whole { length writers.old ≡ length cells.now }
    requires at { (t : ℕ) (d : Writing) → t < length cells.now
        → IsAt (map (λ c. c.table.shared.table_id) cells.now) t (slice_index_or writers.old t d).cell }
    ensures same { writers.new ≡ writers.old }
    ensures heard { HearWithin (length writers.old) writers.old }
{
    for_each_share(
        rt,
        writers,
        threads,
        &|tile: usize, writer: &mut TileWriter|
            requires there { tile < length cells.now }
            requires at { IsAt (map (λ c. c.table.shared.table_id) cells.now) tile writer.old.cell }
            ensures same { writer.new ≡ writer.old }
            ensures heard { writer.old.heard ≤ writer.old.count }
        { writer.renew(rt, &cells[tile]) },
    );
}

// The tiles of some writers, into the room.
fn states_of(writers: &[TileWriter], mut room: Vec<TileState>) -> Vec<TileState>
    requires { (room.items ≡ []) × (length writers.now ≤ vec_capacity room) }
    ensures whole { length result.items ≡ length writers.now }
    ensures states { AreChecked (length writers.now) writers.now result.items }
{
    for tile in 0..writers.len() {
        let state = writers[tile].state();
        room.push_reserved(state);
    }
    room
}

// As `check_all`, by so many threads.
fn check_by<R: Threads + Wait + Sync>(
    rt: &R,
    cells: &[Cell],
    writers: &mut [TileWriter],
    room: Vec<TileState>,
    threads: usize,
) -> Vec<TileState>
    requires whole { length writers.old ≡ length cells.now }
    requires room { (room.items ≡ []) × (length cells.now ≤ vec_capacity room) }
    requires at { (t : ℕ) (d : Writing) → t < length cells.now
        → IsAt (map (λ c. c.table.shared.table_id) cells.now) t (slice_index_or writers.old t d).cell }
    ensures whole { length result.items ≡ length writers.old }
    ensures states { AreChecked (length writers.old) writers.old result.items }
    ensures heard { HearWithin (length writers.old) writers.old }
{
    renew_all(rt, cells, writers, threads);
    states_of(writers, room)
}

impl TileCells {
    /// Each tile after the members that its writer counted, read from its cell. Each reader had seen no more members of a
    /// tile than the tile's writer counted. Conditions: these are the writers of these cells, in tile order, and readers
    /// of the cells, of the writers' list.
    pub fn close<R: Wait>(
        self,
        rt: &R,
        writers: Vec<TileWriter>,
        readers: Vec<TileReader>,
    ) -> Vec<TileState>
        requires writers { AreWriters self writers.items }
        requires readers { All (IsReaderOf self writers.items) readers.items }
        ensures whole { length result.items ≡ length self }
        ensures states { AreClosed (length self) writers.items result.items }
        ensures seen { All (CoversSeen (length self) writers.items) readers.items }
    {
        let mut writers = writers;
        end_readers(&self, writers.as_mut_slice(), readers);
        let (cells, room) = self.into_parts();
        check_all(rt, cells.as_slice(), writers, room)
    }

    /// As `close`, by one thread for each 512 tiles and at most `workers` threads; where these would be fewer than two,
    /// the caller does it.
    pub fn close_by<R: Threads + Wait + Sync>(
        self,
        rt: &R,
        writers: Vec<TileWriter>,
        readers: Vec<TileReader>,
        workers: u32,
    ) -> Vec<TileState>
        requires writers { AreWriters self writers.items }
        requires readers { All (IsReaderOf self writers.items) readers.items }
        ensures whole { length result.items ≡ length self }
        ensures states { AreClosed (length self) writers.items result.items }
        ensures seen { All (CoversSeen (length self) writers.items) readers.items }
    {
        let threads = threads_for(writers.len(), workers);
        if threads < 2 {
            return self.close(rt, writers, readers);
        }
        let mut writers = writers;
        end_readers(&self, writers.as_mut_slice(), readers);
        let (cells, room) = self.into_parts();
        check_by(rt, cells.as_slice(), writers.as_mut_slice(), room, threads)
    }
}
