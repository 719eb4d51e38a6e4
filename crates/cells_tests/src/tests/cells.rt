//! Cells that are read while they are written.
ghost use Rattle.std.specs.Prelude.{◌≡◌, ◌+◌, ◌≤◌, ◌<◌, length, All, IfOk};
ghost use Rattle.cull_base.specs.Screen.{tile_count_of};
ghost use Rattle.tile_cells.specs.Standing.{AreStanding, IsReading, StandsAt};

use cull_base::{FrameList, Memory, ScreenTri, Size};
use masked_update::{SubTile, TileState, TileView, draw_plain};
use std::alloc::Global;
use std::sync::Wait;
use std::sync::atomic::{AtomicBool, Ordering};
use std::test::Fail;
use std::thread::{Threads, for_each_mut, join_mut};
use tile_cells::{Snapshot, TileCells, TileReader, TileWriter, tile_of, words_of};

#[test]
fn words_have_the_count_then_layers_then_masks_two_by_two(rt: HostRuntime) {
    let mut subs = [SubTile::empty(); 8];
    subs[3].merge(100, 0x0F0F_0F0F);
    let words = words_of(&TileState::of(subs, 7));
    let masks = 0x0F0F_0F0F_0000_0000;
    assert_eq!(rt;
        words,
        [7, 0, 0, 0, 0x6400_0000, 0, 0, 0, 0, 0, masks, 0, 0]
    );
    let back = tile_of(&words);
    assert_eq!(rt; back.count(), 7);
    assert_eq!(rt; back.sub(3).pack(), (0x6400_0000, 0x0F0F_0F0F));
}

// Five times the first half of a quad that fills the screen of one tile.
fn five_halves(rt: &HostRuntime) -> Result<FrameList, Fail> {
    let size = Size::new(32, 8).ok_or("a size")?;
    let mut list = FrameList::with_room(rt.alloc(), size, 5)?;
    for _ in 0..5 {
        let half = ScreenTri::new([0, 512, 512], [0, 0, 128], [32767, 32767, 32767]).ok_or(
            "a piece",
        )?;
        if list.len() < 5 {
            list.push(half);
        }
    }
    Ok(list)
}

// Lets a writer take a member if it is its tile's.
fn offer<R: Wait>(
    rt: &R,
    cells: &TileCells,
    writer: &mut TileWriter,
    list: &FrameList,
    index: u32,
    _tile: u32,
)
    requires tile { _tile < tile_count_of list.now.list.size }
    requires index { index < length list.now.list.members }
    requires stands { StandsAt cells.now list.now.list index _tile writer.old }
    ensures { StandsAt cells.now list.now.list (index + 1) _tile writer.new }
{
    let piece = list.get(index);
    if piece.boxed().meets(&list.size().tile_rect(writer.tile())) {
        writer.take_next(rt, cells, piece);
    }
}

// Draws the members from one place to before another into a tile.
fn draw_tile<R: Wait>(
    rt: &R,
    cells: &TileCells,
    writer: &mut TileWriter,
    list: &FrameList,
    from: u32,
    to: u32,
    tile: u32,
)
    requires tile { tile < tile_count_of list.now.list.size }
    requires places { (from ≤ to) × (to ≤ length list.now.list.members) }
    requires stands { StandsAt cells.now list.now.list from tile writer.old }
    ensures { StandsAt cells.now list.now.list to tile writer.new }
{
    for index in from..to {
        offer(rt, cells, writer, list, index, tile);
    }
}

// Draws them into all tiles.
#[tactic(auto, using(crate::proofs::Draws::standing_steps))]
fn draw<R: Wait>(
    rt: &R,
    cells: &TileCells,
    writers: &mut Vec<TileWriter>,
    list: &FrameList,
    from: u32,
    to: u32,
)
    requires whole { length cells.now ≡ tile_count_of list.now.list.size }
    requires places { (from ≤ to) × (to ≤ length list.now.list.members) }
    requires stand { AreStanding cells.now list.now.list from writers.old.items }
    ensures { AreStanding cells.now list.now.list to writers.new.items }
{
    let tiles = list.size().tile_count();
    for tile in 0..tiles {
        draw_tile(rt, cells, &mut writers[tile as usize], list, from, to, tile);
    }
}

// What the first reader has seen of tile 0, and the count of a snapshot of it, once it has learnt of the writer's note.
fn hear_and_look<R: Wait>(
    rt: &R,
    alloc: Global,
    cells: &TileCells,
    writers: &mut Vec<TileWriter>,
    readers: &mut Vec<TileReader>,
    list: &FrameList,
    _index: u32,
) -> Result<(u32, u32), Memory>
    requires whole { length cells.now ≡ tile_count_of list.now.list.size }
    requires stand { AreStanding cells.now list.now.list _index writers.old.items }
    requires some { 0 < length readers.old.items }
    requires read { All (IsReading cells.now list.now.list) readers.old.items }
    ensures stand { AreStanding cells.now list.now.list _index writers.new.items }
    ensures read { All (IsReading cells.now list.now.list) readers.new.items }
{
    let size = list.size();
    // accessors tell that there is a tile
    let (_columns, _rows) = (size.tile_columns(), size.tile_rows());
    let note = writers[0].note(rt, cells);
    let mut snapshot = Snapshot::with_room(alloc, size)?;
    let reader = &mut readers[0];
    reader.learn(rt, cells, note);
    let seen = reader.seen(0);
    reader.snapshot(rt, cells, size.screen(), &mut snapshot);
    let count = if snapshot.holds(0) {
        snapshot.count(0)
    } else {
        0
    };
    Ok((seen, count))
}

// Whether the count of tile 0 never falls in a thousand snapshots.
fn never_falls<R: Wait>(
    rt: &R,
    alloc: Global,
    cells: &TileCells,
    list: &FrameList,
    reader: &mut TileReader,
) -> bool
    requires { IsReading cells.now list.now.list reader.old }
    ensures { IsReading cells.now list.now.list reader.new }
{
    let Ok(mut snapshot) = Snapshot::with_room(alloc, list.size()) else {
        return false;
    };
    let mut last = 0;
    for _ in 0..1000 {
        reader.snapshot(rt, cells, list.size().screen(), &mut snapshot);
        if !snapshot.holds(0) || snapshot.count(0) < last {
            return false;
        }
        last = snapshot.count(0);
    }
    true
}

// Each reader in a thread of its own.
fn look_beside<R: Threads + Wait + Sync>(
    rt: &R,
    alloc: Global,
    cells: &TileCells,
    list: &FrameList,
    readers: &mut [TileReader],
    steady: &AtomicBool,
)
    requires { All (IsReading cells.now list.now.list) readers.old }
    ensures { All (IsReading cells.now list.now.list) readers.new }
{
    for_each_mut(
        rt,
        readers,
        2,
        &|_, reader: &mut TileReader|
            requires { IsReading cells.now list.now.list reader.old }
            ensures { IsReading cells.entry.now list.entry.now.list reader.new }
        {
            if !never_falls(rt, alloc, cells, list, reader) {
                steady.store(false, Ordering::SeqCst);
            }
        },
    );
}

fn are_alike(one: &TileState, other: &TileState) -> bool {
    one.count() == other.count() && (0..8).all(|j| one.sub(j).pack() == other.sub(j).pack())
}

type Cells = (TileCells, Vec<TileWriter>, Vec<TileReader>);

// Cells of a list with their writers and so many readers, by so many workers.
#[tactic(auto, using(tile_cells::proofs::Standing::new_reads))]
fn opened<R: Threads + Wait + Sync>(
    rt: &R,
    alloc: Global,
    list: &FrameList,
    readers: u32,
    workers: u32,
) -> Result<Cells, Memory>
    ensures cells { IfOk result (λ r. length r.0 ≡ tile_count_of list.now.list.size) }
    ensures writers { IfOk result (λ r. AreStanding r.0 list.now.list 0 r.1.items) }
    ensures count { IfOk result (λ r. length r.2.items ≡ readers) }
    ensures readers { IfOk result (λ r. All (IsReading r.0 list.now.list) r.2.items) }
{
    let (cells, writers, readers) = TileCells::make_by(rt, alloc, list, readers, workers)?;
    Ok((cells, writers, readers))
}

// The tiles of the cells when they are closed by so many workers.
#[tactic(auto, using(tile_cells::proofs::Standing::standing_writers, tile_cells::proofs::Standing::reads_of))]
fn closed<R: Threads + Wait + Sync>(
    rt: &R,
    cells: TileCells,
    writers: Vec<TileWriter>,
    readers: Vec<TileReader>,
    _list: &FrameList,
    _index: u32,
    workers: u32,
) -> Vec<TileState>
    requires writers { AreStanding cells _list.now.list _index writers.items }
    requires readers { All (IsReading cells _list.now.list) readers.items }
{
    cells.close_by(rt, writers, readers, workers)
}

// One thread draws five members, and each reader looks in a thread of its own.
fn draw_and_look<R: Threads + Wait + Sync>(
    rt: &R,
    alloc: Global,
    cells: &TileCells,
    writers: &mut Vec<TileWriter>,
    readers: &mut [TileReader],
    list: &FrameList,
    steady: &AtomicBool,
)
    requires whole { length cells.now ≡ tile_count_of list.now.list.size }
    requires five { 5 ≤ length list.now.list.members }
    requires stand { AreStanding cells.now list.now.list 0 writers.old.items }
    requires read { All (IsReading cells.now list.now.list) readers.old }
    ensures stand { AreStanding cells.now list.now.list 5 writers.new.items }
    ensures read { All (IsReading cells.now list.now.list) readers.new }
{
    join_mut(
        rt,
        &mut ||
            requires { (length cells.now ≡ tile_count_of list.now.list.size)
                × (5 ≤ length list.now.list.members)
                × AreStanding cells.now list.now.list 0 writers.now.items }
            ensures { AreStanding cells.entry.now list.entry.now.list 5 writers.exit.now.items }
        { draw(rt, cells, writers, list, 0, 5) },
        &mut ||
            requires { All (IsReading cells.now list.now.list) readers.now }
            ensures { All (IsReading cells.entry.now list.entry.now.list) readers.exit.now }
        { look_beside(rt, alloc, cells, list, readers, steady) },
    );
}

#[test]
fn note_is_learnt_and_a_prefix_is_read(rt: HostRuntime) -> Result<(), Fail> {
    let list = five_halves(&rt)?;
    assert_eq!(rt; list.len(), 5);
    let (cells, mut writers, mut readers) = opened(&rt, rt.alloc(), &list, 1, 1)?;
    draw(&rt, &cells, &mut writers, &list, 0, 3);
    let (seen, count) = hear_and_look(
        &rt,
        rt.alloc(),
        &cells,
        &mut writers,
        &mut readers,
        &list,
        3,
    )?;
    assert_eq!(rt; seen, 3);
    assert_eq!(rt; count, 3);
    draw(&rt, &cells, &mut writers, &list, 3, 5);
    let states = closed(&rt, cells, writers, readers, &list, 5, 1);
    assert_eq!(rt; states.len(), 1);
    assert_eq!(rt; states[0].count(), 5);
    Ok(())
}

// The readers and the writer in three threads.
fn two_look_while_one_draws<R: Threads + Wait + Sync>(
    rt: &R,
    alloc: Global,
    list: &FrameList,
    steady: &AtomicBool,
) -> Result<Vec<TileState>, Memory>
    requires { 5 ≤ length list.now.list.members }
{
    let (cells, mut writers, mut readers) = opened(rt, alloc, list, 2, 1)?;
    draw_and_look(
        rt,
        alloc,
        &cells,
        &mut writers,
        readers.as_mut_slice(),
        list,
        steady,
    );
    Ok(closed(rt, cells, writers, readers, list, 5, 1))
}

#[test]
fn two_readers(rt: HostRuntime) -> Result<(), Fail> {
    let list = five_halves(&rt)?;
    assert_eq!(rt; list.len(), 5);
    let plain = draw_plain(rt.alloc(), &list)?;
    let steady = AtomicBool::new(true);
    let states = two_look_while_one_draws(&rt, rt.alloc(), &list, &steady)?;
    assert!(rt; steady.load(Ordering::SeqCst));
    assert_eq!(rt; states.len(), 1);
    assert_eq!(rt; plain.len(), 1);
    assert!(rt; are_alike(&states[0], &plain[0]));
    Ok(())
}

// A quad that fills a screen of 2,048 tiles, in two halves.
fn two_halves(rt: &HostRuntime) -> Result<FrameList, Fail> {
    let size = Size::new(1024, 512).ok_or("a size")?;
    let mut list = FrameList::with_room(rt.alloc(), size, 2)?;
    let nearness = [32767, 32767, 32767];
    let upper = ScreenTri::new([0, 16384, 16384], [0, 0, 8192], nearness).ok_or("a piece")?;
    let lower = ScreenTri::new([0, 16384, 0], [0, 8192, 8192], nearness).ok_or("a piece")?;
    list.push(upper);
    list.push(lower);
    Ok(list)
}

fn are_all_alike(some: &[TileState], others: &[TileState]) -> bool {
    if some.len() != others.len() {
        return false;
    }
    for tile in 0..some.len() {
        if !are_alike(&some[tile], &others[tile]) {
            return false;
        }
    }
    true
}

#[test]
fn four_workers_make_and_close_what_one_draws(rt: HostRuntime) -> Result<(), Fail> {
    let list = two_halves(&rt)?;
    assert_eq!(rt; list.len(), 2);
    let plain = draw_plain(rt.alloc(), &list)?;
    let (cells, mut writers, readers) = opened(&rt, rt.alloc(), &list, 1, 4)?;
    draw(&rt, &cells, &mut writers, &list, 0, 2);
    let states = closed(&rt, cells, writers, readers, &list, 2, 4);
    assert_eq!(rt; states.len(), 2048);
    assert_eq!(rt; states[0].count(), 2);
    assert!(rt; are_all_alike(&states, &plain));
    Ok(())
}
