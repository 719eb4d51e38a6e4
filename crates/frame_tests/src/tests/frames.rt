//! Frames drawn by workers have the tiles of the plain drawing, and ask their gate once for each member of a bin and
//! once for each batch.
ghost use Rattle.std.specs.Prelude.{◌≡◌, ◌*◌, ◌<◌, ◌≤◌, length, IfOk};
ghost use Rattle.binning.specs.Cut.{bin_count_of};
ghost use Rattle.bin_tiles.specs.Bins.{AreBinsAt};
ghost use Rattle.tile_queues.specs.Callers.{Follows};
ghost use Rattle.bin_tiles.specs.Plain.{StandsPlain};

use bin_queues::Batched;
use binning::{Cut, batch_count, batch_size, bin_rect};
use cull_base::{FrameList, Memory, ScreenTri, Size};
use masked_update::{Canvas, TileState, TileView, draw_plain};
use plain_turns::draw_plain_frame;
use std::alloc::Global;
use std::sync::Wait;
use std::sync::atomic::{AtomicU32, Ordering};
use std::test::Fail;
use std::thread::{Threads, yield_now};
use steal_pool::draw_stolen;
use tile_cells::{Snapshot, TileCells, TileReader};
use tile_queues::{BinTable, BinView, Caller, Gate, OpenGate, draw_frame};

// So many times pieces with boxes of these columns, in sixteenths of a pixel, each time nearer.
fn columns(
    rt: &HostRuntime,
    width: u16,
    columns: &[[i32; 3]],
    times: u32,
) -> Result<FrameList, Fail>
    requires { times ≤ 1000 }
{
    let size = Size::new(width, 8).ok_or("a size")?;
    let mut list = FrameList::with_room(rt.alloc(), size, 4 * times)?;
    for time in 0..times {
        for x in columns {
            let piece = ScreenTri::new(*x, [0, 0, 127], [9 + time; 3]).ok_or("a piece")?;
            if list.len() < 4 * times {
                list.push(piece);
            }
        }
    }
    Ok(list)
}

// Three pieces with boxes in x from 0 to 10, from 20 to 40 and from 33 to 50.
const THREE: [[i32; 3]; 3] = [[0, 159, 159], [320, 639, 639], [528, 799, 799]];

fn have_same_states(one: &TileState, other: &TileState) -> bool {
    (0..8).all(|j| one.sub(j).pack() == other.sub(j).pack())
}

fn are_alike(tiles: &[TileState], others: &[TileState]) -> bool {
    tiles.len() == others.len() && (0..tiles.len()).all(|t| have_same_states(&tiles[t], &others[t]))
}

// Whether a view holds so many tiles and no more, and they have the states of others.
fn shows<V: TileView>(view: &V, count: u32, others: &[TileState]) -> bool {
    others.len() == count as usize
        && !view.holds(count)
        && (0..count).all(|tile| view.holds(tile)
            && have_same_states(&view.state(tile), &others[tile as usize]))
}

// Whether the bins of a list's frame have the states of these tiles.
fn bins_show(
    alloc: Global,
    bins: &[Canvas],
    list: &FrameList,
    cut: &Cut,
    states: &[TileState],
) -> Result<bool, Memory>
    requires { let drawn = length list.now.list.members in
        AreBinsAt StandsPlain (tt {0}) list.now.list cut.now drawn bins.now }
{
    let table = BinTable::of(alloc, list.size(), cut)?;
    let view = BinView::of(&table, bins, list);
    Ok(shows(&view, list.size().tile_count(), states))
}

// Takes a snapshot of the whole screen.
fn look<R: Wait>(rt: &R, cells: &TileCells, reader: &mut TileReader, snapshot: &mut Snapshot)
    requires of { reader.old.cells ≡ cells.now }
    requires size { snapshot.old.size ≡ reader.old.list.size }
    ensures { Follows reader.old reader.new }
{
    // an accessor tells that there is a cell for each tile
    let _tiles = reader.len();
    let screen = snapshot.size().screen();
    reader.snapshot(rt, cells, screen, snapshot);
}

fn count_of_first(snapshot: &Snapshot) -> Option<u32> {
    if snapshot.holds(0) {
        Some(snapshot.count(0))
    } else {
        None
    }
}

// Takes one snapshot of the whole screen, and keeps the count of tile 0.
#[derive(Drop)]
struct Looker {
    snapshot: Snapshot,
    count: Option<u32>,
}

impl Caller for Looker {
    ghost use Rattle.std.specs.Prelude.{◌≡◌, ⊤};

    ghost ready = { λ s list. s.snapshot.size ≡ list.size };

    ghost done = { λ s list reader. ⊤ };

    fn beside<R: Threads + Wait + Sync>(
        &mut self,
        rt: &R,
        cells: &TileCells,
        reader: &mut TileReader,
    ) {
        look(rt, cells, reader, &mut self.snapshot);
        self.count = count_of_first(&self.snapshot);
    }
}

// The tiles that cells hold when a list is drawn through them, and the count of tile 0 in a snapshot of them meanwhile.
// Where workers steal, one that is done takes bins from the others.
fn drawn_in_cells<R: Threads + Wait + Sync, G: Gate>(
    rt: &R,
    alloc: Global,
    frame: &Batched,
    workers: u32,
    steal: bool,
    gate: &G,
) -> Result<(Vec<TileState>, Option<u32>), Memory>
    requires some { 1 ≤ workers }
    requires most { workers ≤ 64 }
{
    let (list, cut, batch) = (frame.list, frame.cut, frame.size);
    let caller = &mut Looker {
        snapshot: Snapshot::with_room(alloc, list.size())?,
        count: None,
    };
    let (cells, writers, mut readers) = TileCells::make(rt, alloc, list, 1)?;
    if steal {
        let reader = &mut readers[0];
        let writers = draw_stolen(
            rt, alloc, list, &cells, writers, reader, cut, workers, batch, gate, caller,
        )?;
        return Ok((cells.close(rt, writers, readers), caller.count));
    }
    let reader = &mut readers[0];
    let writers = draw_frame(
        rt, alloc, list, &cells, writers, reader, cut, workers, batch, gate, caller,
    )?;
    Ok((cells.close(rt, writers, readers), caller.count))
}

// How often a gate was asked before each member of each bin, for so many members of a bin at most, and before how many
// batches, one after another.
#[derive(Drop)]
struct Questions {
    most: u32,
    asked: Vec<AtomicU32>,
    batches: AtomicU32,
    others: AtomicU32,
}

impl Questions {
    fn with_room(alloc: Global, bins: u32, most: u32) -> Result<Questions, Fail> {
        let places = bins as usize * most as usize;
        let mut asked = Vec::new(alloc);
        for _ in 0..places {
            asked.push(AtomicU32::new(0))?;
        }
        Ok(Questions {
            most,
            asked,
            batches: AtomicU32::new(0),
            others: AtomicU32::new(0),
        })
    }

    // What counts the questions of a bin with a number.
    fn counter(&self, bin: u32, taken: u32) -> &AtomicU32 {
        let place = bin as usize * self.most as usize + taken as usize;
        if taken < self.most && place < self.asked.len() {
            &self.asked[place]
        } else {
            &self.others
        }
    }

    // Whether a bin was asked once with each number below so many, and with no other.
    fn are_below(&self, bin: u32, met: u32) -> bool {
        (0..self.most).all(|number| {
            self.counter(bin, number).load(Ordering::SeqCst) == u32::from(number < met)
        })
    }

    // Whether each bin of a cut was asked once for each of the list's members that meet it, in their order, and each of
    // so many batches once, in order.
    fn are_those_of(&self, list: &FrameList, cut: &Cut, batches: u32) -> bool {
        for bin in 0..cut.bins() {
            if !self.are_below(bin, met_by(list, cut, bin)) {
                return false;
            }
        }
        self.batches.load(Ordering::SeqCst) == batches && self.others.load(Ordering::SeqCst) == 0
    }
}

impl Gate for Questions {
    fn before(&self, bin: u32, taken: u32) {
        self.counter(bin, taken).fetch_add(1, Ordering::SeqCst);
    }

    fn submits(&self, batch: u32) {
        if self.batches.fetch_add(1, Ordering::SeqCst) != batch {
            self.others.fetch_add(1, Ordering::SeqCst);
        }
    }
}

// How many members of a list meet a bin.
fn met_by(list: &FrameList, cut: &Cut, bin: u32) -> u32
    requires { bin < bin_count_of cut.now }
{
    let rect = bin_rect(list.size(), cut, bin);
    let mut met = 0u32;
    for index in 0..list.len() {
        met = met.saturating_add(u32::from(list.get(index).boxed().meets(&rect)));
    }
    met
}

// Whether so many workers that take bins from each other draw these states through cells, and ask once for each member
// of each bin and for each batch.
fn stolen_are_alike<R: Threads + Wait + Sync>(
    rt: &R,
    alloc: Global,
    frame: &Batched,
    workers: u32,
    states: &[TileState],
) -> Result<bool, Fail>
    requires some { 1 ≤ workers }
    requires most { workers ≤ 64 }
{
    let (list, cut) = (frame.list, frame.cut);
    let gate = Questions::with_room(alloc, cut.bins(), list.len())?;
    let (held, seen) = drawn_in_cells(rt, alloc, frame, workers, true, &gate)?;
    Ok(
        are_alike(held.as_slice(), states)
            && gate.are_those_of(list, cut, frame.batches())
            && seen.is_some(),
    )
}

// Whether so many workers, of a screen cut into so many columns and rows of bins, draw in each way the states that one
// draws, and ask once for each member of each bin and for each batch.
fn all_are_alike<R: Threads + Wait + Sync>(
    rt: &R,
    alloc: Global,
    list: &FrameList,
    workers: u32,
    cut: (u8, u8),
    asked: u32,
) -> Result<bool, Fail>
    requires some { 1 ≤ workers }
    requires most { workers ≤ 64 }
    requires asked { 1 ≤ asked }
{
    let cut = Cut::new(cut.0, cut.1).ok_or("a cut")?;
    let batch = batch_size(list.len(), asked);
    let frame = Batched {
        list,
        cut: &cut,
        size: batch,
    };
    let batches = frame.batches();
    let states = draw_plain(alloc, list)?;
    let plain = Questions::with_room(alloc, cut.bins(), list.len())?;
    let bins = draw_plain_frame(rt, alloc, list, &cut, workers, batch, &plain)?;
    let shown = bins_show(alloc, bins.as_slice(), list, &cut, states.as_slice())?;
    let in_cells = Questions::with_room(alloc, cut.bins(), list.len())?;
    let (held, seen) = drawn_in_cells(rt, alloc, &frame, workers, false, &in_cells)?;
    let stolen = stolen_are_alike(rt, alloc, &frame, workers, states.as_slice())?;
    Ok(
        shown
            && stolen
            && are_alike(held.as_slice(), states.as_slice())
            && plain.are_those_of(list, &cut, batches)
            && in_cells.are_those_of(list, &cut, batches)
            && seen.is_some(),
    )
}

#[test]
fn two_workers_draw_what_one_draws(rt: HostRuntime) -> Result<(), Fail> {
    let list = columns(&rt, 64, &THREE, 1)?;
    let cut = Cut::new(2, 1).ok_or("a cut")?;
    let states = draw_plain(rt.alloc(), &list)?;
    let batch = batch_size(list.len(), 2);
    assert_eq!(rt; batch, 2);
    assert_eq!(rt; states.len(), 2);
    let bins = draw_plain_frame(&rt, rt.alloc(), &list, &cut, 2, batch, &OpenGate)?;
    assert_eq!(rt; bins.len(), 2);
    assert!(rt; bins_show(rt.alloc(), bins.as_slice(), &list, &cut, states.as_slice())?);
    let frame = Batched {
        list: &list,
        cut: &cut,
        size: batch,
    };
    let (held, seen) = drawn_in_cells(&rt, rt.alloc(), &frame, 2, false, &OpenGate)?;
    assert_eq!(rt; held.len(), 2);
    assert!(rt; are_alike(held.as_slice(), states.as_slice()));
    assert_eq!(rt; held[0].count(), 2);
    assert_eq!(rt; held[1].count(), 2);
    assert!(rt; seen.is_some_and(|count| count <= 2));
    for workers in [1, 2] {
        let (held, seen) = drawn_in_cells(&rt, rt.alloc(), &frame, workers, true, &OpenGate)?;
        assert_eq!(rt; held.len(), 2);
        assert!(rt; are_alike(held.as_slice(), states.as_slice()));
        assert_eq!(rt; held[0].count(), 2);
        assert_eq!(rt; held[1].count(), 2);
        assert!(rt; seen.is_some_and(|count| count <= 2));
    }
    Ok(())
}

// So many pieces are worth a second thread.
#[test]
fn threads_draw_what_one_draws(rt: HostRuntime) -> Result<(), Fail> {
    let list = columns(&rt, 64, &THREE, 500)?;
    assert!(rt; all_are_alike(&rt, rt.alloc(), &list, 64, (8, 8), 7)?);
    assert!(rt; all_are_alike(&rt, rt.alloc(), &list, 7, (2, 1), 1)?);
    Ok(())
}

// A few pieces on a screen of 7 by 8 tiles, the last of each cut: one over half of it, and smaller ones at the corners
// and in the middle, one behind another.
fn few(rt: &HostRuntime) -> Result<FrameList, Fail> {
    let size = Size::new(200, 60).ok_or("a size")?;
    let mut list = FrameList::with_room(rt.alloc(), size, 6)?;
    for (x, y, near) in [
        ([0, 3199, 3199], [0, 0, 959], [50, 90, 70]),
        ([0, 600, 300], [0, 0, 300], [200, 220, 210]),
        ([2500, 3199, 3199], [500, 500, 959], [300, 100, 200]),
        ([1200, 2000, 1600], [200, 200, 700], [400, 400, 400]),
        ([1300, 1900, 1600], [250, 250, 600], [20, 20, 20]),
        ([0, 0, 500], [959, 400, 959], [80, 85, 90]),
    ] {
        let piece = ScreenTri::new(x, y, near).ok_or("a piece")?;
        if list.len() < 6 {
            list.push(piece);
        }
    }
    Ok(list)
}

// Whatever the cut and the number of workers, also with more workers than bins.
#[test]
fn each_cut_is_drawn_and_asks_once_for_each_member(rt: HostRuntime) -> Result<(), Fail> {
    let list = few(&rt)?;
    assert_eq!(rt; list.len(), 6);
    for workers in [1, 7, 64] {
        assert!(rt; all_are_alike(&rt, rt.alloc(), &list, workers, (1, 1), 1)?);
        assert!(rt; all_are_alike(&rt, rt.alloc(), &list, workers, (8, 8), 1)?);
    }
    Ok(())
}

// Holds the first piece of bin 0 until three other bins drew one, or it looked very often.
#[derive(Drop)]
struct Holding {
    others: AtomicU32,
    saw_all: AtomicU32,
}

impl Holding {
    fn new() -> Holding {
        Holding {
            others: AtomicU32::new(0),
            saw_all: AtomicU32::new(0),
        }
    }
}

impl Gate for Holding {
    fn before(&self, bin: u32, taken: u32) {
        if taken == 0 && bin > 0 {
            self.others.fetch_add(1, Ordering::SeqCst);
        }
        if taken == 0 && bin == 0 {
            for _ in 0..20_000_000u32 {
                if self.others.load(Ordering::SeqCst) == 3 {
                    self.saw_all.store(1, Ordering::SeqCst);
                    return;
                }
                yield_now();
            }
        }
    }
}

// Eight times four pieces, one in each tile.
fn four_columns(rt: &HostRuntime) -> Result<FrameList, Fail> {
    let (left, right) = ([0, 400, 400], [1024, 1424, 1424]);
    let four = [left, [512, 912, 912], right, [1536, 1936, 1936]];
    columns(rt, 128, &four, 8)
}

// While one of two workers is held in a bin, the other comes to each of the other three.
#[test]
fn no_bin_is_tied_to_a_worker(rt: HostRuntime) -> Result<(), Fail> {
    let list = four_columns(&rt)?;
    let cut = Cut::new(4, 1).ok_or("a cut")?;
    let states = draw_plain(rt.alloc(), &list)?;
    let gate = Holding::new();
    let batch = batch_size(list.len(), 4);
    assert_eq!(rt; batch_count(list.len(), batch), 8);
    let bins = draw_plain_frame(&rt, rt.alloc(), &list, &cut, 2, batch, &gate)?;
    assert_eq!(rt; gate.saw_all.load(Ordering::SeqCst), 1);
    assert!(rt; bins_show(rt.alloc(), bins.as_slice(), &list, &cut, states.as_slice())?);
    Ok(())
}

// So it is where bins have owners: bin 2 is taken from the worker that is held in bin 0.
#[test]
fn bins_of_a_held_worker_are_stolen(rt: HostRuntime) -> Result<(), Fail> {
    let list = four_columns(&rt)?;
    let cut = Cut::new(4, 1).ok_or("a cut")?;
    let states = draw_plain(rt.alloc(), &list)?;
    let batch = batch_size(list.len(), 4);
    let frame = Batched {
        list: &list,
        cut: &cut,
        size: batch,
    };
    let gate = Holding::new();
    let (held, _) = drawn_in_cells(&rt, rt.alloc(), &frame, 2, true, &gate)?;
    assert_eq!(rt; gate.saw_all.load(Ordering::SeqCst), 1);
    assert!(rt; are_alike(held.as_slice(), states.as_slice()));
    Ok(())
}

// Holds the first batch up until another is asked for, or it looked very often. Counts the questions for each batch,
// and those for pieces before the last batch.
#[derive(Drop)]
struct Pairing {
    asked: Vec<AtomicU32>,
    questions: AtomicU32,
    saw_another: AtomicU32,
    early: AtomicU32,
}

impl Pairing {
    fn of(alloc: Global, batches: u32) -> Result<Pairing, Fail> {
        let mut asked = Vec::new(alloc);
        for _ in 0..batches {
            asked.push(AtomicU32::new(0))?;
        }
        Ok(Pairing {
            asked,
            questions: AtomicU32::new(0),
            saw_another: AtomicU32::new(0),
            early: AtomicU32::new(0),
        })
    }

    fn hold(&self) {
        for _ in 0..20_000_000u32 {
            if self.questions.load(Ordering::SeqCst) > 1 {
                self.saw_another.store(1, Ordering::SeqCst);
                return;
            }
            yield_now();
        }
    }

    fn has_all(&self) -> bool {
        self.questions.load(Ordering::SeqCst) as usize == self.asked.len()
    }

    // Whether another batch was asked for while one was held up, and each was asked for once, before all pieces.
    fn is_met(&self) -> bool {
        self.saw_another.load(Ordering::SeqCst) == 1
            && self.early.load(Ordering::SeqCst) == 0
            && self.has_all()
            && are_ones(&self.asked)
    }
}

fn are_ones(counts: &[AtomicU32]) -> bool {
    for k in 0..counts.len() {
        if counts[k].load(Ordering::SeqCst) != 1 {
            return false;
        }
    }
    true
}

impl Gate for Pairing {
    fn before(&self, bin: u32, taken: u32) {
        let _ = (bin, taken);
        if !self.has_all() {
            self.early.fetch_add(1, Ordering::SeqCst);
        }
    }

    fn submits(&self, batch: u32) {
        if let Some(count) = self.asked.get(batch as usize) {
            count.fetch_add(1, Ordering::SeqCst);
        }
        if self.questions.fetch_add(1, Ordering::SeqCst) == 0 {
            self.hold();
        }
    }
}

// So many pieces are binned by two workers before they are drawn: while one is held up in its first batch, the other
// bins.
#[test]
fn batches_are_binned_side_by_side(rt: HostRuntime) -> Result<(), Fail> {
    let list = columns(&rt, 64, &THREE, 700)?;
    assert_eq!(rt; list.len(), 2100);
    let cut = Cut::new(2, 1).ok_or("a cut")?;
    let states = draw_plain(rt.alloc(), &list)?;
    let batch = batch_size(list.len(), 64);
    let frame = Batched {
        list: &list,
        cut: &cut,
        size: batch,
    };
    assert_eq!(rt; frame.batches(), 33);
    let gate = Pairing::of(rt.alloc(), 33)?;
    let (held, _) = drawn_in_cells(&rt, rt.alloc(), &frame, 2, true, &gate)?;
    assert!(rt; gate.is_met());
    assert!(rt; are_alike(held.as_slice(), states.as_slice()));
    Ok(())
}
