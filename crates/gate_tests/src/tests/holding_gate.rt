//! A frame that is held up until its tiles were read: its caller runs while it is drawn.
ghost use Rattle.std.specs.Prelude.{◌≡◌, ◌≤◌};
ghost use Rattle.cull_base.specs.Screen.{screen_of};
ghost use Rattle.masked_update.specs.Views.{HoldsMet};
ghost use Rattle.tile_cells.specs.Snapshots.{is_held};
ghost use Rattle.tile_queues.specs.Callers.{Follows};

use crate::tests::drawn_lists::{Pool, are_alike, drawn_in_cells};
use binning::{Cut, batch_size};
use cull_base::Verdict;
use masked_update::{TileView, draw_plain};
use rect_query::rect_test;
use scenes_for_tests::{first_list, first_scene, wait_for};
use std::alloc::Global;
use std::process::Abort;
use std::sync::Wait;
use std::sync::atomic::{AtomicBool, Ordering};
use std::test::*;
use std::thread::Threads;
use tile_cells::{Snapshot, TileCells, TileReader};
use tile_queues::{Caller, Gate};

const LOOKS: u32 = 10_000_000;

// Holds the second member of the first bin up until a flag is set.
#[derive(Drop)]
struct HoldingGate {
    seen: AtomicBool,
    freed: AtomicBool,
}

impl Gate for HoldingGate {
    fn before(&self, bin: u32, taken: u32) {
        if bin == 0 && taken == 1 && wait_for(&self.seen) {
            self.freed.store(true, Ordering::SeqCst);
        }
    }
}

// Takes a snapshot of the whole screen.
fn look<R: Wait>(rt: &R, cells: &TileCells, reader: &mut TileReader, snapshot: &mut Snapshot)
    requires of { reader.old.cells ≡ cells.now }
    requires size { snapshot.old.size ≡ reader.old.list.size }
    ensures follows { Follows reader.old reader.new }
    ensures size { snapshot.new.size ≡ snapshot.old.size }
    ensures holds { HoldsMet (is_held snapshot.new) snapshot.new.size (screen_of snapshot.new.size) }
{
    // an accessor tells that there is a cell for each tile
    let _tiles = reader.len();
    let screen = snapshot.size().screen();
    reader.snapshot(rt, cells, screen, snapshot);
}

fn count_of_first(snapshot: &Snapshot) -> Option<u32> {
    if snapshot.holds(0) {
        Some(snapshot.count(0))
    } else {
        None
    }
}

// Whether the rectangle of the whole screen at distance 3 is visible.
fn is_visible(snapshot: &Snapshot) -> bool
    requires { HoldsMet (is_held snapshot.now) snapshot.now.size (screen_of snapshot.now.size) }
{
    let size = snapshot.size();
    rect_test(snapshot, size, size.screen(), 21845) == Verdict::Visible
}

// Looks until the first tile has taken one member, so many times at most, and sets a flag then.
#[derive(Drop)]
struct Watcher<'a> {
    seen: &'a AtomicBool,
    snapshot: Snapshot,
    visible: bool,
}

impl<'a> Caller for Watcher<'a> {
    ghost use Rattle.std.specs.Prelude.{◌≡◌, ⊤};

    ghost ready = { λ s list. s.snapshot.size ≡ list.size };

    ghost done = { λ s list reader. ⊤ };

    fn beside<R: Threads + Wait + Sync>(
        &mut self,
        rt: &R,
        cells: &TileCells,
        reader: &mut TileReader,
    ) {
        for _ in 0..LOOKS {
            look(rt, cells, reader, &mut self.snapshot);
            if count_of_first(&self.snapshot) == Some(1) {
                self.visible = is_visible(&self.snapshot);
                self.seen.store(true, Ordering::SeqCst);
                return;
            }
        }
    }
}

// The two pieces are drawn as they are on one thread, and the caller sees the tile between them. The screen is cut into
// so many bins in a row, of which the first has its one tile.
fn assert_held<R: Threads + Wait + Sync + Abort>(
    rt: &R,
    alloc: Global,
    workers: u32,
    bins: u8,
    steal: bool,
) -> Result<(), Fail>
    requires some { 1 ≤ workers }
    requires workers { workers ≤ 64 }
{
    // the two pieces of the first scene's frame
    let list = first_list(rt, alloc, first_scene(alloc)?)?;
    assert_eq!(rt; list.len(), 2);
    let cut = Cut::new(bins, 1).ok_or("a cut")?;
    assert_eq!(rt; batch_size(list.len(), 1), 1);
    let gate = HoldingGate {
        seen: AtomicBool::new(false),
        freed: AtomicBool::new(false),
    };
    let mut watcher = Watcher {
        seen: &gate.seen,
        snapshot: Snapshot::with_room(alloc, list.size())?,
        visible: false,
    };
    let caller = &mut watcher;
    let pool = Pool { workers, steal };
    let held = drawn_in_cells(rt, alloc, &list, &cut, pool, &gate, caller)?;
    let states = draw_plain(alloc, &list)?;
    assert!(rt; gate.freed.load(Ordering::SeqCst));
    assert!(rt; watcher.visible);
    assert!(rt; are_alike(held.as_slice(), states.as_slice()));
    Ok(())
}

#[test]
fn holding_gate(rt: HostRuntime) -> Result<(), Fail> {
    assert_held(&rt, rt.alloc(), 1, 1, false)
}

// There are as many bins as workers, since a worker without a bin isn't started.
#[test]
fn holding_gate_with_eight_workers(rt: HostRuntime) -> Result<(), Fail> {
    assert_held(&rt, rt.alloc(), 8, 8, false)
}

// So it is where workers take bins from each other.
#[test]
fn holding_gate_with_stolen_tasks(rt: HostRuntime) -> Result<(), Fail> {
    assert_held(&rt, rt.alloc(), 1, 1, true)?;
    assert_held(&rt, rt.alloc(), 8, 8, true)
}
