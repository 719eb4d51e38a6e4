//! Bins that are drawn while their worker is held up in another: other workers take them.
use crate::tests::drawn_lists::{Pool, are_alike, drawn_in_cells};
use binning::Cut;
use culling::Status;
use masked_update::draw_plain;
use runs_for_tests::{assert_ended, run_gated, run_with};
use scenes_for_tests::{OCCLUDED, Patience, changed, first_list, first_scene, scene};
use std::alloc::{AllocError, Global};
use std::process::Abort;
use std::sync::Wait;
use std::sync::atomic::{AtomicBool, AtomicU32, Ordering};
use std::test::*;
use std::thread::Threads;
use tile_cells::{TileCells, TileReader};
use tile_queues::{Caller, Gate};

// Holds the first pieces of bins 0 and 2 up, each until the other bin is asked for its own.
#[derive(Drop)]
struct StealingGate {
    left: AtomicBool,
    right: AtomicBool,
    patience: Patience,
}

impl StealingGate {
    fn new() -> StealingGate {
        StealingGate {
            left: AtomicBool::new(false),
            right: AtomicBool::new(false),
            patience: Patience::new(),
        }
    }

    // Whether both bins were asked for, and each was freed by the other.
    fn freed_both(&self) -> bool {
        self.left.load(Ordering::SeqCst)
            && self.right.load(Ordering::SeqCst)
            && !self.patience.is_late()
    }
}

impl Gate for StealingGate {
    fn before(&self, bin: u32, taken: u32) {
        if bin == 0 && taken == 0 {
            self.left.store(true, Ordering::SeqCst);
            self.patience.wait(&self.right);
        }
        if bin == 2 && taken == 0 {
            self.right.store(true, Ordering::SeqCst);
            self.patience.wait(&self.left);
        }
    }
}

// Looks at nothing.
#[derive(Drop)]
struct Nobody;

impl Caller for Nobody {
    ghost use Rattle.std.specs.Prelude.{⊤};

    ghost ready = { λ s list. ⊤ };

    ghost done = { λ s list reader. ⊤ };

    fn beside<R: Threads + Wait + Sync>(
        &mut self,
        _rt: &R,
        _cells: &TileCells,
        _reader: &mut TileReader,
    ) {}
}

// Bins 0 and 2 are both worker 0's. While it is held up in the one, the other worker draws the other.
#[test]
fn stolen_task(rt: HostRuntime) -> Result<(), Fail> {
    let alloc = rt.alloc();
    let list = first_list(&rt, alloc, wide_scene(alloc, 1)?)?;
    assert_eq!(rt; list.len(), 3);
    let cut = Cut::new(3, 1).ok_or("a cut")?;
    let gate = StealingGate::new();
    let caller = &mut Nobody;
    let pool = Pool {
        workers: 2,
        steal: true,
    };
    let held = drawn_in_cells(&rt, alloc, &list, &cut, pool, &gate, caller)?;
    let states = draw_plain(alloc, &list)?;
    assert!(rt; gate.freed_both());
    assert_eq!(rt; states.len(), 3);
    assert!(rt; are_alike(held.as_slice(), states.as_slice()));
    Ok(())
}

// The corners of three pieces, one in each of three tiles, as vertices at distance 768.
const CORNERS: [[i32; 3]; 9] = [
    [-768, 768, 768],
    [-609, 768, 768],
    [-609, -756, 768],
    [-224, 768, 768],
    [31, 768, 768],
    [31, -756, 768],
    [288, 768, 768],
    [543, 768, 768],
    [543, -756, 768],
];

const TRIANGLES: [[u32; 3]; 3] = [[0, 1, 2], [3, 4, 5], [6, 7, 8]];

// A scene with the three pieces so many times over, on a screen of three tiles.
fn wide_scene(alloc: Global, times: u32) -> Result<Vec<u8>, AllocError> {
    let mut triangles = Vec::new(alloc);
    for _ in 0..times {
        triangles.extend_from_slice(&TRIANGLES)?;
    }
    let bytes = scene(alloc, &CORNERS, &triangles, &[])?;
    Ok(changed(bytes, &[(6, 96)]))
}

// A command on this scene frees both bins, and its report is that of one worker.
fn assert_freed<R: Threads + Wait + Sync + Abort>(
    rt: &R,
    alloc: Global,
    line: &str,
) -> Result<(), Fail> {
    let gate = StealingGate::new();
    let ended = run_gated(rt, alloc, line, wide_scene(alloc, 1)?, &gate)?;
    assert!(rt; gate.freed_both());
    let plain = run_with(rt, alloc, "maskcull cull", wide_scene(alloc, 1)?)?;
    assert_ended(&ended, Status::Done, plain.report.as_str(), "")?;
    Ok(())
}

// With no looks, with looks, and while objects are settled; without the flag cells of bins 0 and 2 are drawn one after
// the other.
#[test]
fn stolen_task_of_a_command(rt: HostRuntime) -> Result<(), Fail> {
    for line in [
        "maskcull cull --steal --workers 2 --bins-x 3 --batch 1",
        "maskcull live --steal --workers 2 --bins-x 3 --batch 1",
        "maskcull cull --early --steal --workers 2 --bins-x 3 --batch 1",
    ] {
        assert_freed(&rt, rt.alloc(), line)?;
    }
    Ok(())
}

// Counts the batches, and sees whether one was binned behind the first question for a piece. Holds a batch up, if there
// is one of this number, until a piece is asked for.
#[derive(Drop)]
struct OrderGate {
    held: Option<u32>,
    batches: AtomicU32,
    drawn: AtomicBool,
    behind: AtomicBool,
    patience: Patience,
}

impl OrderGate {
    fn holding(held: Option<u32>) -> OrderGate {
        OrderGate {
            held,
            batches: AtomicU32::new(0),
            drawn: AtomicBool::new(false),
            behind: AtomicBool::new(false),
            patience: Patience::new(),
        }
    }
}

impl Gate for OrderGate {
    fn before(&self, bin: u32, taken: u32) {
        let _ = (bin, taken);
        self.drawn.store(true, Ordering::SeqCst);
    }

    fn submits(&self, batch: u32) {
        self.batches.fetch_add(1, Ordering::SeqCst);
        if self.drawn.load(Ordering::SeqCst) {
            self.behind.store(true, Ordering::SeqCst);
        }
        if self.held == Some(batch) {
            self.patience.wait(&self.drawn);
        }
    }
}

// A command submits all sixty-six batches, and pieces are drawn; a batch may be held up.
fn in_order<R: Threads + Wait + Sync + Abort>(
    rt: &R,
    alloc: Global,
    line: &str,
    held: Option<u32>,
) -> Result<OrderGate, Fail> {
    let gate = OrderGate::holding(held);
    let ended = run_gated(rt, alloc, line, wide_scene(alloc, 22)?, &gate)?;
    assert_eq!(rt; ended.status, Status::Done);
    assert_eq!(rt; gate.batches.load(Ordering::SeqCst), 66);
    assert!(rt; gate.drawn.load(Ordering::SeqCst));
    Ok(gate)
}

// All batches are submitted before a worker begins.
#[test]
fn all_batches_are_submitted_before_tasks_are_stolen(rt: HostRuntime) -> Result<(), Fail> {
    let line = "maskcull cull --steal --workers 2 --bins-x 3 --batch 1";
    let gate = in_order(&rt, rt.alloc(), line, None)?;
    assert!(rt; !gate.behind.load(Ordering::SeqCst));
    Ok(())
}

// Without the flag pieces are drawn while batches are binned: the last is held up until one is asked for.
#[test]
fn without_stealing_workers_begin_before_the_last_batch(rt: HostRuntime) -> Result<(), Fail> {
    let line = "maskcull cull --workers 2 --bins-x 3 --batch 1";
    let gate = in_order(&rt, rt.alloc(), line, Some(65))?;
    assert!(rt; !gate.patience.is_late());
    Ok(())
}

// The report of the first scene by any workers, in any bins.
#[test]
fn stealing_changes_no_byte(rt: HostRuntime) -> Result<(), Fail> {
    let alloc = rt.alloc();
    for (command, is_noted) in [("cull", false), ("live", true), ("cull --early", false)] {
        for workers in [1u32, 7, 64] {
            for bins in [1u32, 8] {
                let line = format!(in alloc;
                    "maskcull {command} --steal --workers {workers} --bins-x {bins} --bins-y {bins} --batch 1"
                )?;
                let ended = run_with(&rt, alloc, line.as_str(), first_scene(alloc)?)?;
                assert!(rt; is_noted || ended.notes.is_empty());
                assert_ended(&ended, Status::Done, OCCLUDED, ended.notes.as_str())?;
            }
        }
    }
    Ok(())
}
