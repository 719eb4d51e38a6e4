//! Runs that a gate holds up until others have come as far: binning, workers and looks go on side by side.
use culling::Status;
use runs_for_tests::{CULL, assert_ended, run_gated, run_with};
use scenes_for_tests::{Patience, changed, first_scene};
use std::alloc::{AllocError, Global};
use std::sync::atomic::{AtomicBool, Ordering};
use std::test::*;
use tile_queues::Gate;

// Whether something came to pass in each of two bins.
#[derive(Drop)]
struct InBins {
    left: AtomicBool,
    right: AtomicBool,
}

impl InBins {
    fn new() -> InBins {
        InBins {
            left: AtomicBool::new(false),
            right: AtomicBool::new(false),
        }
    }

    fn of(&self, bin: u32) -> &AtomicBool {
        if bin == 0 { &self.left } else { &self.right }
    }

    fn of_other(&self, bin: u32) -> &AtomicBool {
        if bin == 0 { &self.right } else { &self.left }
    }

    fn are_set(&self) -> bool {
        self.left.load(Ordering::SeqCst) && self.right.load(Ordering::SeqCst)
    }
}

// Lets the first batch be binned once both bins found nothing to draw, which go on then, and each bin draw its first
// piece once the other bin is at its own.
#[derive(Drop)]
struct DrawingGate {
    submits: AtomicBool,
    idle: InBins,
    first: InBins,
    patience: Patience,
}

impl DrawingGate {
    fn new() -> DrawingGate {
        DrawingGate {
            submits: AtomicBool::new(false),
            idle: InBins::new(),
            first: InBins::new(),
            patience: Patience::new(),
        }
    }

    fn was_asked(&self) -> bool {
        self.submits.load(Ordering::SeqCst) && self.idle.are_set() && self.first.are_set()
    }
}

impl Gate for DrawingGate {
    fn before(&self, bin: u32, taken: u32) {
        if taken == 0 {
            self.first.of(bin).store(true, Ordering::SeqCst);
            self.patience.wait(self.first.of_other(bin));
        }
    }

    fn submits(&self, batch: u32) {
        if batch == 0 {
            self.submits.store(true, Ordering::SeqCst);
            self.patience.wait(&self.idle.left);
            self.patience.wait(&self.idle.right);
        }
    }

    fn idle(&self, bin: u32) {
        self.idle.of(bin).store(true, Ordering::SeqCst);
        self.patience.wait(&self.submits);
    }
}

// As that, and holds both bins at their second piece from the second round of looks to the third.
#[derive(Drop)]
struct LookingGate {
    drawing: DrawingGate,
    second: InBins,
    third_round: AtomicBool,
}

impl LookingGate {
    fn new() -> LookingGate {
        LookingGate {
            drawing: DrawingGate::new(),
            second: InBins::new(),
            third_round: AtomicBool::new(false),
        }
    }
}

impl Gate for LookingGate {
    fn before(&self, bin: u32, taken: u32) {
        self.drawing.before(bin, taken);
        if taken == 1 {
            self.second.of(bin).store(true, Ordering::SeqCst);
            self.drawing.patience.wait(&self.third_round);
        }
    }

    fn submits(&self, batch: u32) {
        self.drawing.submits(batch);
    }

    fn idle(&self, bin: u32) {
        self.drawing.idle(bin);
    }

    fn looks(&self, round: u32, object: u32) {
        if object == 0 && round == 1 {
            self.drawing.patience.wait(&self.second.left);
            self.drawing.patience.wait(&self.second.right);
        }
        if object == 0 && round == 2 {
            self.third_round.store(true, Ordering::SeqCst);
        }
    }
}

// The first scene on a screen of two tiles, with the rectangle of the whole screen.
fn wide_scene(alloc: Global) -> Result<Vec<u8>, AllocError> {
    Ok(changed(first_scene(alloc)?, &[(6, 64), (113, 64)]))
}

// Both commands run by two workers in two bins with batches of one piece.
#[test]
fn busy_run(rt: HostRuntime) -> Result<(), Fail> {
    let alloc = rt.alloc();
    let gate = LookingGate::new();
    let line = "maskcull live --workers 2 --bins-x 2 --batch 1 --rounds 3";
    let ended = run_gated(&rt, alloc, line, wide_scene(alloc)?, &gate)?;
    assert!(rt; !gate.drawing.patience.is_late());
    let notes = ended.notes.as_str();
    assert_eq!(rt; notes.lines().nth(1), Some("live 0 1 0 visible 0:1 1:1"));
    let plain = run_with(&rt, alloc, CULL, wide_scene(alloc)?)?;
    assert_ended(&ended, Status::Done, plain.report.as_str(), notes)?;
    Ok(())
}

#[test]
fn busy_run_without_looks(rt: HostRuntime) -> Result<(), Fail> {
    let (gate, bytes) = (DrawingGate::new(), wide_scene(rt.alloc())?);
    let line = "maskcull cull --workers 2 --bins-x 2 --batch 1";
    let ended = run_gated(&rt, rt.alloc(), line, bytes, &gate)?;
    assert!(rt; gate.was_asked());
    assert!(rt; !gate.patience.is_late());
    assert_eq!(rt; ended.status, Status::Done);
    Ok(())
}
