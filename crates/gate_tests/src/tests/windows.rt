//! Frames side by side: what is written of them, and that they are drawn at once.
use culling::Status;
use runs_for_tests::{CULL, assert_ended, run_gated, run_with};
use scenes_for_tests::{Patience, QUAD, TWO, scene, seen_from, two_frames};
use std::alloc::{AllocError, Global};
use std::sync::atomic::{AtomicBool, AtomicU32, Ordering};
use std::test::*;
use tile_queues::Gate;

// Holds the first frame up at its first piece until a second frame is at its own.
#[derive(Drop)]
struct MeetingGate {
    come: AtomicU32,
    second: AtomicBool,
    patience: Patience,
}

impl Gate for MeetingGate {
    fn before(&self, bin: u32, taken: u32) {
        if bin == 0 && taken == 0 {
            if self.come.fetch_add(1, Ordering::SeqCst) > 0 {
                self.second.store(true, Ordering::SeqCst);
            } else {
                self.patience.wait(&self.second);
            }
        }
    }
}

#[test]
fn two_frames_are_drawn_at_once(rt: HostRuntime) -> Result<(), Fail> {
    let alloc = rt.alloc();
    let gate = MeetingGate {
        come: AtomicU32::new(0),
        second: AtomicBool::new(false),
        patience: Patience::new(),
    };
    let line = "maskcull cull --workers 2";
    let ended = run_gated(&rt, alloc, line, two_frames(alloc)?, &gate)?;
    assert!(rt; !gate.patience.is_late());
    assert_eq!(rt; gate.come.load(Ordering::SeqCst), 2);
    let alone = run_with(&rt, alloc, CULL, two_frames(alloc)?)?;
    assert_ended(&ended, Status::Done, alone.report.as_str(), "")?;
    Ok(())
}

// So many frames: in each of the first seven the quad is one further away and hides one rectangle less.
fn path(alloc: Global, frames: u8) -> Result<Vec<u8>, AllocError> {
    let mut rectangles = [[15, 3, 17, 5, 3]; 7];
    for k in 0..7 {
        rectangles[k][4] = 3 + k as i32;
    }
    seen_from(scene(alloc, &QUAD, &TWO, &rectangles)?, frames, 1)
}

// Seven frames in a window of six, and one left; thirty-seven in a window of sixteen frames a worker, one of two, and
// one left.
#[test]
fn frames_of_windows_are_those_of_one_worker(rt: HostRuntime) -> Result<(), Fail> {
    let alloc = rt.alloc();
    for (workers, frames, last, wanted) in [
        (3u32, 7, 63, "end 6 visible 6 occluded 1 outside 0"),
        (2, 37, 333, "end 36 visible 7 occluded 0 outside 0"),
    ] {
        let line = format!(in alloc; "maskcull cull --workers {workers}")?;
        let ended = run_with(&rt, alloc, line.as_str(), path(alloc, frames)?)?;
        let alone = run_with(&rt, alloc, CULL, path(alloc, frames)?)?;
        assert_ended(&ended, Status::Done, alone.report.as_str(), "")?;
        let first = "end 0 visible 0 occluded 7 outside 0";
        for (line, end) in [(9, first), (last, wanted)] {
            assert_eq!(rt; ended.report.lines().nth(line), Some(end));
        }
    }
    Ok(())
}
