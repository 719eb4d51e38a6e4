//! Runs in which sixty-four threads draw at once: a gate holds each bin up at its first piece until all have come so far.
use culling::Status;
use runs_for_tests::{assert_ended, run_gated};
use scenes_for_tests::{changed, scene};
use std::alloc::{AllocError, Global};
use std::sync::atomic::{AtomicBool, AtomicU32, Ordering};
use std::test::*;
use std::thread::{Threads, yield_now};
use tile_queues::Gate;

const BINS: u32 = 64;

const TURNS: u32 = 1_000_000;

// So many that the first is in each bin before a worker begins.
const PIECES: usize = 64;

// Counts the bins that come to their first piece, each of which waits there for all others.
#[derive(Drop)]
struct MeetingGate {
    come: AtomicU32,
    late: AtomicBool,
}

impl MeetingGate {
    // Whether all bins came, for so many turns at most.
    fn have_met(&self) -> bool {
        for _ in 0..TURNS {
            if self.come.load(Ordering::SeqCst) == BINS {
                return true;
            }
            yield_now();
        }
        false
    }
}

impl Gate for MeetingGate {
    fn before(&self, _bin: u32, taken: u32) {
        if taken == 0 {
            self.come.fetch_add(1, Ordering::SeqCst);
            if !self.have_met() {
                self.late.store(true, Ordering::SeqCst);
            }
        }
    }
}

// A screen of 8 by 8 tiles, over all of which a triangle lies so many times, and the rectangle of the whole screen.
fn covered_scene(alloc: Global) -> Result<Vec<u8>, AllocError> {
    let vertices = [[-2, 2, 2], [6, 2, 2], [-2, -6, 2]];
    let whole = [[0, 0, 256, 64, 3]];
    let bytes = scene(alloc, &vertices, &[[0, 1, 2]; PIECES], &whole)?;
    Ok(changed(bytes, &[(6, 0), (7, 1), (8, 64)]))
}

const REPORT: &str = "msoc-report 1 256 64 1 1
frame 0 pieces 64
0 occluded
end 0 visible 0 occluded 1 outside 0
";

// Sixty-four workers meet over plain tiles and over cells, and the report is whole.
#[test]
fn sixty_four_threads_draw_at_once(rt: HostRuntime) -> Result<(), Fail> {
    for line in [
        "maskcull cull --workers=64 --bins-x=8 --bins-y=8 --batch=1",
        "maskcull cull --early --workers=64 --bins-x=8 --bins-y=8 --batch=1",
    ] {
        let gate = MeetingGate {
            come: AtomicU32::new(0),
            late: AtomicBool::new(false),
        };
        let ended = run_gated(&rt, rt.alloc(), line, covered_scene(rt.alloc())?, &gate)?;
        assert_eq!(rt; gate.come.load(Ordering::SeqCst), BINS);
        assert!(rt; !gate.late.load(Ordering::SeqCst));
        assert_ended(&ended, Status::Done, REPORT, "")?;
    }
    Ok(())
}
