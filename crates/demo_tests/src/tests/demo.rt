//! The command `demo`.
use runs_for_tests::{assert_writes, run_with};
use std::alloc::Global;
use std::process::Abort;
use std::sync::Wait;
use std::test::*;
use std::thread::Threads;

const WITHOUT_TRIANGLES: &str = concat!(
    "demo seed 1 triangles 0 boxes 500 frames 4\n",
    "frame 0 pieces 0 visible 419 occluded 0 outside 81\n",
    "frame 1 pieces 0 visible 422 occluded 0 outside 78\n",
    "frame 2 pieces 0 visible 422 occluded 0 outside 78\n",
    "frame 3 pieces 0 visible 414 occluded 0 outside 86\n",
);

/// The summary of the scene of seed 1 with 20,000 triangles, as one worker in one bin has it.
pub const MANY_TRIANGLES: &str = concat!(
    "demo seed 1 triangles 20000 boxes 500 frames 4\n",
    "frame 0 pieces 19999 visible 59 occluded 383 outside 58\n",
    "frame 1 pieces 20008 visible 92 occluded 350 outside 58\n",
    "frame 2 pieces 20032 visible 71 occluded 373 outside 56\n",
    "frame 3 pieces 19970 visible 74 occluded 364 outside 62\n",
);

// Without a byte of input.
#[test]
fn without_triangles_no_frame_has_pieces(rt: HostRuntime) -> Result<(), Fail> {
    let (alloc, line) = (rt.alloc(), "maskcull demo --seed 1 --triangles 0");
    assert_writes(&rt, alloc, line, Vec::new(alloc), WITHOUT_TRIANGLES)
}

// The summary of many triangles by so many workers, in one bin and in many.
fn assert_many<R: Threads + Wait + Sync + Abort>(
    rt: &R,
    alloc: Global,
    early: &str,
    workers: u32,
) -> Result<(), Fail> {
    for bins in [1u32, 4] {
        let line = format!(in alloc;
            "maskcull demo{early} --seed 1 --triangles 20000 --workers {workers} --bins-x {bins} --bins-y {bins}"
        )?;
        assert_writes(rt, alloc, line.as_str(), Vec::new(alloc), MANY_TRIANGLES)?;
    }
    Ok(())
}

#[test]
fn many_triangles_by_any_workers_in_any_bins(rt: HostRuntime) -> Result<(), Fail> {
    assert_many(&rt, rt.alloc(), "", 1)?;
    assert_many(&rt, rt.alloc(), "", 8)
}

#[test]
fn many_triangles_with_objects_settled_early_by_one_worker(rt: HostRuntime) -> Result<(), Fail> {
    assert_many(&rt, rt.alloc(), " --early", 1)
}

#[test]
fn many_triangles_with_objects_settled_early_by_eight_workers(rt: HostRuntime) -> Result<(), Fail> {
    assert_many(&rt, rt.alloc(), " --early", 8)
}

// Four frames: in windows of two, in one of three with a frame left, in one of four, or shared.
#[test]
fn frames_side_by_side_have_the_same_summary(rt: HostRuntime) -> Result<(), Fail> {
    let alloc = rt.alloc();
    let line = "maskcull demo --triangles 1000";
    let alone = run_with(&rt, alloc, line, Vec::new(alloc))?;
    for workers in [2u32, 3, 4, 5, 64] {
        let line = format!(in alloc; "maskcull demo --triangles 1000 --workers {workers}")?;
        let bytes = Vec::new(alloc);
        assert_writes(&rt, alloc, line.as_str(), bytes, alone.report.as_str())?;
    }
    Ok(())
}
