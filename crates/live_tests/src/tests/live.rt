//! Looks at objects while their frames are drawn: the lines that are noted of them.
use cull_base::BytesSource;
use culling::Status;
use runs_for_tests::{LARGE, NEVER, assert_ended, run_over, run_with, sink};
use scenes_for_tests::{OCCLUDED, first_scene, two_frames};
use std::alloc::{AllocError, Global};
use std::process::Abort;
use std::sync::Wait;
use std::test::*;
use std::thread::Threads;
use tile_queues::OpenGate;

// What a line of the first scene's rectangle can end with, by how many pieces its tile has taken.
const ENDS: [&str; 3] = [" 0 visible 0:0\n", " 0 visible 0:1\n", " 0 occluded 0:2\n"];

// Whether the notes are two such lines, whose counts don't fall.
fn are_rising(alloc: Global, notes: &str) -> Result<bool, AllocError> {
    for (first, second) in [(0, 0), (0, 1), (0, 2), (1, 1), (1, 2), (2, 2)] {
        let text = format!(in alloc; "live 0 0{}live 0 1{}", ENDS[first], ENDS[second])?;
        if notes == text.as_str() {
            return Ok(true);
        }
    }
    Ok(false)
}

#[test]
fn two_rounds_make_two_lines(rt: HostRuntime) -> Result<(), Fail> {
    let alloc = rt.alloc();
    let line = "maskcull live --rounds 2 --watch 8";
    let ended = run_with(&rt, alloc, line, first_scene(alloc)?)?;
    assert_ended(&ended, Status::Done, OCCLUDED, ended.notes.as_str())?;
    assert!(rt; are_rising(alloc, ended.notes.as_str())?);
    Ok(())
}

const FRONT: &str = concat!(
    "msoc-report 1 32 8 2 2\n",
    "frame 0 pieces 2\n0 occluded\n1 occluded\nend 0 visible 0 occluded 2 outside 0\n",
);

// Where nothing can be noted, a run of `live` ends with this report.
fn assert_unnoted<R: Threads + Wait + Sync + Abort>(
    rt: &R,
    alloc: Global,
    line: &str,
    bytes: Vec<u8>,
    text: &str,
) -> Result<(), Fail> {
    let mut input = BytesSource::new(bytes, 64, Vec::new(alloc));
    let (report, notes) = (sink(alloc, LARGE, NEVER)?, sink(alloc, LARGE, 1)?);
    let ended = run_over(rt, alloc, line, &mut input, report, notes, &OpenGate)?;
    assert_ended(&ended, Status::NotesFault, text, "")?;
    Ok(())
}

#[test]
fn notes_that_fail_leave_the_frame_on_the_report(rt: HostRuntime) -> Result<(), Fail> {
    let alloc = rt.alloc();
    assert_unnoted(&rt, alloc, "maskcull live", two_frames(alloc)?, FRONT)
}

#[test]
fn the_whole_report_of_one_frame_stands_where_notes_fail(rt: HostRuntime) -> Result<(), Fail> {
    let alloc = rt.alloc();
    let line = "maskcull live --rounds=2 --watch=8";
    assert_unnoted(&rt, alloc, line, first_scene(alloc)?, OCCLUDED)
}
