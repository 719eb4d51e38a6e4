//! Sources and sinks that fail, and scenes that are cut short: at each place where they may.
ghost use Rattle.std.specs.Prelude.{◌≤◌};

use cull_base::BytesSource;
use culling::Status;
use runs_for_tests::{
    CULL, LARGE, NEVER, PICTURE, UPGRADE, assert_ended, read_with_fault, run_over, run_with, sink,
    written_with_fault,
};
use scenes_for_tests::{
    OCCLUDED, QUAD, TWO, changed, first_bytes, first_scene, scene, second_scene, seen_from,
};
use std::alloc::{AllocError, Global};
use std::process::Abort;
use std::sync::Wait;
use std::test::*;
use std::thread::Threads;
use tile_queues::OpenGate;

// The report of the first scene fails in a write of at most so many bytes, and so many stand then.
fn assert_report_fault<R: Threads + Wait + Sync + Abort>(
    rt: &R,
    alloc: Global,
    most: usize,
    call: u64,
    count: usize,
) -> Result<(), Fail>
    requires { 1 ≤ most }
{
    let ended = written_with_fault(rt, alloc, CULL, first_scene(alloc)?, most, call)?;
    let report = ended.report.as_str();
    assert_ended(&ended, Status::ReportFault, report, "report fault\n")?;
    assert_eq!(rt; report.len(), count);
    assert!(rt; OCCLUDED.starts_with(report));
    Ok(())
}

// Each read before this one that fails is noted, whatever is done with the scene.
fn assert_read_faults<R: Threads + Wait + Sync + Abort>(
    rt: &R,
    alloc: Global,
    bytes: &[u8],
    end: u64,
) -> Result<(), Fail> {
    for call in 1..end {
        for line in [CULL, UPGRADE, PICTURE] {
            let ended = read_with_fault(rt, alloc, line, Vec::from_slice(alloc, bytes)?, call)?;
            assert_ended(&ended, Status::ReadFault, "", "read fault\n")?;
        }
    }
    Ok(())
}

// In its header, and behind it.
#[test]
fn a_scene_cut_anywhere_is_refused(rt: HostRuntime) -> Result<(), Fail> {
    let alloc = rt.alloc();
    for n in 0..177 {
        let need = if n < 32 { 32u32 } else { 177 };
        let note = format!(in alloc; "scene refused 1 {need} {n}\n")?;
        let ended = run_with(&rt, alloc, CULL, first_bytes(alloc, n)?)?;
        assert_ended(&ended, Status::Scene, "", note.as_str())?;
    }
    Ok(())
}

#[test]
fn each_read_that_fails_is_noted(rt: HostRuntime) -> Result<(), Fail> {
    let bytes = first_scene(rt.alloc())?;
    assert_read_faults(&rt, rt.alloc(), &bytes, 179)
}

// 186 bytes, and the read that shows the end.
#[test]
fn each_read_of_version_2_that_fails_is_noted(rt: HostRuntime) -> Result<(), Fail> {
    let alloc = rt.alloc();
    let bytes = second_scene(alloc)?;
    assert_read_faults(&rt, alloc, &bytes, 188)?;
    let last = read_with_fault(&rt, alloc, CULL, bytes, 188)?;
    assert_ended(&last, Status::Done, OCCLUDED, "")?;
    Ok(())
}

#[test]
fn no_read_follows_the_one_that_shows_the_end(rt: HostRuntime) -> Result<(), Fail> {
    let alloc = rt.alloc();
    let ended = read_with_fault(&rt, alloc, CULL, first_scene(alloc)?, 179)?;
    assert_ended(&ended, Status::Done, OCCLUDED, "")?;
    Ok(())
}

#[test]
fn a_line_that_cannot_be_written_ends_the_report(rt: HostRuntime) -> Result<(), Fail> {
    for (call, count) in [(1, 0), (2, 23), (3, 40), (4, 51)] {
        assert_report_fault(&rt, rt.alloc(), LARGE, call, count)?;
    }
    Ok(())
}

#[test]
fn a_byte_that_cannot_be_written_ends_the_report(rt: HostRuntime) -> Result<(), Fail> {
    for count in 0..88 {
        assert_report_fault(&rt, rt.alloc(), 1, count as u64 + 1, count)?;
    }
    Ok(())
}

#[test]
fn no_write_follows_the_last_byte(rt: HostRuntime) -> Result<(), Fail> {
    let alloc = rt.alloc();
    let ended = written_with_fault(&rt, alloc, CULL, first_scene(alloc)?, 1, 89)?;
    assert_ended(&ended, Status::Done, OCCLUDED, "")?;
    Ok(())
}

#[test]
fn a_refusal_that_cannot_be_noted_is_told_by_the_status(rt: HostRuntime) -> Result<(), Fail> {
    let alloc = rt.alloc();
    let mut input = BytesSource::new(first_bytes(alloc, 31)?, 1, Vec::new(alloc));
    let (report, notes) = (sink(alloc, LARGE, NEVER)?, sink(alloc, LARGE, 1)?);
    let ended = run_over(&rt, alloc, CULL, &mut input, report, notes, &OpenGate)?;
    assert_ended(&ended, Status::Scene, "", "")?;
    Ok(())
}

// The quad in so many frames, with the rectangle of the whole screen 1024 times behind it.
fn many_objects(alloc: Global, frames: u8) -> Result<Vec<u8>, AllocError> {
    let bytes = scene(alloc, &QUAD, &TWO, &[[0, 0, 32, 8, 3]; 1024])?;
    // the second byte of the number of objects
    seen_from(changed(bytes, &[(29, 4)]), frames, 1)
}

// The second piece of verdicts is the fourth write: before it stand the header, the line of the frame and the
// first one.
#[test]
fn lines_of_128_verdicts_or_of_a_run_are_a_piece(rt: HostRuntime) -> Result<(), Fail> {
    let alloc = rt.alloc();
    for (workers, frames, lines) in [(1u32, 1, 130), (2, 1, 66), (64, 1, 66), (2, 2, 66)] {
        let line = format!(in alloc; "maskcull cull --workers {workers}")?;
        let bytes = many_objects(alloc, frames)?;
        let ended = written_with_fault(&rt, alloc, line.as_str(), bytes, LARGE, 4)?;
        assert_eq!(rt; ended.status, Status::ReportFault);
        assert_eq!(rt; ended.report.lines().count(), lines);
    }
    Ok(())
}

// The quad in five frames. Written are the header, and for each frame its first line, its one verdict and its
// last line.
#[test]
fn a_fault_at_each_write_of_frames_side_by_side(rt: HostRuntime) -> Result<(), Fail> {
    let alloc = rt.alloc();
    let bytes = seen_from(scene(alloc, &QUAD, &TWO, &[[0, 0, 32, 8, 3]])?, 5, 1)?;
    for call in 1..18 {
        let alone = written_with_fault(&rt, alloc, CULL, bytes.clone()?, LARGE, call)?;
        let line = "maskcull cull --workers 2";
        let ended = written_with_fault(&rt, alloc, line, bytes.clone()?, LARGE, call)?;
        let (status, notes) = if call < 17 {
            (Status::ReportFault, "report fault\n")
        } else {
            (Status::Done, "")
        };
        assert_ended(&ended, status, alone.report.as_str(), notes)?;
    }
    Ok(())
}
