//! The command `check`: logs that `live` may have noted, and others.
use cull_base::{SureSource, fill};
use culling::Status;
use live_check::{LogAnswer, check_log};
use runs_for_tests::{Ended, assert_ended, read_with_fault, run_with, written_with_fault};
use scenes_for_tests::{
    OCCLUDED, QUAD, TWO, WHOLE, changed, first_scene, scene, scene_from, second_scene, seen_from,
    two_frames, wide_scene,
};
use std::alloc::{AllocError, Global};
use std::process::Abort;
use std::sync::Wait;
use std::test::*;
use std::thread::Threads;

const CHECK: &str = "maskcull check --rounds 2 --watch 8";

const BOTH_OCCLUDED: &str = "live 0 0 0 occluded 0:2\nlive 0 1 0 occluded 0:2\n";

const ACCEPTED: &str = "log accepted\n";

// An input of `check`: a number, and what stands behind it.
fn input_of(alloc: Global, number: u32, scene: &[u8], log: &str) -> Result<Vec<u8>, AllocError> {
    let mut bytes = Vec::from_slice(alloc, &number.to_le_bytes())?;
    bytes.extend_from_slice(scene)?;
    bytes.extend_from_slice(log.as_bytes())?;
    Ok(bytes)
}

// The length of a scene, the scene and a log.
fn with_log(alloc: Global, scene: Vec<u8>, log: &str) -> Result<Vec<u8>, AllocError> {
    input_of(
        alloc,
        scene.len().min(0xffff_ffff) as u32,
        scene.as_slice(),
        log,
    )
}

// Where there is no such number of good lines the log is accepted.
fn assert_checked<R: Threads + Wait + Sync + Abort>(
    rt: &R,
    alloc: Global,
    line: &str,
    scene: Vec<u8>,
    log: &str,
    good: Option<u32>,
) -> Result<(), Fail> {
    let ended = run_with(rt, alloc, line, with_log(alloc, scene, log)?)?;
    match good {
        None => assert_ended(&ended, Status::Done, ACCEPTED, ""),
        Some(good) => {
            let report = format!(in alloc; "log refused {good}\n")?;
            assert_ended(&ended, Status::Log, report.as_str(), "")
        }
    }
}

// What `live` notes of a scene with such looks is accepted, however it is drawn.
fn assert_own_log<R: Threads + Wait + Sync + Abort>(
    rt: &R,
    alloc: Global,
    looks: &str,
    drawing: &str,
    bytes: Vec<u8>,
) -> Result<Ended, Fail> {
    let line = format!(in alloc; "maskcull live{looks}{drawing}")?;
    let live = run_with(rt, alloc, line.as_str(), bytes.clone()?)?;
    assert_eq!(rt; live.status, Status::Done);
    let line = format!(in alloc; "maskcull check{looks}")?;
    assert_checked(rt, alloc, line.as_str(), bytes, live.notes.as_str(), None)?;
    Ok(live)
}

#[test]
fn what_live_notes_is_accepted(rt: HostRuntime) -> Result<(), Fail> {
    let (alloc, looks) = (rt.alloc(), " --rounds 2 --watch 8");
    let live = assert_own_log(&rt, alloc, looks, "", first_scene(alloc)?)?;
    assert_eq!(rt; live.report.as_str(), OCCLUDED);
    Ok(())
}

#[test]
fn logs_that_live_may_note(rt: HostRuntime) -> Result<(), Fail> {
    let alloc = rt.alloc();
    for log in [
        BOTH_OCCLUDED,
        "live 0 0 0 visible 0:0\nlive 0 1 0 occluded 0:2\n",
        "live 0 0 0 visible 0:1\nlive 0 1 0 visible 0:1\n",
    ] {
        assert_checked(&rt, alloc, CHECK, first_scene(alloc)?, log, None)?;
    }
    Ok(())
}

#[test]
fn logs_that_it_may_not(rt: HostRuntime) -> Result<(), Fail> {
    let alloc = rt.alloc();
    for (log, good) in [
        ("live 0 0 0 visible 0:1\nlive 0 1 0 visible 0:0\n", 1),
        ("live 0 0 0 occluded 0:2\nlive 0 1 0 visible 0:1\n", 1),
        ("live 0 0 0 occluded 0:1\nlive 0 1 0 occluded 0:2\n", 0),
        ("", 0),
        ("live 0 0 0 occluded 0:2\nlive 0 1 0 occluded 0:2\n\n", 2),
        ("live 0 0 0 occluded 0:2\nlive 0 1 0 occluded 0:2", 1),
        ("live 0 0 0 occluded 0:3\nlive 0 1 0 occluded 0:3\n", 0),
        ("live 0 0 0 occluded 0:02\nlive 0 1 0 occluded 0:2\n", 0),
        ("live 0 0 0 occluded 0:2 \nlive 0 1 0 occluded 0:2\n", 0),
        ("live 0 0 0 occluded\nlive 0 1 0 occluded 0:2\n", 0),
        ("live 0 0 0 outside 0:2\nlive 0 1 0 occluded 0:2\n", 0),
        ("live 0 1 0 occluded 0:2\nlive 0 0 0 occluded 0:2\n", 0),
        ("live 0 0 0 occluded 0:2\nlive 0 1 0 occluded 1:2\n", 1),
        (
            "live 0 0 0 occluded 0:2\nlive 0 1 0 occluded 0:2000000\n",
            1,
        ),
    ] {
        assert_checked(&rt, alloc, CHECK, first_scene(alloc)?, log, Some(good))?;
    }
    Ok(())
}

#[test]
fn a_scene_of_version_2_is_read_too(rt: HostRuntime) -> Result<(), Fail> {
    let alloc = rt.alloc();
    assert_checked(&rt, alloc, CHECK, second_scene(alloc)?, BOTH_OCCLUDED, None)?;
    assert_checked(&rt, alloc, CHECK, wide_scene(alloc)?, BOTH_OCCLUDED, None)?;
    // three bytes of its header are left out
    let input = input_of(alloc, 33, second_scene(alloc)?.as_slice(), "")?;
    let ended = run_with(&rt, alloc, CHECK, input)?;
    assert_ended(&ended, Status::Scene, "", "scene refused 1 36 33\n")?;
    Ok(())
}

// Both rectangles stand on one tile.
#[test]
fn a_later_line_of_another_object_may_not_fall(rt: HostRuntime) -> Result<(), Fail> {
    let (alloc, line) = (rt.alloc(), "maskcull check --watch 2");
    for (log, good) in [
        ("live 0 0 0 occluded 0:2\nlive 0 0 1 visible 0:1\n", Some(1)),
        ("live 0 0 0 visible 0:1\nlive 0 0 1 occluded 0:2\n", None),
    ] {
        let twice = scene(alloc, &QUAD, &TWO, &[WHOLE, WHOLE])?;
        assert_checked(&rt, alloc, line, twice, log, good)?;
    }
    Ok(())
}

#[test]
fn counts_begin_anew_in_the_next_frame(rt: HostRuntime) -> Result<(), Fail> {
    let alloc = rt.alloc();
    for (log, good) in [
        ("live 0 0 0 occluded 0:2\nlive 1 0 0 visible 0:0\n", None),
        (
            "live 0 0 0 occluded 0:2\nlive 0 0 0 occluded 0:2\n",
            Some(1),
        ),
    ] {
        assert_checked(&rt, alloc, "maskcull check", two_frames(alloc)?, log, good)?;
    }
    Ok(())
}

#[test]
fn without_objects_only_the_empty_log_is_accepted(rt: HostRuntime) -> Result<(), Fail> {
    let alloc = rt.alloc();
    let bare = scene(alloc, &QUAD, &TWO, &[])?;
    assert_checked(&rt, alloc, CHECK, bare, "", None)?;
    let bare = scene(alloc, &QUAD, &TWO, &[])?;
    assert_checked(&rt, alloc, CHECK, bare, "\n", Some(0))
}

// A screen of 40 by 12 has four tiles, the last column and row of which are cut; the third rectangle isn't on it.
fn four_tiles(alloc: Global) -> Result<Vec<u8>, AllocError> {
    let rectangles = [[0, 0, 40, 12, 3], [32, 8, 64, 64, 3], [40, 8, 64, 64, 3]];
    let bytes = scene(alloc, &QUAD, &TWO, &rectangles)?;
    Ok(changed(bytes, &[(6, 40), (8, 12)]))
}

#[test]
fn a_line_has_a_field_for_each_tile_of_its_area(rt: HostRuntime) -> Result<(), Fail> {
    let alloc = rt.alloc();
    let line = "maskcull check --watch 3";
    let rest = "live 0 0 1 occluded 3:2\nlive 0 0 2 outside\n";
    for (first, good) in [
        ("live 0 0 0 occluded 0:2 1:2 2:2 3:2\n", None),
        ("live 0 0 0 visible 0:2 1:2 2:2 3:1\n", None),
        ("live 0 0 0 occluded 0:2 1:2 2:2 3:1\n", Some(0)),
        ("live 0 0 0 occluded 0:2 1:2 3:2\n", Some(0)),
        ("live 0 0 0 occluded 0:2 1:2 2:2\n", Some(0)),
        ("live 0 0 0 occluded 0:2 2:2 1:2 3:2\n", Some(0)),
    ] {
        let log = format!(in alloc; "{first}{rest}")?;
        assert_checked(&rt, alloc, line, four_tiles(alloc)?, log.as_str(), good)?;
    }
    Ok(())
}

#[test]
fn the_length_stands_in_front_of_the_scene(rt: HostRuntime) -> Result<(), Fail> {
    let alloc = rt.alloc();
    for have in 0..4usize {
        let note = format!(in alloc; "scene refused 1 4 {have}\n")?;
        let ended = run_with(&rt, alloc, CHECK, Vec::from_slice(alloc, &[0; 4][..have])?)?;
        assert_ended(&ended, Status::Scene, "", note.as_str())?;
    }
    let first = first_scene(alloc)?;
    for (number, note) in [
        (0, "scene refused 1 32 0\n"),
        (31, "scene refused 1 32 31\n"),
        (178, "scene refused 9\n"),
    ] {
        let input = input_of(alloc, number, first.as_slice(), BOTH_OCCLUDED)?;
        let ended = run_with(&rt, alloc, CHECK, input)?;
        assert_ended(&ended, Status::Scene, "", note)?;
    }
    let input = input_of(alloc, 200, first.as_slice(), "")?;
    let ended = run_with(&rt, alloc, CHECK, input)?;
    assert_ended(&ended, Status::Log, "log refused 0\n", "")?;
    Ok(())
}

// The length, the scene and the log have 4, 177 and 48 bytes; two reads find the end, since a buffer is filled again.
#[test]
fn each_read_of_a_check_that_fails_is_noted(rt: HostRuntime) -> Result<(), Fail> {
    let alloc = rt.alloc();
    let bytes = with_log(alloc, first_scene(alloc)?, BOTH_OCCLUDED)?;
    for call in 1..232 {
        let ended = read_with_fault(&rt, alloc, CHECK, bytes.clone()?, call)?;
        assert_ended(&ended, Status::ReadFault, "", "read fault\n")?;
    }
    let ended = read_with_fault(&rt, alloc, CHECK, bytes, 232)?;
    assert_ended(&ended, Status::Done, ACCEPTED, "")?;
    Ok(())
}

#[test]
fn each_write_of_an_answer_that_fails_leaves_its_beginning(rt: HostRuntime) -> Result<(), Fail> {
    let alloc = rt.alloc();
    let bytes = with_log(alloc, first_scene(alloc)?, BOTH_OCCLUDED)?;
    for (call, front) in [(1, ""), (2, "log a"), (3, "log accept")] {
        let ended = written_with_fault(&rt, alloc, CHECK, bytes.clone()?, 5, call)?;
        assert_ended(&ended, Status::ReportFault, front, "report fault\n")?;
    }
    let ended = written_with_fault(&rt, alloc, CHECK, bytes, 5, 4)?;
    assert_ended(&ended, Status::Done, ACCEPTED, "")?;
    Ok(())
}

// Four tiles and three frames.
fn three_frames(alloc: Global) -> Result<Vec<u8>, AllocError> {
    let rectangles = [[0, 0, 64, 16, 3], [8, 2, 24, 6, 5], [30, 4, 64, 64, 9]];
    let bytes = seen_from(scene(alloc, &QUAD, &TWO, &rectangles)?, 3, 1)?;
    Ok(changed(bytes, &[(6, 64), (8, 16)]))
}

#[test]
fn the_log_of_64_workers_is_accepted(rt: HostRuntime) -> Result<(), Fail> {
    let (alloc, looks) = (rt.alloc(), " --rounds 8 --watch 8");
    let drawing = " --workers 64 --bins-x 2 --bins-y 2 --batch 1";
    let _ = assert_own_log(&rt, alloc, looks, drawing, three_frames(alloc)?)?;
    Ok(())
}

#[test]
fn nothing_is_left_of_an_accepted_log(rt: HostRuntime) -> Result<(), Fail> {
    let alloc = rt.alloc();
    let scene = scene_from(alloc, first_scene(alloc)?)?;
    let mut log = SureSource::new(Vec::from_slice(alloc, BOTH_OCCLUDED.as_bytes())?);
    let answer = check_log(&rt, alloc, &scene, 2, 8, &mut log).ok();
    assert_eq!(rt; answer, Some(LogAnswer::Accepted));
    assert_eq!(rt; fill(&mut log, &mut [0; 8]).ok(), Some(0));
    let mut log = SureSource::new(Vec::from_slice(alloc, BOTH_OCCLUDED.as_bytes())?);
    let answer = check_log(&rt, alloc, &scene, 1, 8, &mut log).ok();
    assert_eq!(rt; answer, Some(LogAnswer::Refused(1)));
    Ok(())
}
