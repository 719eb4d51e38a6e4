//! Scenes of version 2: their batches and grades, what is refused of them, and the command that writes them.
ghost use Rattle.std.specs.Prelude.{◌≤◌};

use cull_base::BytesSource;
use culling::Status;
use runs_for_tests::{
    CULL, LARGE, NEVER, UPGRADE, assert_ended, assert_reports, run_with, sink, status_over,
};
use scenes_for_tests::{
    OCCLUDED, TWO, UNDRAWN, VISIBLE, changed, first_scene, in_batches, scene, second_scene,
    wide_scene,
};
use std::alloc::{AllocError, Global};
use std::process::Abort;
use std::sync::Wait;
use std::test::*;
use std::thread::Threads;
use tile_queues::OpenGate;

const LIVE: &str = "maskcull live";

// How `upgrade` of some bytes ends, and the bytes that it writes, at most so many in a write; the write of that number
// fails.
fn written<R: Threads + Wait + Sync>(
    rt: &R,
    alloc: Global,
    bytes: Vec<u8>,
    most: usize,
    call: u64,
) -> Result<(Status, Vec<u8>), Fail>
    requires { 1 ≤ most }
{
    let mut input = BytesSource::new(bytes, 7, Vec::new(alloc));
    let (mut report, mut notes) = (sink(alloc, most, call)?, sink(alloc, LARGE, NEVER)?);
    let status = status_over(
        rt,
        alloc,
        UPGRADE,
        &mut input,
        &mut report,
        &mut notes,
        &OpenGate,
    )?;
    Ok((status, Vec::from_slice(alloc, report.held())?))
}

// The bytes that `upgrade` makes of some.
fn upgraded<R: Threads + Wait + Sync + Abort>(
    rt: &R,
    alloc: Global,
    bytes: Vec<u8>,
) -> Result<Vec<u8>, Fail> {
    let (status, made) = written(rt, alloc, bytes, LARGE, NEVER)?;
    assert_eq!(rt; status, Status::Done);
    Ok(made)
}

#[test]
fn the_first_scene_is_upgraded(rt: HostRuntime) -> Result<(), Fail> {
    let alloc = rt.alloc();
    let second = upgraded(&rt, alloc, first_scene(alloc)?)?;
    assert_eq!(rt; second.len(), 186);
    assert_eq!(rt; second.as_slice(), second_scene(alloc)?.as_slice());
    let again = upgraded(&rt, alloc, second_scene(alloc)?)?;
    assert_eq!(rt; again.as_slice(), second.as_slice());
    assert_reports(&rt, alloc, second, OCCLUDED)
}

// Without triangles the one batch has none; a wide scene stays wide.
#[test]
fn a_scene_without_triangles_is_upgraded(rt: HostRuntime) -> Result<(), Fail> {
    let alloc = rt.alloc();
    let second = upgraded(&rt, alloc, scene(alloc, &[], &[], &[[0, 0, 32, 8, 3]])?)?;
    assert_eq!(rt;
        second.get(32..41),
        Some([1, 0, 0, 0, 0, 0, 0, 0, 0].as_slice())
    );
    assert_reports(&rt, alloc, second, UNDRAWN)?;
    let again = upgraded(&rt, alloc, wide_scene(alloc)?)?;
    assert_eq!(rt; again.as_slice(), wide_scene(alloc)?.as_slice());
    Ok(())
}

const ONE_DROPPED: &str =
    "msoc-report 1 32 8 1 1\nframe 0 pieces 1\n0 visible\nend 0 visible 1 occluded 0 outside 0\n";

#[test]
fn each_batch_has_its_winding(rt: HostRuntime) -> Result<(), Fail> {
    let alloc = rt.alloc();
    for (batches, text) in [
        ([(2, 0)].as_slice(), OCCLUDED),
        (&[(2, 1)], UNDRAWN),
        (&[(1, 1), (1, 0)], ONE_DROPPED),
        (&[(1, 2), (1, 1)], ONE_DROPPED),
        (&[(0, 0), (2, 0), (0, 2)], OCCLUDED),
        (&[(0, 1), (1, 0), (0, 1), (1, 2)], OCCLUDED),
    ] {
        assert_reports(&rt, alloc, in_batches(alloc, batches)?, text)?;
        let ended = run_with(&rt, alloc, LIVE, in_batches(alloc, batches)?)?;
        assert_eq!(rt; (ended.status, ended.report.as_str()), (Status::Done, text));
    }
    Ok(())
}

#[test]
fn batches_that_do_not_fit_are_refused(rt: HostRuntime) -> Result<(), Fail> {
    let alloc = rt.alloc();
    for (batches, note) in [
        ([].as_slice(), "scene refused 17 0\n"),
        (&[(1, 0)], "scene refused 17 1\n"),
        (&[(1, 0), (2, 0)], "scene refused 17 1\n"),
        (&[(2, 3)], "scene refused 17 0\n"),
        (&[(1, 0), (1, 0), (0, 3)], "scene refused 17 2\n"),
        (&[(1, 0), (4294967295, 0), (2, 0)], "scene refused 17 1\n"),
    ] {
        for line in [CULL, UPGRADE] {
            let ended = run_with(&rt, alloc, line, in_batches(alloc, batches)?)?;
            assert_ended(&ended, Status::Scene, "", note)?;
        }
    }
    Ok(())
}

// The first so many bytes of the first scene in version 2, with some changed.
fn cut_to(alloc: Global, count: usize, changes: &[(usize, u8)]) -> Result<Vec<u8>, AllocError> {
    let bytes = changed(second_scene(alloc)?, changes);
    Vec::from_slice(alloc, &bytes.as_slice()[..count.min(bytes.len())])
}

#[test]
fn headers_of_version_2_are_refused_in_order(rt: HostRuntime) -> Result<(), Fail> {
    let alloc = rt.alloc();
    for (count, changes, note) in [
        (31, [].as_slice(), "scene refused 1 32 31\n"),
        (32, &[], "scene refused 1 36 32\n"),
        (35, &[(6, 33)], "scene refused 1 36 35\n"),
        (36, &[(6, 33)], "scene refused 4 33 8\n"),
        (185, &[], "scene refused 1 186 185\n"),
        (186, &[(4, 3)], "scene refused 3 3\n"),
        (186, &[(12, 1)], "scene refused 6 1\n"),
        (186, &[(13, 2)], "scene refused 16 2\n"),
        (186, &[(33, 16), (32, 1)], "scene refused 8 5 4097\n"),
    ] {
        let ended = run_with(&rt, alloc, CULL, cut_to(alloc, count, changes)?)?;
        assert_ended(&ended, Status::Scene, "", note)?;
    }
    let mut longer = second_scene(alloc)?;
    longer.push(0)?;
    let ended = run_with(&rt, alloc, UPGRADE, longer)?;
    assert_ended(&ended, Status::Scene, "", "scene refused 9\n")?;
    Ok(())
}

// In the wide grade the quad has 8388607 and the rectangle behind it 5592405, at its own distance 8388608.
#[test]
fn a_wide_scene_is_drawn_and_asked_by_its_top(rt: HostRuntime) -> Result<(), Fail> {
    let alloc = rt.alloc();
    for (distance, text) in [(3_u8, OCCLUDED), (2, VISIBLE)] {
        for line in [CULL, LIVE] {
            let bytes = changed(wide_scene(alloc)?, &[(130, distance)]);
            let ended = run_with(&rt, alloc, line, bytes)?;
            assert_eq!(rt; (ended.status, ended.report.as_str()), (Status::Done, text));
        }
    }
    Ok(())
}

// A rectangle at 1001 behind a quad at 1000: 66 against 65, and in the wide grade 16761 against 16777.
#[test]
fn the_wide_grade_hides_what_stands_just_behind(rt: HostRuntime) -> Result<(), Fail> {
    let alloc = rt.alloc();
    let quad = [
        [-1000, 1000, 1000],
        [1000, 1000, 1000],
        [1000, -1000, 1000],
        [-1000, -1000, 1000],
    ];
    let rectangles = [[0, 0, 32, 8, 1001]];
    for (grade, text) in [(0_u8, VISIBLE), (1, OCCLUDED)] {
        for line in [CULL, LIVE] {
            let made = upgraded(&rt, alloc, scene(alloc, &quad, &TWO, &rectangles)?)?;
            let ended = run_with(&rt, alloc, line, changed(made, &[(13, grade)]))?;
            assert_eq!(rt; (ended.status, ended.report.as_str()), (Status::Done, text));
        }
    }
    Ok(())
}

// 186 bytes are 29 writes of at most seven: six of the header, and each table is written for itself.
#[test]
fn each_write_of_an_upgrade_that_fails_leaves_a_front(rt: HostRuntime) -> Result<(), Fail> {
    let alloc = rt.alloc();
    let whole = second_scene(alloc)?;
    for call in 1..30 {
        let (status, front) = written(&rt, alloc, first_scene(alloc)?, 7, call)?;
        assert_eq!(rt; status, Status::ReportFault);
        assert!(rt; front.len() < whole.len() && whole.as_slice().starts_with(&front));
    }
    let (status, made) = written(&rt, alloc, first_scene(alloc)?, 7, NEVER)?;
    assert_eq!(rt; (status, made.len()), (Status::Done, 186));
    Ok(())
}
