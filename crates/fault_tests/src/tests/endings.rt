//! Runs that are not done: their notes, and what stands on the report.
use cull_base::BytesSource;
use culling::{Status, cuts_leave_fronts, runs_end_by_their_input};
use runs_for_tests::{CULL, LARGE, NEVER, assert_ended, run_over, run_with, sink};
use scenes_for_tests::{changed, first_scene, two_frames};
use std::test::*;
use tile_queues::OpenGate;

#[test]
fn a_refused_scene_is_noted_with_its_numbers(rt: HostRuntime) -> Result<(), Fail> {
    let alloc = rt.alloc();
    let mut longer = first_scene(alloc)?;
    longer.push(0)?;
    let ended = run_with(&rt, alloc, CULL, longer)?;
    assert_ended(&ended, Status::Scene, "", "scene refused 9\n")?;
    for (changes, note) in [
        ([(0, 0x4e)].as_slice(), "scene refused 2\n"),
        (&[(6, 33)], "scene refused 4 33 8\n"),
        (&[(4, 3)], "scene refused 3 3\n"),
        // in version 2 the first vertex stands where the number of batches is
        (&[(4, 2)], "scene refused 8 5 4294967294\n"),
        (&[(14, 1), (15, 1)], "scene refused 8 0 257\n"),
        (&[(100, 4)], "scene refused 11 0 1\n"),
        (&[(104, 3)], "scene refused 12 0\n"),
        (
            &[(104, 3), (68, 1), (69, 0), (70, 0), (71, 1)],
            "scene refused 10 3\n",
        ),
        (&[(105, 33)], "scene refused 13 0\n"),
    ] {
        let bytes = changed(first_scene(alloc)?, changes);
        let ended = run_with(&rt, alloc, CULL, bytes)?;
        assert_ended(&ended, Status::Scene, "", note)?;
    }
    runs_end_by_their_input();
    Ok(())
}

#[test]
fn frames_before_a_report_fault_stand_whole(rt: HostRuntime) -> Result<(), Fail> {
    let alloc = rt.alloc();
    let mut input = BytesSource::new(two_frames(alloc)?, 4096, Vec::new(alloc));
    // the header, three pieces of frame 0, the line of frame 1, and then its verdicts
    let (report, notes) = (sink(alloc, LARGE, 6)?, sink(alloc, LARGE, NEVER)?);
    let ended = run_over(&rt, alloc, CULL, &mut input, report, notes, &OpenGate)?;
    let front = concat!(
        "msoc-report 1 32 8 2 2\n",
        "frame 0 pieces 2\n0 occluded\n1 occluded\nend 0 visible 0 occluded 2 outside 0\n",
        "frame 1 pieces 2\n",
    );
    assert_ended(&ended, Status::ReportFault, front, "report fault\n")?;
    cuts_leave_fronts();
    Ok(())
}
