//! Boxes that are taken in groups: their hulls, the same report, and the line of each frame.
ghost use Rattle.std.specs.Prelude.{◌≤◌};

use cull_base::{BytesSource, Rect, SureSink};
use culling::{Status, done_is_whole};
use demo_scene::demo_scene;
use group_query::{
    Group, Hull, boxes_stand_in_groups, groups, hidden_group_hides_members, hull,
    hull_touches_its_members,
};
use runs_for_tests::{CULL, Ended, LARGE, NEVER, assert_ended, run_over, run_with, sink};
use scene_reader::{Scene, write_scene};
use scenes_for_tests::{QUAD, TWO, scene_from, scene_of, seen_from};
use std::alloc::Global;
use std::process::Abort;
use std::sync::Wait;
use std::test::*;
use std::thread::Threads;
use tile_queues::OpenGate;

// At the rectangle (10, 2, 22, 6) with the nearness 21845: behind the quad.
const BEHIND: (u8, [i32; 6]) = (1, [-1, -1, 3, 1, 1, 6]);

// At the rectangle (8, 2, 25, 7) with the nearness 32768: before the quad.
const BEFORE: (u8, [i32; 6]) = (1, [-1, -1, 2, 1, 1, 2]);

// At the rectangle (24, 3, 41, 6) with the nearness 16384: in part beside the screen.
const ASIDE: (u8, [i32; 6]) = (1, [2, -1, 4, 6, 1, 4]);

// Behind the near plane, and beside the screen.
const NOWHERE: [(u8, [i32; 6]); 2] = [(1, [0, 0, -5, 1, 1, 0]), (1, [40, 0, 5, 41, 1, 6])];

// On both sides of the near plane.
const ASTRIDE: (u8, [i32; 6]) = (1, [0, 0, 0, 1, 1, 5]);

// The scene of these objects behind the quad.
fn behind_the_quad(alloc: Global, objects: &[(u8, [i32; 6])]) -> Result<Vec<u8>, Fail> {
    Ok(scene_of(alloc, &QUAD, &TWO, &[], objects)?)
}

// The hull of the first group, of at most so many boxes.
fn first_hull(alloc: Global, scene: &Scene, most: u32) -> Result<Option<Hull>, Fail>
    requires { 1 ≤ most }
{
    let list = groups(alloc, scene, most)?;
    let Some(group) = list.first() else {
        return Err(Fail::from("a group"));
    };
    let objects = scene.objects().len();
    let (first, count) = (group.first as usize, group.count as usize);
    if scene.cameras().is_empty() || first > objects || count > objects - first {
        return Err(Fail::from("a group of the scene's first frame"));
    }
    Ok(hull(scene, 0, *group))
}

fn pixels(x0: i32, y0: i32, x1: i32, y1: i32) -> Rect {
    Rect { x0, y0, x1, y1 }
}

// The first group of two of some boxes behind the quad has this hull.
fn assert_hull<R: Abort>(
    rt: &R,
    alloc: Global,
    boxes: &[(u8, [i32; 6])],
    rect: Rect,
    q: u32,
    members: u32,
) -> Result<(), Fail> {
    let scene = scene_from(alloc, behind_the_quad(alloc, boxes)?)?;
    assert_eq!(rt;
        first_hull(alloc, &scene, 2)?,
        Some(Hull { rect, q, members })
    );
    Ok(())
}

#[test]
fn a_hull_is_around_the_members_that_count(rt: HostRuntime) -> Result<(), Fail> {
    let alloc = rt.alloc();
    assert_hull(
        &rt,
        alloc,
        &[BEHIND, BEHIND],
        pixels(10, 2, 22, 6),
        21845,
        2,
    )?;
    assert_hull(&rt, alloc, &[BEHIND, BEFORE], pixels(8, 2, 25, 7), 32768, 2)?;
    assert_hull(&rt, alloc, &[BEFORE, BEHIND], pixels(8, 2, 25, 7), 32768, 2)?;
    assert_hull(
        &rt,
        alloc,
        &[ASTRIDE, BEHIND],
        pixels(10, 2, 22, 6),
        21845,
        1,
    )?;
    assert_hull(&rt, alloc, &[BEHIND, ASIDE], pixels(10, 2, 32, 6), 21845, 2)
}

#[test]
fn no_hull_is_around_members_that_do_not_count(rt: HostRuntime) -> Result<(), Fail> {
    let alloc = rt.alloc();
    let scene = scene_from(alloc, behind_the_quad(alloc, &NOWHERE)?)?;
    assert!(rt; first_hull(alloc, &scene, 2)?.is_none());
    hull_touches_its_members();
    hidden_group_hides_members();
    Ok(())
}

#[test]
fn groups_end_with_their_run_of_boxes(rt: HostRuntime) -> Result<(), Fail> {
    let alloc = rt.alloc();
    let objects = [BEHIND, (0, [0, 0, 32, 8, 3, 0]), BEHIND, BEHIND, BEHIND];
    let scene = scene_from(alloc, behind_the_quad(alloc, &objects)?)?;
    let list = groups(alloc, &scene, 2)?;
    let wanted = [
        Group { first: 0, count: 1 },
        Group { first: 2, count: 2 },
        Group { first: 4, count: 1 },
    ];
    assert!(rt; list.as_slice() == wanted.as_slice());
    boxes_stand_in_groups();
    Ok(())
}

// What comes of a scene that is culled with boxes in groups of at most so many, and without.
fn assert_noted<R: Threads + Wait + Sync + Abort>(
    rt: &R,
    alloc: Global,
    bytes: &[u8],
    most: u32,
    notes: &str,
) -> Result<(), Fail> {
    let plain = run_with(rt, alloc, CULL, Vec::from_slice(alloc, bytes)?)?;
    assert_ended(&plain, Status::Done, plain.report.as_str(), "")?;
    let shared = " --steal --workers 3 --bins-x 2";
    for more in ["", " --early", " --workers 3 --bins-x 2", shared] {
        let line = format!(in alloc; "maskcull cull --group {most}{more}")?;
        let ended = run_with(rt, alloc, line.as_str(), Vec::from_slice(alloc, bytes)?)?;
        assert_ended(&ended, Status::Done, plain.report.as_str(), notes)?;
    }
    Ok(())
}

// It settles both boxes; members of a group that isn't hidden are tested.
#[test]
fn a_hidden_hull_settles_its_members(rt: HostRuntime) -> Result<(), Fail> {
    let alloc = rt.alloc();
    for (other, verdict, counts, hidden) in [
        (
            BEHIND,
            "occluded",
            "visible 0 occluded 2",
            "hidden 1 members 2",
        ),
        (
            BEFORE,
            "visible",
            "visible 1 occluded 1",
            "hidden 0 members 0",
        ),
    ] {
        let bytes = behind_the_quad(alloc, &[BEHIND, other])?;
        let notes = format!(in alloc; "groups 0 count 1 {hidden}\n")?;
        assert_noted(&rt, alloc, &bytes, 2, notes.as_str())?;
        let ended = run_with(&rt, alloc, "maskcull cull --group=2", bytes)?;
        let report = format!(in alloc;
            "msoc-report 1 32 8 1 2\nframe 0 pieces 2\n0 occluded\n1 {verdict}\nend 0 {counts} outside 0\n"
        )?;
        let (report, notes) = (report.as_str(), notes.as_str());
        assert_ended(&ended, Status::Done, report, notes)?;
    }
    Ok(())
}

#[test]
fn members_that_do_not_count_are_no_part_of_it(rt: HostRuntime) -> Result<(), Fail> {
    let alloc = rt.alloc();
    for (objects, most, notes) in [
        (
            NOWHERE.as_slice(),
            2,
            "groups 0 count 1 hidden 0 members 0\n",
        ),
        (&[], 2, "groups 0 count 0 hidden 0 members 0\n"),
        (
            &[ASTRIDE, BEHIND],
            2,
            "groups 0 count 1 hidden 1 members 1\n",
        ),
        (
            &[BEHIND, BEHIND, ASTRIDE, BEHIND],
            2,
            "groups 0 count 2 hidden 2 members 3\n",
        ),
        (
            &[NOWHERE[0], BEHIND, NOWHERE[1]],
            64,
            "groups 0 count 1 hidden 1 members 1\n",
        ),
        (
            &[BEHIND, BEHIND, BEFORE],
            1,
            "groups 0 count 3 hidden 2 members 2\n",
        ),
        (
            &[BEHIND, (0, [0, 0, 32, 8, 3, 0]), BEHIND, BEHIND, BEHIND],
            2,
            "groups 0 count 3 hidden 3 members 4\n",
        ),
    ] {
        let bytes = behind_the_quad(alloc, objects)?;
        assert_noted(&rt, alloc, &bytes, most, notes)?;
    }
    Ok(())
}

// The scene of `demo` with boxes in groups of at most so many has the report that it has without, and these notes.
fn assert_groups_of_demo<R: Threads + Wait + Sync>(
    rt: &R,
    alloc: Global,
    most: u32,
    notes: &str,
) -> Result<(), Fail> {
    let mut bytes = SureSink::new(alloc);
    write_scene(&demo_scene(alloc, 1, 20000)?, &mut bytes)?;
    let plain = run_with(rt, alloc, CULL, Vec::from_slice(alloc, bytes.held())?)?;
    for workers in [1u32, 2, 8] {
        let line = format!(in alloc; "maskcull cull --group {most} --workers {workers}")?;
        let ended = run_with(
            rt,
            alloc,
            line.as_str(),
            Vec::from_slice(alloc, bytes.held())?,
        )?;
        assert_ended(&ended, Status::Done, plain.report.as_str(), notes)?;
    }
    Ok(())
}

#[test]
fn groups_of_sixteen_over_the_scene_of_demo(rt: HostRuntime) -> Result<(), Fail> {
    let notes = concat!(
        "groups 0 count 32 hidden 0 members 0\ngroups 1 count 32 hidden 0 members 0\n",
        "groups 2 count 32 hidden 0 members 0\ngroups 3 count 32 hidden 0 members 0\n",
    );
    assert_groups_of_demo(&rt, rt.alloc(), 16, notes)
}

#[test]
fn groups_of_two_over_the_scene_of_demo(rt: HostRuntime) -> Result<(), Fail> {
    let notes = concat!(
        "groups 0 count 250 hidden 79 members 108\ngroups 1 count 250 hidden 92 members 138\n",
        "groups 2 count 250 hidden 68 members 86\ngroups 3 count 250 hidden 95 members 133\n",
    );
    assert_groups_of_demo(&rt, rt.alloc(), 2, notes)
}

// Two frames of two boxes behind the quad, culled in groups of two, with sinks of which a write fails.
fn faulty<R: Threads + Wait + Sync>(
    rt: &R,
    alloc: Global,
    report: u64,
    notes: u64,
) -> Result<Ended, Fail> {
    let bytes = seen_from(behind_the_quad(alloc, &[BEHIND, BEHIND])?, 2, 2)?;
    let mut input = BytesSource::new(bytes, 4096, Vec::new(alloc));
    let (report, notes) = (sink(alloc, LARGE, report)?, sink(alloc, LARGE, notes)?);
    run_over(
        rt,
        alloc,
        "maskcull cull --group 2",
        &mut input,
        report,
        notes,
        &OpenGate,
    )
}

// The writes of the report are its header, and of each frame a line, the verdicts and a line.
#[test]
fn group_lines_that_fail_leave_the_report_up_to_their_frame(rt: HostRuntime) -> Result<(), Fail> {
    let alloc = rt.alloc();
    let whole = faulty(&rt, alloc, NEVER, NEVER)?;
    let lines = "groups 0 count 1 hidden 1 members 2\ngroups 1 count 1 hidden 1 members 2\n";
    assert_ended(&whole, Status::Done, whole.report.as_str(), lines)?;
    let first = concat!(
        "msoc-report 1 32 8 2 2\nframe 0 pieces 2\n0 occluded\n1 occluded\n",
        "end 0 visible 0 occluded 2 outside 0\n",
    );
    assert!(rt; whole.report.as_str().starts_with(first));
    let none = faulty(&rt, alloc, NEVER, 1)?;
    assert_ended(&none, Status::NotesFault, first, "")?;
    let one = faulty(&rt, alloc, NEVER, 2)?;
    let line = "groups 0 count 1 hidden 1 members 2\n";
    assert_ended(&one, Status::NotesFault, whole.report.as_str(), line)?;
    done_is_whole();
    Ok(())
}

#[test]
fn the_note_of_a_report_that_fails_follows_group_lines(rt: HostRuntime) -> Result<(), Fail> {
    let alloc = rt.alloc();
    let ended = faulty(&rt, alloc, 5, NEVER)?;
    let first = concat!(
        "msoc-report 1 32 8 2 2\nframe 0 pieces 2\n0 occluded\n1 occluded\n",
        "end 0 visible 0 occluded 2 outside 0\n",
    );
    let notes = "groups 0 count 1 hidden 1 members 2\nreport fault\n";
    assert_ended(&ended, Status::ReportFault, first, notes)?;
    Ok(())
}
