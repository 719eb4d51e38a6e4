//! Pictures of the depths: the bound at each pixel, as a grey map.
ghost use Rattle.std.specs.Prelude.{◌≤◌};

use cull_base::{BytesSource, SureSink};
use culling::Status;
use demo_scene::demo_scene;
use depth_image::shades_fit;
use runs_for_tests::{
    LARGE, NEVER, PICTURE, assert_ended, assert_writes, run_over, run_with, sink,
    written_with_fault,
};
use scene_reader::write_scene;
use scenes_for_tests::{QUAD, TWO, changed, first_scene, scene, two_frames, wide_scene};
use std::alloc::{AllocError, Global};
use std::test::*;
use tile_queues::OpenGate;

// Of the quad at distance 2.
const HALF: &str = "32767\n";

const NONE: &str = "0\n";

// A picture of this size, in runs of lines that are the same: how many, and the line.
fn picture(alloc: Global, size: &str, runs: &[(usize, &str)]) -> Result<String, AllocError> {
    let mut text = String::from_str(alloc, "P2\n")?;
    text.push_str(size)?;
    text.push_str("\n65535\n")?;
    for (count, line) in runs {
        for _ in 0..*count {
            text.push_str(*line)?;
        }
    }
    Ok(text)
}

// A picture of rows that begin with so many zeros each; the others are those of the quad.
fn below_a_diagonal(
    alloc: Global,
    size: &str,
    width: usize,
    zeros: &[usize],
) -> Result<String, AllocError> {
    let mut runs = Vec::new(alloc);
    for count in zeros {
        runs.push((*count, NONE))?;
        runs.push((width.saturating_sub(*count), HALF))?;
    }
    picture(alloc, size, &runs)
}

#[test]
fn the_first_scene_has_one_number(rt: HostRuntime) -> Result<(), Fail> {
    let alloc = rt.alloc();
    let whole = picture(alloc, "32 8", &[(256, HALF)])?;
    assert_eq!(rt; whole.len(), 1550);
    assert_writes(&rt, alloc, PICTURE, first_scene(alloc)?, whole.as_str())
}

// Its bounds are 8388607 then, and 256 times 32767 is 8388352.
#[test]
fn its_wide_form_has_the_same_picture(rt: HostRuntime) -> Result<(), Fail> {
    let alloc = rt.alloc();
    let whole = picture(alloc, "32 8", &[(256, HALF)])?;
    assert_writes(&rt, alloc, PICTURE, wide_scene(alloc)?, whole.as_str())
}

#[test]
fn nothing_is_known_where_nothing_is_drawn(rt: HostRuntime) -> Result<(), Fail> {
    let alloc = rt.alloc();
    let empty = picture(alloc, "32 8", &[(256, NONE)])?;
    assert_eq!(rt; empty.len(), 526);
    let bytes = scene(alloc, &[], &[], &[])?;
    assert_writes(&rt, alloc, PICTURE, bytes, empty.as_str())
}

#[test]
fn a_frame_that_is_not_there_is_told(rt: HostRuntime) -> Result<(), Fail> {
    let alloc = rt.alloc();
    for (line, frames, note) in [
        ("maskcull picture --frame 1", 1, "no such frame 1 1\n"),
        ("maskcull picture --frame=255", 1, "no such frame 255 1\n"),
        ("maskcull picture --frame 2", 2, "no such frame 2 2\n"),
    ] {
        let bytes = if frames == 1 {
            first_scene(alloc)?
        } else {
            two_frames(alloc)?
        };
        let ended = run_with(&rt, alloc, line, bytes)?;
        assert_ended(&ended, Status::Frame, "", note)?;
        assert_eq!(rt; ended.status.code(), 10);
    }
    Ok(())
}

// The note can't be written, and the status tells it still.
#[test]
fn a_frame_that_is_not_there_and_a_note_that_fails(rt: HostRuntime) -> Result<(), Fail> {
    let alloc = rt.alloc();
    let mut input = BytesSource::new(first_scene(alloc)?, 7, Vec::new(alloc));
    let (report, notes) = (sink(alloc, LARGE, NEVER)?, sink(alloc, LARGE, 1)?);
    let line = "maskcull picture --frame 1";
    let ended = run_over(&rt, alloc, line, &mut input, report, notes, &OpenGate)?;
    assert_ended(&ended, Status::Frame, "", "")?;
    Ok(())
}

// A scene that is refused is told first, whatever the frame.
#[test]
fn a_refused_scene_is_told_before_a_missing_frame(rt: HostRuntime) -> Result<(), Fail> {
    let alloc = rt.alloc();
    let bytes = changed(first_scene(alloc)?, &[(100, 4)]);
    let ended = run_with(&rt, alloc, "maskcull picture --frame 9", bytes)?;
    assert_ended(&ended, Status::Scene, "", "scene refused 11 0 1\n")?;
    Ok(())
}

// From two further away the quad stands at distance 4, on the pixels 8 to 23 by 2 to 5.
#[test]
fn a_frame_is_seen_through_its_camera(rt: HostRuntime) -> Result<(), Fail> {
    let alloc = rt.alloc();
    let far = "16383\n";
    let second = [
        (72, NONE),
        (16, far),
        (16, NONE),
        (16, far),
        (16, NONE),
        (16, far),
        (16, NONE),
        (16, far),
        (72, NONE),
    ];
    for (line, runs) in [
        ("maskcull picture --frame 0", [(256, HALF)].as_slice()),
        ("maskcull picture --frame 1", second.as_slice()),
    ] {
        let shown = picture(alloc, "32 8", runs)?;
        assert_writes(&rt, alloc, line, two_frames(alloc)?, shown.as_str())?;
    }
    Ok(())
}

// The triangle's lower edge runs from corner to corner: it covers the pixels from 4y + 2 on. In the first subtile a
// working layer holds at some samples, and nothing is known at the others.
#[test]
fn a_working_layer_shows_at_its_own_samples(rt: HostRuntime) -> Result<(), Fail> {
    let alloc = rt.alloc();
    let below = below_a_diagonal(alloc, "32 8", 32, &[2, 6, 10, 14, 18, 22, 26, 30])?;
    assert_eq!(rt; below.as_bytes().get(14..20), Some(b"0\n0\n32".as_slice()));
    let bytes = scene(alloc, &QUAD, &TWO[..1], &[])?;
    assert_writes(&rt, alloc, PICTURE, bytes, below.as_str())
}

// Here it covers those above (20y + 7) / 6.
#[test]
fn a_screen_whose_last_tiles_are_cut(rt: HostRuntime) -> Result<(), Fail> {
    let alloc = rt.alloc();
    let zeros = [2, 5, 8, 12, 15, 18, 22, 25, 28, 32, 35, 38];
    let below = below_a_diagonal(alloc, "40 12", 40, &zeros)?;
    let bytes = changed(scene(alloc, &QUAD, &TWO[..1], &[])?, &[(6, 40), (8, 12)]);
    assert_writes(&rt, alloc, PICTURE, bytes, below.as_str())
}

// 205 bytes, written one by one.
#[test]
fn each_write_of_a_picture_that_fails_leaves_a_front(rt: HostRuntime) -> Result<(), Fail> {
    let alloc = rt.alloc();
    let whole = picture(alloc, "8 4", &[(32, HALF)])?;
    for call in 1..207 {
        let bytes = changed(first_scene(alloc)?, &[(6, 8), (8, 4)]);
        let ended = written_with_fault(&rt, alloc, PICTURE, bytes, 1, call)?;
        let (status, notes) = if call < 206 {
            (Status::ReportFault, "report fault\n")
        } else {
            (Status::Done, "")
        };
        let front = ended.report.as_str();
        assert_ended(&ended, status, front, notes)?;
        assert_eq!(rt; front.len() as u64, call - 1);
        assert!(rt; whole.as_str().starts_with(front));
    }
    Ok(())
}

// The bytes of the scene of `demo`, of so many triangles.
fn demo_bytes(alloc: Global, triangles: u32) -> Result<Vec<u8>, Fail>
    requires { triangles ≤ 65536 }
{
    let scene = demo_scene(alloc, 1, triangles)
        .ok()
        .ok_or("memory for a scene")?;
    let mut bytes = SureSink::new(alloc);
    write_scene(&scene, &mut bytes)
        .ok()
        .ok_or("memory for its bytes")?;
    Ok(Vec::from_slice(alloc, bytes.held())?)
}

#[test]
fn workers_bins_and_batches_change_no_picture(rt: HostRuntime) -> Result<(), Fail> {
    let alloc = rt.alloc();
    let line = "maskcull picture --frame 3";
    let first = run_with(&rt, alloc, line, demo_bytes(alloc, 300)?)?;
    assert_eq!(rt; first.status, Status::Done);
    for line in [
        "maskcull picture --frame 3 --workers 8",
        "maskcull picture --workers 8 --bins-x 8 --bins-y 8 --batch 1 --frame 3",
        "maskcull picture --bins-x 8 --bins-y=8 --batch=1 --frame=3",
    ] {
        assert_writes(
            &rt,
            alloc,
            line,
            demo_bytes(alloc, 300)?,
            first.report.as_str(),
        )?;
    }
    Ok(())
}

#[test]
fn the_law_on_shades_is_called(rt: HostRuntime) {
    shades_fit();
}
