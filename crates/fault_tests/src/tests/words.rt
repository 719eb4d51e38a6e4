//! The command line: which is refused, and that settings change no byte of the report.
use cull_base::{BytesSource, Source};
use culling::Status;
use runs_for_tests::{LARGE, NEVER, assert_ended, assert_writes, run_over, sink};
use scenes_for_tests::{OCCLUDED, first_scene};
use std::alloc::Global;
use std::process::Abort;
use std::sync::Wait;
use std::test::*;
use std::thread::Threads;
use tile_queues::OpenGate;

// The command line is refused: a note tells it, nothing is read and nothing written.
fn refused<R: Threads + Wait + Sync + Abort>(
    rt: &R,
    alloc: Global,
    line: &str,
) -> Result<String, Fail> {
    let fails = Vec::from_slice(alloc, &[1])?;
    let mut input = BytesSource::new(first_scene(alloc)?, 7, fails);
    let (report, notes) = (sink(alloc, LARGE, NEVER)?, sink(alloc, LARGE, NEVER)?);
    let ended = run_over(rt, alloc, line, &mut input, report, notes, &OpenGate)?;
    assert_ended(&ended, Status::Usage, "", ended.notes.as_str())?;
    assert!(rt; ended.notes.starts_with("usage refused\n"));
    // the input's first call fails, and it is still to come
    assert!(rt; input.read(&mut [0]).is_err());
    Ok(ended.notes)
}

// Command lines that name no command, or more than it takes.
const REFUSED: [&str; 40] = [
    "",
    "maskcull",
    "maskcull draw",
    "maskcull live x",
    "maskcull cull x",
    "maskcull cull --version",
    "maskcull --early cull",
    "maskcull cull --early 1",
    "maskcull cull --steal 1",
    "maskcull picture --steal",
    "maskcull cull --seed 1",
    "maskcull --workers 1 cull",
    "maskcull cull --workers",
    "maskcull cull --workers=1 --workers=1",
    "maskcull demo --triangles 65537",
    "maskcull demo --seed=4294967296",
    "maskcull demo --watch 1",
    "maskcull cull --rounds 2",
    "maskcull live --seed 1",
    "maskcull live --rounds 0",
    "maskcull live --rounds 9",
    "maskcull live --watch 0",
    "maskcull live --watch=9",
    "maskcull cull --workers 0",
    "maskcull cull --workers 65",
    "maskcull cull --bins-x 9",
    "maskcull cull --bins-y 0",
    "maskcull cull --batch 4097",
    "maskcull cull --batch ",
    "maskcull cull --group",
    "maskcull cull --group 0",
    "maskcull cull --group 65",
    "maskcull demo --group 2",
    "maskcull live --group 2",
    "maskcull upgrade --workers 2",
    "maskcull upgrade --early",
    "maskcull picture --early",
    "maskcull picture --frame 256",
    "maskcull picture --frame -1",
    "maskcull cull --frame 0",
];

#[test]
fn words_that_are_no_command_are_refused(rt: HostRuntime) -> Result<(), Fail> {
    let alloc = rt.alloc();
    for line in REFUSED {
        let _ = refused(&rt, alloc, line)?;
    }
    Ok(())
}

// Texts of the notes of refused command lines.
const WHY: [(&str, &str); 3] = [
    (
        "maskcull cull --early --early",
        "the argument '--early' cannot be used multiple times",
    ),
    (
        "maskcull demo --steal --seed 1 --steal",
        "the argument '--steal' cannot be used multiple times",
    ),
    (
        "maskcull live --early=1 --rounds=2",
        "unexpected value '1' for '--early' found; no more were expected",
    ),
];

const HELP: [(&str, &str); 24] = [
    ("maskcull --help", "cull"),
    ("maskcull --help", "live"),
    ("maskcull --help", "demo"),
    ("maskcull --help", "upgrade"),
    ("maskcull --help", "--version"),
    ("maskcull --help", "6  the notes couldn't be written"),
    ("maskcull --help", "7  out of memory"),
    ("maskcull cull --help", "--workers <workers>"),
    ("maskcull cull --help", "[default: 64]"),
    ("maskcull cull --help", "--early"),
    ("maskcull cull --help", "--steal"),
    ("maskcull cull --help", "3  the input is no scene"),
    ("maskcull live --help", "--rounds <rounds>"),
    ("maskcull live --help", "--watch <watch>"),
    ("maskcull live --help", "--early"),
    ("maskcull live --help", "--steal"),
    ("maskcull live --help", "TILE:COUNT"),
    ("maskcull live --help", "6  the notes couldn't be written"),
    (
        "maskcull upgrade --help",
        "To make it wide set byte 13 to 1.",
    ),
    ("maskcull demo --help", "--triangles <triangles>"),
    ("maskcull demo --help", "[default: 20000]"),
    ("maskcull demo --help", "--early"),
    ("maskcull demo --help", "--steal"),
    (
        "maskcull demo --help",
        "2  the command line was refused, or help was printed",
    ),
];

// The notes of each of these command lines, which is refused, contain its text.
fn assert_told<R: Threads + Wait + Sync + Abort>(
    rt: &R,
    alloc: Global,
    told: &[(&str, &str)],
) -> Result<(), Fail> {
    for (line, wanted) in told {
        let notes = refused(rt, alloc, *line)?;
        let wanted = *wanted;
        assert!(rt; notes.contains(wanted), "no {wanted}");
    }
    Ok(())
}

#[test]
fn a_refusal_tells_why(rt: HostRuntime) -> Result<(), Fail> {
    assert_told(&rt, rt.alloc(), &WHY)
}

#[test]
fn help_tells_all(rt: HostRuntime) -> Result<(), Fail> {
    assert_told(&rt, rt.alloc(), &HELP)
}

#[test]
fn the_version_is_told(rt: HostRuntime) -> Result<(), Fail> {
    for line in ["maskcull --version", "maskcull -V"] {
        let notes = refused(&rt, rt.alloc(), line)?;
        assert_eq!(rt; notes.as_str(), "usage refused\nmaskcull 0.1.0\n");
    }
    Ok(())
}

// One bin has the tile; of sixty-four all others have none. Nor do some options alone, or large batches.
#[test]
fn settings_change_no_byte(rt: HostRuntime) -> Result<(), Fail> {
    let alloc = rt.alloc();
    for workers in [1u32, 7, 64] {
        for bins in [1u32, 8] {
            let line = format!(in alloc;
                "maskcull cull --workers {workers} --bins-x {bins} --bins-y {bins} --batch 1"
            )?;
            assert_writes(&rt, alloc, line.as_str(), first_scene(alloc)?, OCCLUDED)?;
        }
    }
    for line in [
        "maskcull cull --workers=64",
        "maskcull cull --batch 1 --bins-y=8 --workers 2",
        "maskcull cull --workers 64 --bins-x 8 --bins-y 8 --batch 4096",
    ] {
        assert_writes(&rt, alloc, line, first_scene(alloc)?, OCCLUDED)?;
    }
    Ok(())
}
