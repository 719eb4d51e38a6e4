//! A run whose gate counts what it is asked: each bin draws each piece that meets it, once in each frame.
ghost use Rattle.std.specs.Prelude.{◌<◌, length};

use crate::tests::demo::MANY_TRIANGLES;
use binning::{Cut, bin_batch};
use cull_report::pieces_of;
use culling::Status;
use demo_scene::demo_scene;
use runs_for_tests::{assert_ended, run_gated};
use scene_reader::Scene;
use scenes_for_tests::clips_of;
use std::alloc::{AllocError, Global};
use std::process::Abort;
use std::sync::Wait;
use std::sync::atomic::{AtomicBool, AtomicU32, Ordering};
use std::test::*;
use std::thread::Threads;
use tile_queues::Gate;

// Counts the calls before a piece is drawn, by bin and by how many pieces the bin has drawn.
#[derive(Drop)]
struct CountingGate {
    calls: Vec<Vec<AtomicU32>>,
    beyond: AtomicBool,
}

impl CountingGate {
    fn count(&self, bin: usize, taken: usize) -> Option<&AtomicU32> {
        self.calls.get(bin)?.get(taken)
    }
}

impl Gate for CountingGate {
    fn before(&self, bin: u32, taken: u32) {
        match self.count(bin as usize, taken as usize) {
            Some(count) => {
                count.fetch_add(1, Ordering::SeqCst);
            }
            None => self.beyond.store(true, Ordering::SeqCst),
        }
    }
}

// So many counts, each 0.
fn counts(alloc: Global, most: usize) -> Result<Vec<AtomicU32>, AllocError> {
    let mut counts = Vec::new(alloc);
    for _ in 0..most {
        counts.push(AtomicU32::new(0))?;
    }
    Ok(counts)
}

// For so many bins, and so many pieces of each.
fn gate_for(alloc: Global, bins: usize, most: usize) -> Result<CountingGate, AllocError> {
    let mut calls = Vec::new(alloc);
    for _ in 0..bins {
        calls.push(counts(alloc, most)?)?;
    }
    Ok(CountingGate {
        calls,
        beyond: AtomicBool::new(false),
    })
}

// How many pieces of a frame meet each bin.
fn numbers_of<R: Threads + Wait + Sync>(
    rt: &R,
    alloc: Global,
    scene: &Scene,
    frame: u32,
    cut: &Cut,
) -> Result<Vec<usize>, Fail>
    requires { frame < length scene.now.cameras }
{
    let clips = clips_of(rt, alloc, scene, frame)?;
    let list = pieces_of(rt, alloc, scene, frame, &clips, 1)?;
    let mut numbers = Vec::new(alloc);
    for part in bin_batch(alloc, &list, 0, 0, list.len(), cut)? {
        numbers.push(part.indices().len())?;
    }
    Ok(numbers)
}

// The same for each frame of the scene of seed 1.
fn numbers_of_frames<R: Threads + Wait + Sync>(
    rt: &R,
    alloc: Global,
    cut: &Cut,
) -> Result<Vec<Vec<usize>>, Fail> {
    let scene = demo_scene(alloc, 1, 20_000)?;
    let mut frames = Vec::new(alloc);
    for frame in 0..scene.cameras().len() as u32 {
        frames.push(numbers_of(rt, alloc, &scene, frame, cut)?)?;
    }
    Ok(frames)
}

// The greatest of these numbers.
fn most_of(frames: &[Vec<usize>]) -> usize {
    let mut most = 0;
    for numbers in frames {
        for number in numbers {
            most = most.max(*number);
        }
    }
    most
}

// In how many frames above so many pieces meet a bin.
fn frames_above(frames: &[Vec<usize>], bin: usize, taken: usize) -> u32 {
    let mut count = 0u32;
    for numbers in frames {
        if numbers.get(bin).copied().unwrap_or(0) > taken {
            count = count.saturating_add(1);
        }
    }
    count
}

// Whether each count of a bin is the number of frames in which the bin draws so many pieces and one more.
fn are_counted(counts: &[AtomicU32], frames: &[Vec<usize>], bin: usize) -> bool {
    for taken in 0..counts.len() {
        if counts[taken].load(Ordering::SeqCst) != frames_above(frames, bin, taken) {
            return false;
        }
    }
    true
}

// Each bin of a cut draws each piece that meets it, once in each frame, and the summary is that of one worker in one bin.
fn assert_counted<R: Threads + Wait + Sync + Abort>(
    rt: &R,
    alloc: Global,
    line: &str,
) -> Result<(), Fail> {
    let cut = Cut::new(4, 4).ok_or("a cut")?;
    let frames = numbers_of_frames(rt, alloc, &cut)?;
    let gate = gate_for(alloc, 16, most_of(&frames))?;
    let ended = run_gated(rt, alloc, line, Vec::new(alloc), &gate)?;
    assert_eq!(rt; frames.len(), 4);
    assert!(rt; !gate.beyond.load(Ordering::SeqCst));
    for bin in 0..gate.calls.len() {
        assert!(rt; are_counted(&gate.calls[bin], &frames, bin));
    }
    assert_ended(&ended, Status::Done, MANY_TRIANGLES, "")
}

#[test]
fn counting_run(rt: HostRuntime) -> Result<(), Fail> {
    let line = "maskcull demo --seed 1 --triangles 20000 --workers 8 --bins-x 4 --bins-y 4";
    assert_counted(&rt, rt.alloc(), line)
}

#[test]
fn counting_run_through_cells(rt: HostRuntime) -> Result<(), Fail> {
    let line = "maskcull demo --early --seed 1 --triangles 20000 --workers 8 --bins-x 4 --bins-y 4";
    assert_counted(&rt, rt.alloc(), line)
}

#[test]
fn counting_run_with_stolen_tasks(rt: HostRuntime) -> Result<(), Fail> {
    let line = "maskcull demo --steal --seed 1 --triangles 20000 --workers 8 --bins-x 4 --bins-y 4";
    assert_counted(&rt, rt.alloc(), line)
}

#[test]
fn counting_run_with_stolen_tasks_while_objects_are_settled(rt: HostRuntime) -> Result<(), Fail> {
    let line =
        "maskcull demo --early --steal --seed 1 --triangles 20000 --workers 8 --bins-x 4 --bins-y 4";
    assert_counted(&rt, rt.alloc(), line)
}
