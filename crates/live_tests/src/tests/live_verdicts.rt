//! Lines of `live`, read back: each verdict is that of the tiles after the members that the line states.
ghost use Rattle.std.specs.Prelude.{◌≡◌, ◌<◌, length, IfOk};
ghost use Rattle.cull_base.specs.Screen.{tile_count_of};
ghost use Rattle.cull_report.specs.Scene.{size_of, frame_clips};

use cull_base::{ClipVertex, FrameList, Verdict};
use cull_report::{pieces_of, verdicts};
use culling::Status;
use masked_update::{PlainView, TileState};
use runs_for_tests::run_gated;
use scene_reader::Scene;
use scenes_for_tests::{changed, clips_of, scene_from, scene_of, seen_from};
use std::alloc::{AllocError, Global};
use std::str;
use std::sync::Wait;
use std::sync::atomic::{AtomicU32, Ordering};
use std::test::*;
use std::thread::Threads;
use tile_queues::Gate;

// A tile, and how many members of its list.
type Front = (u32, u32);

// What a line tells.
#[derive(Drop)]
struct Told {
    frame: u32,
    object: u32,
    verdict: Verdict,
    fronts: Vec<Front>,
}

fn read_number(word: Option<&str>) -> Result<u32, Fail> {
    match word {
        Some(word) => Ok(word.parse::<u32>().map_err(|_| Fail::from("digits"))?),
        None => Err(Fail::from("a number")),
    }
}

fn read_verdict(word: Option<&str>) -> Result<Verdict, Fail> {
    match word {
        Some("visible") => Ok(Verdict::Visible),
        Some("occluded") => Ok(Verdict::Occluded),
        Some("outside") => Ok(Verdict::Outside),
        _ => Err(Fail::from("a verdict")),
    }
}

fn read_front(field: &str) -> Result<Front, Fail> {
    match field.split_once(':') {
        Some((tile, count)) => Ok((read_number(Some(tile))?, read_number(Some(count))?)),
        None => Err(Fail::from("a tile")),
    }
}

fn read_line(alloc: Global, line: &str) -> Result<Told, Fail> {
    let mut fields = line.split_whitespace();
    if fields.next() != Some("live") {
        return Err(Fail::from("a live line"));
    }
    let frame = read_number(fields.next())?;
    read_number(fields.next())?;
    let object = read_number(fields.next())?;
    let verdict = read_verdict(fields.next())?;
    let mut fronts = Vec::new(alloc);
    for field in fields {
        fronts.push(read_front(field)?)?;
    }
    Ok(Told {
        frame,
        object,
        verdict,
        fronts,
    })
}

// A tile after so many members of its list, or after all if these are fewer. Condition: the tile is below the tile
// count.
fn after_first(list: &FrameList, tile: u32, count: u32) -> TileState
    requires { tile < tile_count_of list.now.list.size }
{
    let size = list.size();
    let rect = size.tile_rect(tile);
    let mut state = TileState::empty();
    for index in 0..list.len() {
        let piece = list.get(index);
        if state.count() < count.min(131_072) && piece.boxed().meets(&rect) {
            state.take(piece, size, tile);
        }
    }
    state
}

// Each tile after the members that are stated of it, and empty where none are.
fn states_after(alloc: Global, list: &FrameList, fronts: &[Front]) -> Result<Vec<TileState>, Fail>
    ensures { IfOk result (λ v. length v.items ≡ tile_count_of list.now.list.size) }
{
    let tiles = list.size().tile_count();
    let mut states = vec![in alloc; TileState::empty(); tiles as usize]?;
    for front in fronts {
        let (tile, count) = *front;
        if tile >= tiles {
            return Err(Fail::from("a tile of the screen"));
        }
        let state = after_first(list, tile, count);
        if state.count() != count {
            return Err(Fail::from("members of the tile's list"));
        }
        states[tile as usize] = state;
    }
    Ok(states)
}

// Each object's verdict in a frame over the tiles. Conditions: there is such a frame, the clip vertices are the
// frame's, and each tile has a state.
fn verdicts_over(
    alloc: Global,
    scene: &Scene,
    frame: u32,
    clips: &[ClipVertex],
    states: &[TileState],
) -> Result<Vec<Verdict>, Fail>
    requires frame { frame < length scene.now.cameras }
    requires clips { clips.now ≡ frame_clips scene.now frame }
    requires tiles { length states.now ≡ tile_count_of (size_of scene.now) }
{
    let settled = vec![in alloc; false; scene.objects().len()]?;
    let view = PlainView::new(states);
    Ok(verdicts(alloc, scene, frame, clips, &view, &settled)?)
}

// An object's verdict in a frame, over the tiles after the stated members. Condition: there is such a frame.
fn verdict_after<R: Threads + Wait + Sync>(
    rt: &R,
    alloc: Global,
    scene: &Scene,
    frame: u32,
    object: u32,
    fronts: &[Front],
) -> Result<Verdict, Fail>
    requires { frame < length scene.now.cameras }
{
    let clips = clips_of(rt, alloc, scene, frame)?;
    let list = pieces_of(rt, alloc, scene, frame, &clips, 1)?;
    let states = states_after(alloc, &list, fronts)?;
    let verdicts = verdicts_over(alloc, scene, frame, &clips, &states)?;
    match verdicts.get(object as usize) {
        Some(verdict) => Ok(*verdict),
        None => Err(Fail::from("an object of the scene")),
    }
}

// How many lines there are, of which each has the verdict of the tiles after the members that it states.
fn count_right<R: Threads + Wait + Sync>(
    rt: &R,
    alloc: Global,
    scene: &Scene,
    notes: &str,
) -> Result<u32, Fail> {
    let mut right = 0u32;
    for line in notes.lines() {
        let told = read_line(alloc, line)?;
        if told.frame as usize >= scene.cameras().len() {
            return Err(Fail::from("a frame of the scene"));
        }
        let verdict = verdict_after(rt, alloc, scene, told.frame, told.object, &told.fronts)?;
        if verdict != told.verdict {
            return Err(Fail::from("another verdict than the stated members give"));
        }
        right = right.saturating_add(1);
    }
    Ok(right)
}

// Two frames of a rectangle, a box and a mesh behind a half of the screen, the whole and the other half, the nearest
// last.
fn wide_scene(alloc: Global) -> Result<Vec<u8>, AllocError> {
    let vertices = [
        [-4, 4, 4],
        [0, 4, 4],
        [0, -4, 4],
        [-4, -4, 4],
        [-2, 2, 2],
        [2, 2, 2],
        [2, -2, 2],
        [-2, -2, 2],
        [0, 1, 1],
        [1, 1, 1],
        [1, -1, 1],
        [-3, 3, 3],
        [3, 3, 3],
        [3, -3, 3],
    ];
    let triangles = [[0, 1, 2], [0, 2, 3], [4, 5, 6], [4, 6, 7], [8, 9, 10]];
    let objects = [
        (0, [0, 0, 32, 16, 5, 0]),
        (1, [-1, -1, 3, 1, 1, 6]),
        (2, [0, 1, 0, 0, 0, 0]),
    ];
    let bytes = scene_of(alloc, &vertices, &triangles, &[[11, 12, 13]], &objects)?;
    seen_from(changed(bytes, &[(6, 64), (8, 16)]), 2, 2)
}

// Keeps drawing and looking in step, so that tiles are looked at between members: each waits a while for the other.
#[derive(Drop)]
struct InStep {
    members: AtomicU32,
    looks: AtomicU32,
}

// Waits until a counter is above a number, for so many turns at most.
fn wait_past(counter: &AtomicU32, number: u32) {
    for _ in 0..10_000_000u32 {
        if number < counter.load(Ordering::SeqCst) {
            return;
        }
    }
}

impl Gate for InStep {
    fn before(&self, _bin: u32, _taken: u32) {
        let number = self.members.fetch_add(1, Ordering::SeqCst);
        wait_past(&self.looks, number);
    }

    fn looks(&self, _round: u32, _object: u32) {
        let number = self.looks.load(Ordering::SeqCst);
        wait_past(&self.members, number);
        self.looks.fetch_add(1, Ordering::SeqCst);
    }
}

#[test]
fn each_verdict_is_that_of_the_stated_members(rt: HostRuntime) -> Result<(), Fail> {
    let alloc = rt.alloc();
    let bytes = wide_scene(alloc)?;
    let scene = scene_from(alloc, bytes.clone()?)?;
    let gate = InStep {
        members: AtomicU32::new(0),
        looks: AtomicU32::new(0),
    };
    let line = "maskcull live --rounds 3 --watch 3 --workers 2 --bins-x 2 --batch 1";
    let ended = run_gated(&rt, alloc, line, bytes, &gate)?;
    assert_eq!(rt; ended.status, Status::Done);
    assert_eq!(rt; count_right(&rt, alloc, &scene, ended.notes.as_str())?, 18);
    Ok(())
}
