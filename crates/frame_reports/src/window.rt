//! Frames side by side, in windows: how many there are, and what is written of each.
ghost use Rattle.std.specs.Prelude.{◌≡◌, ◌≤◌, ◌+◌, ◌*◌, [], length, IfOk, IfSome, OnOk};
ghost use Rattle.frame_reports.specs.FrameRuns.{LeavesFrames};
ghost use Rattle.frame_reports.specs.declared.frames.Beside.TheVariants.{Nothing};
ghost use Rattle.command_words.specs.Words.{AreInRange};
ghost use Rattle.frame_reports.specs.Windows.{AreDrawnFrom, AreUnseen, HasPlaces, HavePlaces, IsDrawn, IsUnseen};

use crate::drawing::{Drawing, Plan};
use crate::failure::Failure;
use crate::frame_pool::{Room, Window, make_window};
use crate::frames::{Asking, Beside, Frame, FrameLines};
use crate::noting::write_and_note;
use binning::Cut;
use command_words::Settings;
use cull_base::{ClipVertex, Memory, Sink};
use scene_reader::Scene;
use std::alloc::Global;
use std::sync::Wait;
use std::thread::Threads;
use tile_queues::{BinTable, Gate};

/// A window has at most so many frames for each worker. Whoever is done with one takes the next, and waits when none is
/// left: so the fewer windows there are, the less workers wait, and the less often threads are started.
const DEPTH: u32 = 16;

/// In bytes, at most what the frames of a window take together.
const MOST: u64 = 0x4000_0000;

// In bytes, at least what a frame takes for each: a clip vertex, and what it is on the screen; the two pieces of a
// triangle; a tile with its number in the table of least references; a verdict with its mark and its line; and for all
// that doesn't grow with the scene.
const VERTEX: u64 = 40;

const TRIANGLE: u64 = 72;

const TILE: u64 = 128;

const OBJECT: u64 = 64;

const REST: u64 = 0x10_0000;

// In bytes, what a frame of a scene takes at most.
fn frame_size(scene: &Scene) -> u64 {
    let vertices = VERTEX.saturating_mul(scene.vertices().len() as u64);
    let triangles = TRIANGLE.saturating_mul(scene.occluders().len() as u64);
    let tiles = TILE.saturating_mul(u64::from(scene.size().tile_count()));
    let objects = OBJECT.saturating_mul(scene.objects().len() as u64);
    vertices
        .saturating_add(triangles)
        .saturating_add(tiles)
        .saturating_add(objects)
        .saturating_add(REST)
}

// In bytes, what a worker takes at most while it makes so many frames: a frame, and the lines of all.
fn worker_size(scene: &Scene, count: u32) -> u64 {
    let lines = OBJECT.saturating_mul(scene.objects().len() as u64);
    frame_size(scene).saturating_add(lines.saturating_mul(u64::from(count)))
}

// How many frames there are for each worker in all windows. None where a worker is alone, where objects are settled
// while a frame is drawn, where workers take bins from each other, and where a frame for each worker would take too
// much memory.
fn unseen_rounds(settings: &Settings, scene: &Scene) -> u32
    ensures { result * settings.now.workers ≤ length scene.now.cameras }
{
    let workers = settings.workers;
    if workers < 2 || settings.early || settings.steal {
        return 0;
    }
    if frame_size(scene).saturating_mul(u64::from(workers)) > MOST {
        return 0;
    }
    scene.cameras().len() as u32 / workers
}

/// The same; and none where frames are looked at while they are drawn.
pub fn round_count(plan: &Plan, scene: &Scene) -> u32
    ensures within { result * plan.now.settings.now.workers ≤ length scene.now.cameras }
    ensures unseen { AreUnseen plan.now.beside result }
{
    match plan.beside {
        Beside::Looks { .. } => 0,
        Beside::Groups { .. } => unseen_rounds(plan.settings, scene),
        Beside::Nothing => unseen_rounds(plan.settings, scene),
    }
}

// A window has at most so many frames for each worker, so that what is kept of them until it is written isn't too much.
fn depth_for(scene: &Scene, workers: u32) -> u32
    ensures some { 1 ≤ result }
    ensures few { result ≤ 16 }
{
    let share = MOST / u64::from(workers.max(1));
    let left = share.saturating_sub(frame_size(scene));
    let kept = OBJECT.saturating_mul(scene.objects().len() as u64).max(1);
    (left / kept).saturating_add(1).clamp(1, u64::from(DEPTH)) as u32
}

// A room with a place for each vertex.
fn empty_room(alloc: Global, scene: &Scene) -> Result<Room, Memory>
    ensures { IfOk result (HasPlaces scene.now) }
{
    let nowhere = ClipVertex { x: 0, y: 0, w: 0 };
    let clips = vec![in alloc; nowhere; scene.vertices().len()].map_err(|_| Memory)?;
    Ok(Room { clips })
}

// So many rooms.
fn empty_rooms(alloc: Global, scene: &Scene, count: u32) -> Result<Vec<Room>, Memory>
    ensures count { IfOk result (λ v. length v.items ≡ count) }
    ensures places { IfOk result (λ v. HavePlaces scene.now v.items) }
{
    let mut rooms = Vec::with_capacity(alloc, count as usize).map_err(|_| Memory)?;
    for _ in 0..count {
        let room = empty_room(alloc, scene)?;
        rooms.push_reserved(room);
    }
    Ok(rooms)
}

// Writes and notes the lines of a frame that was drawn, if it was.
fn write_drawn<R, W: Sink, E: Sink, G>(
    drawing: &Drawing<R, G>,
    frame: u32,
    drawn: &Option<Frame>,
    report: &mut W,
    notes: &mut E,
) -> Result<(), Failure>
    requires unseen { IsUnseen drawing.now.plan.now.beside }
    requires drawn { IfSome drawn.now (IsDrawn drawing.now.scene.now drawing.now.groups.now frame) }
    ensures reported { LeavesFrames [] drawing.now.plan.now.lines drawing.now.plan.now.beside drawing.now.scene.now
        frame 1 result
        (W.says report.old) (W.says report.new) (E.says notes.old) (E.says notes.new) }
    ensures quiet { drawing.now.plan.now.beside ≡ Nothing → notes.new ≡ notes.old }
{
    match drawn {
        Some(drawn) => write_and_note(drawing, frame, drawn, &[], report, notes),
        None => Err(Failure::Memory),
    }
}

// Writes and notes the lines of so many frames from a first on, up to the first that memory gave out for.
fn write_frames<R, W: Sink, E: Sink, G>(
    drawing: &Drawing<R, G>,
    first: u32,
    count: u32,
    frames: &[Option<Frame>],
    report: &mut W,
    notes: &mut E,
) -> Result<(), Failure>
    requires unseen { IsUnseen drawing.now.plan.now.beside }
    requires within { first + count ≤ length drawing.now.scene.now.cameras }
    requires room { count ≤ length frames.now }
    requires drawn { AreDrawnFrom drawing.now.scene.now drawing.now.groups.now first count frames.now }
    ensures reported { LeavesFrames [] drawing.now.plan.now.lines drawing.now.plan.now.beside drawing.now.scene.now
        first count result
        (W.says report.old) (W.says report.new) (E.says notes.old) (E.says notes.new) }
    ensures quiet { drawing.now.plan.now.beside ≡ Nothing → notes.new ≡ notes.old }
{
    // an accessor tells what is held of a scene
    let _frames = drawing.scene.cameras().len();
    for k in 0..count as usize {
        write_drawn(drawing, first + k as u32, &frames[k], report, notes)?;
    }
    Ok(())
}

// Makes the frames of a window, and then writes and notes their lines.
fn report_window<R: Threads + Wait + Sync, W: Sink, E: Sink, G: Gate>(
    window: &Window<R, G>,
    rooms: &mut Vec<Room>,
    report: &mut W,
    notes: &mut E,
) -> Result<(), Failure>
    requires unseen { IsUnseen window.now.drawing.now.plan.now.beside }
    requires within { let w = window.now in w.first + w.count ≤ length w.drawing.now.scene.now.cameras }
    requires some { 1 ≤ length rooms.old.items }
    requires few { length rooms.old.items ≤ 64 }
    requires places { HavePlaces window.now.drawing.now.scene.now rooms.old.items }
    ensures reported { let d = window.now.drawing.now in
        LeavesFrames [] d.plan.now.lines d.plan.now.beside d.scene.now window.now.first window.now.count result
        (W.says report.old) (W.says report.new) (E.says notes.old) (E.says notes.new) }
    ensures quiet { window.now.drawing.now.plan.now.beside ≡ Nothing → notes.new ≡ notes.old }
    ensures places { OnOk result (HavePlaces window.now.drawing.now.scene.now rooms.new.items) }
    ensures workers { OnOk result (length rooms.new.items ≡ length rooms.old.items) }
{
    let frames = make_window(window, rooms)?;
    write_frames(
        window.drawing,
        window.first,
        window.count,
        frames.as_slice(),
        report,
        notes,
    )
}

// Makes window after window, of so many rounds at most, a frame for each room in a round, until there were as many as
// asked for, and writes and notes the lines of each window before the next begins.
fn report_each_window<R: Threads + Wait + Sync, W: Sink, E: Sink, G: Gate>(
    drawing: &Drawing<R, G>,
    asking: Asking,
    rounds: u32,
    depth: u32,
    rooms: &mut Vec<Room>,
    report: &mut W,
    notes: &mut E,
) -> Result<(), Failure>
    requires unseen { IsUnseen drawing.now.plan.now.beside }
    requires deep { 1 ≤ depth }
    requires some { 1 ≤ length rooms.old.items }
    requires few { length rooms.old.items ≤ 64 }
    requires within { rounds * length rooms.old.items ≤ length drawing.now.scene.now.cameras }
    requires places { HavePlaces drawing.now.scene.now rooms.old.items }
    ensures reported { LeavesFrames [] drawing.now.plan.now.lines drawing.now.plan.now.beside drawing.now.scene.now
        0 (rounds * length rooms.old.items) result
        (W.says report.old) (W.says report.new) (E.says notes.old) (E.says notes.new) }
    ensures quiet { drawing.now.plan.now.beside ≡ Nothing → notes.new ≡ notes.old }
{
    // an accessor tells what is held of a scene
    let _frames = drawing.scene.cameras().len();
    let workers = rooms.len() as u32;
    let mut done = 0u32;
    while done < rounds {
        let more = depth.min(rounds - done);
        let window = Window {
            drawing: &*drawing,
            asking,
            first: done * workers,
            count: more * workers,
            bytes: worker_size(drawing.scene, more) as usize,
        };
        report_window(&window, rooms, report, notes)?;
        done += more;
    }
    Ok(())
}

// How one worker draws into one bin.
fn alone(settings: &Settings) -> Settings
    requires { AreInRange settings.now }
    ensures { AreInRange result }
{
    let Some(cut) = Cut::new(1, 1) else {
        unreachable!()
    };
    Settings {
        workers: 1,
        cut,
        early: false,
        steal: false,
        ..*settings
    }
}

// Who asks the objects of a frame of a window: the lines of the report are made there too.
fn asking_for(lines: FrameLines, workers: u32) -> Asking {
    match lines {
        FrameLines::Report => Asking::Caller(workers),
        FrameLines::Summary => Asking::Workers(1),
    }
}

/// Draws so many frames for each worker, side by side, and writes and notes their lines in order. A frame of a window
/// is made by one thread, as one worker makes it in one bin; where its memory gave out, the run ends behind the frames
/// before it. Conditions: there are so many frames, and none where frames are looked at.
pub fn report_windows<R: Threads + Wait + Sync, W: Sink, E: Sink, G: Gate>(
    drawing: &Drawing<R, G>,
    rounds: u32,
    report: &mut W,
    notes: &mut E,
) -> Result<(), Failure>
    requires within { rounds * drawing.now.plan.now.settings.now.workers ≤ length drawing.now.scene.now.cameras }
    requires unseen { AreUnseen drawing.now.plan.now.beside rounds }
    ensures reported { LeavesFrames [] drawing.now.plan.now.lines drawing.now.plan.now.beside drawing.now.scene.now
        0 (rounds * drawing.now.plan.now.settings.now.workers) result
        (W.says report.old) (W.says report.new) (E.says notes.old) (E.says notes.new) }
    ensures quiet { drawing.now.plan.now.beside ≡ Nothing → notes.new ≡ notes.old }
{
    if rounds == 0 {
        return Ok(());
    }
    let (alloc, scene) = (drawing.alloc, drawing.scene);
    let workers = drawing.plan.settings.workers;
    let mut rooms = empty_rooms(alloc, scene, workers)?;
    let settings = alone(drawing.plan.settings);
    let plan = Plan {
        settings: &settings,
        lines: drawing.plan.lines,
        beside: drawing.plan.beside,
    };
    let table = BinTable::of(alloc, scene.size(), &settings.cut)?;
    let by_one = Drawing {
        rt: drawing.rt,
        alloc,
        plan: &plan,
        table: &table,
        scene,
        groups: drawing.groups,
        gate: drawing.gate,
    };
    let asking = asking_for(plan.lines, workers);
    let depth = depth_for(scene, workers);
    report_each_window(&by_one, asking, rounds, depth, &mut rooms, report, notes)
}
