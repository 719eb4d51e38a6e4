//! The frames of a scene: drawn, tested, written and noted in order.
ghost use Rattle.std.specs.Prelude.{◌≡◌, ◌<◌, ◌≤◌, ◌-◌, [], length, IfOk};
ghost use Rattle.cull_report.specs.Scene.{frame_clips, frame_pieces, frame_verdicts, scene_header};
ghost use Rattle.frame_reports.specs.FrameRuns.{LeavesFrames};
ghost use Rattle.frame_reports.specs.Frames.{AreCounted, AreSeen};
ghost use Rattle.frame_reports.specs.declared.frames.Beside.TheVariants.{Nothing};

use crate::drawing::{Drawing, Plan, draw_plainly};
use crate::failure::Failure;
use crate::frames::{Asking, Beside, groups_beside};
use crate::heap::keep_freed_memory;
use crate::live_frame::{Seen, draw_live};
use crate::noting::write_and_note;
use crate::window::{report_windows, round_count};
use cull_base::{ClipVertex, Memory, Sink};
use cull_report::clip_frame;
use scene_reader::Scene;
use std::alloc::Global;
use std::sync::Wait;
use std::thread::Threads;
use tile_queues::{BinTable, Gate};

/// In bytes, above half of what a frame takes at any time.
const LARGE: usize = 0x100_0000;

// Draws a frame without looks at it and tests the objects, by workers as the settings ask. Where objects are settled
// meanwhile, which takes a reader, or workers take bins from others, it is drawn through cells.
fn draw_unseen<R: Threads + Wait + Sync, G: Gate>(
    drawing: &Drawing<R, G>,
    frame: u32,
    clips: &[ClipVertex],
) -> Result<Seen, Memory>
    requires frame { frame < length drawing.now.scene.now.cameras }
    requires clips { clips.now ≡ frame_clips drawing.now.scene.now frame }
    ensures pieces { IfOk result (λ f. f.frame.pieces ≡ length (frame_pieces drawing.now.scene.now frame)) }
    ensures verdicts { IfOk result (λ f. f.frame.verdicts ≡ frame_verdicts drawing.now.scene.now frame) }
    ensures counted { IfOk result
        (λ f. AreCounted drawing.now.scene.now frame drawing.now.groups.now f.frame.hidden f.frame.members) }
{
    let settings = drawing.plan.settings;
    if settings.early || settings.steal {
        return draw_live(drawing, 0, 0, frame, clips);
    }
    let frame = draw_plainly(drawing, Asking::Workers(settings.workers), frame, clips)?;
    Ok(Seen {
        frame,
        lines: Vec::new(drawing.alloc),
    })
}

// The same, where there are looks with these: then the frame is drawn through cells too.
fn draw<R: Threads + Wait + Sync, G: Gate>(
    drawing: &Drawing<R, G>,
    frame: u32,
    clips: &[ClipVertex],
) -> Result<Seen, Memory>
    requires frame { frame < length drawing.now.scene.now.cameras }
    requires clips { clips.now ≡ frame_clips drawing.now.scene.now frame }
    ensures pieces { IfOk result (λ f. f.frame.pieces ≡ length (frame_pieces drawing.now.scene.now frame)) }
    ensures verdicts { IfOk result (λ f. f.frame.verdicts ≡ frame_verdicts drawing.now.scene.now frame) }
    ensures counted { IfOk result
        (λ f. AreCounted drawing.now.scene.now frame drawing.now.groups.now f.frame.hidden f.frame.members) }
    ensures seen { IfOk result (λ f. AreSeen drawing.now.plan.now.beside drawing.now.scene.now frame f.lines.items) }
{
    match drawing.plan.beside {
        Beside::Looks { rounds, watch } => draw_live(drawing, rounds, watch, frame, clips),
        Beside::Groups { .. } => draw_unseen(drawing, frame, clips),
        Beside::Nothing => draw_unseen(drawing, frame, clips),
    }
}

// Draws a frame, writes its lines, and then notes what is noted beside.
fn report_frame<R: Threads + Wait + Sync, W: Sink, E: Sink, G: Gate>(
    drawing: &Drawing<R, G>,
    frame: u32,
    clips: &mut [ClipVertex],
    report: &mut W,
    notes: &mut E,
) -> Result<(), Failure>
    requires frame { frame < length drawing.now.scene.now.cameras }
    requires places { length clips.old ≡ length drawing.now.scene.now.vertices }
    ensures reported { LeavesFrames [] drawing.now.plan.now.lines drawing.now.plan.now.beside drawing.now.scene.now
        frame 1 result (W.says report.old) (W.says report.new) (E.says notes.old) (E.says notes.new) }
    ensures quiet { drawing.now.plan.now.beside ≡ Nothing → notes.new ≡ notes.old }
    ensures places { length clips.new ≡ length clips.old }
{
    clip_frame(drawing.rt, drawing.scene, frame, clips);
    let seen = draw(drawing, frame, clips)?;
    let lines = seen.lines.as_slice();
    write_and_note(drawing, frame, &seen.frame, lines, report, notes)
}

// Draws the frames from a first on, one after the other, each by all workers, and writes and notes the lines of each
// before the next begins.
fn report_rest<R: Threads + Wait + Sync, W: Sink, E: Sink, G: Gate>(
    drawing: &Drawing<R, G>,
    first: u32,
    report: &mut W,
    notes: &mut E,
) -> Result<(), Failure>
    requires { first ≤ length drawing.now.scene.now.cameras }
    ensures reported { LeavesFrames [] drawing.now.plan.now.lines drawing.now.plan.now.beside drawing.now.scene.now
        first (length drawing.now.scene.now.cameras - first) result
        (W.says report.old) (W.says report.new) (E.says notes.old) (E.says notes.new) }
    ensures quiet { drawing.now.plan.now.beside ≡ Nothing → notes.new ≡ notes.old }
{
    let scene = drawing.scene;
    let nowhere = ClipVertex { x: 0, y: 0, w: 0 };
    let mut room = vec![in drawing.alloc; nowhere; scene.vertices().len()].map_err(
        |_| Failure::Memory,
    )?;
    let clips = room.as_mut_slice();
    for frame in first..scene.cameras().len() as u32 {
        report_frame(drawing, frame, clips, report, notes)?;
    }
    Ok(())
}

/// Draws all frames, writes their lines in order and notes what is noted beside: first windows of frames side by side,
/// where there are no looks and the scene has as many frames as there are workers, and then what is left, frame after
/// frame.
pub fn report_frames<R: Threads + Wait + Sync, W: Sink, E: Sink, G: Gate>(
    rt: &R,
    alloc: Global,
    plan: &Plan,
    scene: &Scene,
    report: &mut W,
    notes: &mut E,
    gate: &G,
) -> Result<(), Failure>
    ensures reported { LeavesFrames [] plan.now.lines plan.now.beside scene.now 0 (length scene.now.cameras) result
        (W.says report.old) (W.says report.new) (E.says notes.old) (E.says notes.new) }
    ensures quiet { plan.now.beside ≡ Nothing → notes.new ≡ notes.old }
{
    keep_freed_memory(alloc, LARGE)?;
    let table = BinTable::of(alloc, scene.size(), &plan.settings.cut)?;
    let groups = groups_beside(alloc, plan.beside, scene)?;
    let drawing = Drawing {
        rt,
        alloc,
        plan,
        table: &table,
        scene,
        groups: groups.as_slice(),
        gate,
    };
    // an accessor tells what is held of a scene
    let _frames = scene.cameras().len();
    let rounds = round_count(plan, scene);
    report_windows(&drawing, rounds, report, notes)?;
    report_rest(&drawing, rounds * plan.settings.workers, report, notes)
}
