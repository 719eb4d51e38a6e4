//! Culling a scene: from bytes to the report.
ghost use Rattle.std.specs.Prelude.{◌≡◌, length};
ghost use Rattle.cull_report.specs.Scene.{scene_header};
ghost use Rattle.command_words.specs.Words.{IsWithinLimits};
ghost use Rattle.frame_reports.specs.FrameRuns.{LeavesFrames};
ghost use Rattle.frame_reports.specs.Failures.{status_by};
ghost use Rattle.frame_reports.specs.Leaves.{AwaitsNote};
ghost use Rattle.culling.specs.Runs.{Comes, streams};
ghost use Rattle.frame_reports.specs.declared.frames.Beside.TheVariants.{Nothing};

use command_words::{Command, CullWords};
use cull_base::{Sink, Source};
use cull_report::write_header;
use frame_reports::{Failure, FrameLines, Plan, beside_of, report_frames};
use scene_reader::{Scene, read_scene};
use std::alloc::Global;
use std::sync::Wait;
use std::thread::Threads;
use tile_queues::Gate;

/// Draws a scene, writes the report's header and the lines of its frames, and notes what is noted beside.
pub fn report_scene<R: Threads + Wait + Sync, W: Sink, E: Sink, G: Gate>(
    rt: &R,
    alloc: Global,
    plan: &Plan,
    scene: &Scene,
    report: &mut W,
    notes: &mut E,
    gate: &G,
) -> Result<(), Failure>
    ensures reported { LeavesFrames (scene_header scene.now) plan.now.lines plan.now.beside scene.now
        0 (length scene.now.cameras) result
        (W.says report.old) (W.says report.new) (E.says notes.old) (E.says notes.new) }
    ensures quiet { plan.now.beside ≡ Nothing → notes.new ≡ notes.old }
{
    write_header(report, scene)?;
    report_frames(rt, alloc, plan, scene, report, notes, gate)
}

/// Reads a scene, draws it and writes its report. Where its boxes are taken in groups a line is noted after each
/// frame's; else nothing is noted.
pub fn cull<R: Threads + Wait + Sync, S: Source, W: Sink, E: Sink, G: Gate>(
    rt: &R,
    alloc: Global,
    words: &CullWords,
    input: &mut S,
    report: &mut W,
    notes: &mut E,
    gate: &G,
) -> Result<(), Failure>
    requires limits { IsWithinLimits (Command.Cull words.now) }
    ensures outcome { let before = streams (S.says input.old) (W.says report.old) (E.says notes.old) in
        let after = streams (S.says input.new) (W.says report.new) (E.says notes.new) in
        Comes (Command.Cull words.now) (status_by result) before after (AwaitsNote result)
        (report.new ≡ report.old) (notes.new ≡ notes.old) }
{
    let scene = read_scene(alloc, input)?;
    let plan = Plan {
        settings: &words.settings,
        lines: FrameLines::Report,
        beside: beside_of(words.group),
    };
    report_scene(rt, alloc, &plan, &scene, report, notes, gate)
}
