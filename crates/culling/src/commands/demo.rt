//! The command `demo`: a scene from a seed, culled; its summary is written.
ghost use Rattle.std.specs.Prelude.{◌≡◌};
ghost use Rattle.cull_base.specs.Stream.{SourceSays, Writes};
ghost use Rattle.command_words.specs.Words.{IsWithinLimits};
ghost use Rattle.frame_reports.specs.Failures.{status_by};
ghost use Rattle.frame_reports.specs.Leaves.{AwaitsNote};
ghost use Rattle.culling.specs.Runs.{Comes, streams};
ghost use Rattle.culling.specs.Summary.{demo_line};

use command_words::{Command, DemoWords};
use cull_base::{Sink, SinkError};
use demo_scene::{BOXES, FRAMES, demo_scene};
use frame_reports::{Beside, Failure, FrameLines, Plan, report_frames};
use std::alloc::Global;
use std::sync::Wait;
use std::thread::Threads;
use text_lines::Line;
use tile_queues::Gate;

#[tactic(auto, unfolding(crate::specs::Summary::demo_line))]
fn demo_line(seed: u32, triangles: u32) -> Line
    ensures { result ≡ demo_line seed triangles }
{
    let mut line = Line::begin(b"demo");
    line.word(b"seed");
    line.number(u64::from(seed));
    line.word(b"triangles");
    line.number(u64::from(triangles));
    line.word(b"boxes");
    line.number(u64::from(BOXES));
    line.word(b"frames");
    line.number(u64::from(FRAMES));
    line.end();
    line
}

// Writes the summary's first line. Failed and Memory are the sink's; after an error a beginning of the line that isn't
// the whole was appended.
fn write_demo_line<W: Sink>(sink: &mut W, seed: u32, triangles: u32) -> Result<(), SinkError>
    ensures { Writes (W.says sink.old) (W.says sink.new) result (demo_line seed triangles) }
{
    demo_line(seed, triangles).write_to(sink)
}

/// Makes the scene of a seed, draws it and writes its summary; nothing is noted.
pub fn demo<R: Threads + Wait + Sync, W: Sink, E: Sink, G: Gate>(
    rt: &R,
    alloc: Global,
    words: &DemoWords,
    report: &mut W,
    notes: &mut E,
    gate: &G,
) -> Result<(), Failure>
    requires limits { IsWithinLimits (Command.Demo words.now) }
    // So it is whatever the input says, which isn't read.
    ensures outcome { (input : SourceSays) → let before = streams input (W.says report.old) (E.says notes.old) in
        let after = streams input (W.says report.new) (E.says notes.new) in
        Comes (Command.Demo words.now) (status_by result) before after (AwaitsNote result)
        (report.new ≡ report.old) (notes.new ≡ notes.old) }
{
    let (seed, triangles) = (words.seed, words.triangles);
    let scene = demo_scene(alloc, u64::from(seed), triangles)?;
    write_demo_line(report, seed, triangles)?;
    let plan = Plan {
        settings: &words.settings,
        lines: FrameLines::Summary,
        beside: Beside::Nothing,
    };
    report_frames(rt, alloc, &plan, &scene, report, notes, gate)
}
