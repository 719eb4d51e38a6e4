//! Culling a scene with looks at its first objects while its frames are drawn.
ghost use Rattle.std.specs.Prelude.{◌≡◌};
ghost use Rattle.command_words.specs.Words.{IsWithinLimits};
ghost use Rattle.frame_reports.specs.Failures.{status_by};
ghost use Rattle.frame_reports.specs.Leaves.{AwaitsNote};
ghost use Rattle.culling.specs.Runs.{Comes, streams};

use crate::commands::cull::report_scene;
use command_words::{Command, LiveWords};
use cull_base::{Sink, Source};
use frame_reports::{Beside, Failure, FrameLines, Plan};
use scene_reader::read_scene;
use std::alloc::Global;
use std::sync::Wait;
use std::thread::Threads;
use tile_queues::Gate;

/// Reads a scene, draws it, writes its report and notes what was seen of its first objects while each frame was drawn.
pub fn live<R: Threads + Wait + Sync, S: Source, W: Sink, E: Sink, G: Gate>(
    rt: &R,
    alloc: Global,
    words: &LiveWords,
    input: &mut S,
    report: &mut W,
    notes: &mut E,
    gate: &G,
) -> Result<(), Failure>
    requires limits { IsWithinLimits (Command.Live words.now) }
    ensures outcome { let before = streams (S.says input.old) (W.says report.old) (E.says notes.old) in
        let after = streams (S.says input.new) (W.says report.new) (E.says notes.new) in
        Comes (Command.Live words.now) (status_by result) before after (AwaitsNote result)
        (report.new ≡ report.old) (notes.new ≡ notes.old) }
{
    let scene = read_scene(alloc, input)?;
    let plan = Plan {
        settings: &words.settings,
        lines: FrameLines::Report,
        beside: Beside::Looks {
            rounds: words.rounds,
            watch: words.watch,
        },
    };
    report_scene(rt, alloc, &plan, &scene, report, notes, gate)
}
