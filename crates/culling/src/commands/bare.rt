//! The commands without options.
ghost use Rattle.std.specs.Prelude.{◌≡◌};
ghost use Rattle.frame_reports.specs.Failures.{status_by};
ghost use Rattle.frame_reports.specs.Leaves.{AwaitsNote};
ghost use Rattle.culling.specs.Runs.{Comes, streams};

use command_words::{BareCommand, Command};
use cull_base::{Sink, Source};
use frame_reports::Failure;
use scene_reader::{read_scene, upgrade, write_scene};
use std::alloc::Global;

// Reads a scene and writes it in version 2; nothing is noted.
fn write_upgraded<S: Source, W: Sink, E: Sink>(
    alloc: Global,
    input: &mut S,
    report: &mut W,
    _notes: &mut E,
) -> Result<(), Failure>
    ensures outcome { let before = streams (S.says input.old) (W.says report.old) (E.says _notes.old) in
        let after = streams (S.says input.new) (W.says report.new) (E.says _notes.new) in
        Comes (Command.Bare BareCommand.Upgrade) (status_by result) before after (AwaitsNote result)
        (report.new ≡ report.old) (_notes.new ≡ _notes.old) }
{
    let scene = read_scene(alloc, input)?;
    let upgraded = upgrade(scene);
    write_scene(&upgraded, report)?;
    Ok(())
}

/// Carries out a command without options.
pub fn carry_out<S: Source, W: Sink, E: Sink>(
    alloc: Global,
    command: &BareCommand,
    input: &mut S,
    report: &mut W,
    notes: &mut E,
) -> Result<(), Failure>
    ensures outcome { let before = streams (S.says input.old) (W.says report.old) (E.says notes.old) in
        let after = streams (S.says input.new) (W.says report.new) (E.says notes.new) in
        Comes (Command.Bare command.now) (status_by result) before after (AwaitsNote result)
        (report.new ≡ report.old) (notes.new ≡ notes.old) }
{
    match command {
        BareCommand::Upgrade => write_upgraded(alloc, input, report, notes),
    }
}
