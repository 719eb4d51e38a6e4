//! The top call: from a command line's words and the bytes of a scene to the report.
ghost use Rattle.std.specs.Prelude.{◌≡◌, None, Some, map, string_bytes};
ghost use Rattle.command_words.specs.Words.{ArePlain, IsRefused, IsWithinLimits, command_of};
ghost use Rattle.frame_reports.specs.Notes.{IsNotedBehind};
ghost use Rattle.frame_reports.specs.Failures.{status_by};
ghost use Rattle.culling.specs.Outcomes.{Asks, IfAsked, IsTrue, ReadsScene};
ghost use Rattle.frame_reports.specs.Leaves.{AwaitsNote};
ghost use Rattle.culling.specs.Runs.{Comes, IsComplete, IsUnasked, WithoutFault, streams};

mod bare;
mod check;
mod cull;
mod demo;
mod live;
mod picture;

use crate::refusal::end_refused;
use bare::carry_out;
use check::check;
use command_words::{Command, command_of};
use cull::cull;
use cull_base::{Sink, Source};
use demo::demo;
use frame_reports::{Failure, Status};
use live::live;
use picture::picture;
use std::alloc::Global;
use std::sync::Wait;
use std::thread::Threads;
use tile_queues::Gate;

// Carries out a command.
fn perform<R: Threads + Wait + Sync, S: Source, W: Sink, E: Sink, G: Gate>(
    rt: &R,
    alloc: Global,
    command: &Command,
    input: &mut S,
    report: &mut W,
    notes: &mut E,
    gate: &G,
) -> Result<(), Failure>
    requires limits { IsWithinLimits command.now }
    ensures outcome { let before = streams (S.says input.old) (W.says report.old) (E.says notes.old) in
        let after = streams (S.says input.new) (W.says report.new) (E.says notes.new) in
        Comes command.now (status_by result) before after (AwaitsNote result)
        (report.new ≡ report.old) (notes.new ≡ notes.old) }
    ensures unread { (ReadsScene command.now → ⊥) → input.new ≡ input.old }
{
    match command {
        Command::Cull(words) => cull(rt, alloc, words, input, report, notes, gate),
        Command::Live(words) => live(rt, alloc, words, input, report, notes, gate),
        Command::Demo(words) => demo(rt, alloc, words, report, notes, gate),
        Command::Check(words) => check(rt, alloc, words, input, report, notes),
        Command::Picture(words) => picture(rt, alloc, words, input, report, notes, gate),
        Command::Bare(command) => carry_out(alloc, command, input, report, notes),
    }
}

/// Runs a command, whatever its settings: `work_of` says of each what it reads, writes and notes (the table of commands
/// in README.md says it in words). The gate is asked while frames are drawn. What is said of bytes holds where the input
/// tells its bytes; a sink's claim where the sink tells its own.
pub fn run<R: Threads + Wait + Sync, S: Source, W: Sink, E: Sink, G: Gate>(
    rt: &R,
    alloc: Global,
    words: &[String],
    input: &mut S,
    report: &mut W,
    notes: &mut E,
    gate: &G,
) -> Status
    // The words ask for a command: its outcome stands whole, or a front of it where a sink failed or memory ran out.
    // The report is that of one thread that merges all pieces in submission order; what is noted of a look is the
    // verdict after the members that it states, whose numbers never fall from line to line.
    ensures outcome { let before = streams (S.says input.old) (W.says report.old) (E.says notes.old) in
        let after = streams (S.says input.new) (W.says report.new) (E.says notes.new) in
        IfAsked (map string_bytes words.now) (λ c. Comes c result before after IsNotedBehind
        (report.new ≡ report.old) (result ≡ Status.Done → notes.new ≡ notes.old)) }
    ensures complete { let before = streams (S.says input.old) (W.says report.old) (E.says notes.old) in
        let after = streams (S.says input.new) (W.says report.new) (E.says notes.new) in
        WithoutFault before after
        → IfAsked (map string_bytes words.now) (λ c. IsComplete c (S.says input.old) result) }

    // Each object that is called occluded has a piece strictly in front of it at each of its samples in the screen; and
    // at each sample whose number in a picture isn't 0, some piece is as near as the number says.
    ensures truth { IfAsked (map string_bytes words.now) (λ c. IsTrue c (S.says input.old)) }

    // The command line. Plain words are never refused, since they make a command.
    ensures asked { (result ≡ Status.Usage → ⊥) → (result ≡ Status.Memory → ⊥)
        → Asks (map string_bytes words.now) IsWithinLimits }
    ensures usage { result ≡ Status.Usage → command_of (map string_bytes words.now) ≡ None }
    ensures refused { result ≡ Status.Usage → IsRefused (map string_bytes words.now) }
    ensures plain { (c : Command) → ArePlain (map string_bytes words.now) c
        → command_of (map string_bytes words.now) ≡ Some c }

    // Where the words ask for nothing, nothing is read, and nothing written but what is noted.
    ensures unasked { command_of (map string_bytes words.now) ≡ None
        → IsUnasked result (E.says notes.old) (E.says notes.new) }
    ensures untouched { command_of (map string_bytes words.now) ≡ None → report.new ≡ report.old }
    ensures unread { (Asks (map string_bytes words.now) ReadsScene → ⊥) → input.new ≡ input.old }
{
    let command = match command_of(alloc, words) {
        Ok(command) => command,
        Err(refusal) => return end_refused(&refusal, notes),
    };
    match perform(rt, alloc, &command, input, report, notes, gate) {
        Ok(()) => Status::Done,
        Err(failure) => failure.end(notes),
    }
}
