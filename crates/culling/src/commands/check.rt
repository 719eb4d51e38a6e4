//! The command `check`: a scene and a live log, and whether `live` may have noted it.
ghost use Rattle.std.specs.Prelude.{◌≡◌, ◌≤◌, IfOk, IfErr};
ghost use Rattle.cull_base.specs.Stream.{Writes};
ghost use Rattle.command_words.specs.Words.{IsWithinLimits};
ghost use Rattle.culling.specs.Checking.{IsNoNumber, TakesNumber};
ghost use Rattle.frame_reports.specs.Failures.{status_by};
ghost use Rattle.culling.specs.Outcomes.{answer_text};
ghost use Rattle.frame_reports.specs.Leaves.{AwaitsNote};
ghost use Rattle.culling.specs.Runs.{Comes, streams};

use byteorder::{ByteOrder, LittleEndian};
use command_words::{CheckWords, Command};
use cull_base::{Sink, SinkError, Source, fill};
use frame_reports::Failure;
use live_check::{LogAnswer, check_log};
use scene_reader::{SceneError, read_part};
use std::alloc::Global;
use std::sync::Wait;
use std::thread::Threads;
use text_lines::Line;

// Takes the number of a scene's bytes. Err: the input has fewer than four, or couldn't be read.
fn take_number<S: Source>(input: &mut S) -> Result<u32, Failure>
    ensures number { IfOk result (λ n. TakesNumber (S.says input.old) (S.says input.new) n) }
    ensures none { IfErr result (λ f. IsNoNumber (S.says input.old) (S.says input.new) f) }
    ensures faults_stay { (S.says input.old).faults ≤ (S.says input.new).faults }
{
    let mut bytes = [0; 4];
    match fill(input, &mut bytes) {
        Err(_) => Err(Failure::ReadFault),
        Ok(4) => Ok(LittleEndian::read_u32(&bytes)),
        Ok(have) => Err(Failure::Scene(SceneError::Truncated {
            need: 4,
            have: have as u32,
        })),
    }
}

// The line of an answer.
fn line_of(answer: LogAnswer) -> Line
    ensures { result ≡ answer_text answer }
{
    let mut line = Line::begin(b"log");
    match answer {
        LogAnswer::Accepted => line.word(b"accepted"),
        LogAnswer::Refused(good) => {
            line.word(b"refused");
            line.number(good);
        }
    }
    line.end();
    line
}

// Writes an answer. Failed and Memory are the sink's.
fn write_answer<W: Sink>(report: &mut W, answer: LogAnswer) -> Result<(), SinkError>
    ensures { Writes (W.says report.old) (W.says report.new) result (answer_text answer) }
{
    line_of(answer).write_to(report)
}

/// Reads the length of a scene, the scene, and a log, to its end where it is accepted, and writes whether `live` may
/// have noted the log with so many rounds of looks at the first objects, of so many; nothing is noted. Err: Log where
/// the log is refused, which stands on the report then.
pub fn check<R: Threads + Wait + Sync, S: Source, W: Sink, E: Sink>(
    rt: &R,
    alloc: Global,
    words: &CheckWords,
    input: &mut S,
    report: &mut W,
    _notes: &mut E,
) -> Result<(), Failure>
    requires limits { IsWithinLimits (Command.Check words.now) }
    ensures outcome { let before = streams (S.says input.old) (W.says report.old) (E.says _notes.old) in
        let after = streams (S.says input.new) (W.says report.new) (E.says _notes.new) in
        Comes (Command.Check words.now) (status_by result) before after (AwaitsNote result)
        (report.new ≡ report.old) (_notes.new ≡ _notes.old) }
{
    let most = take_number(input)?;
    let scene = read_part(alloc, input, most)?;
    let answer = check_log(
        rt,
        alloc,
        &scene,
        words.rounds as u8,
        words.watch as u8,
        input,
    )?;
    write_answer(report, answer)?;
    match answer {
        LogAnswer::Accepted => Ok(()),
        LogAnswer::Refused(_) => Err(Failure::Log),
    }
}
