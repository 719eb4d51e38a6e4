//! Runs of a command over bytes in memory, and what comes of them.
ghost use Rattle.std.specs.Prelude.{◌≤◌, map, string_bytes};
ghost use Rattle.culling.specs.Outcomes.{IfAsked};
ghost use Rattle.culling.specs.Promises.{Ran};
ghost use Rattle.culling.specs.Runs.{streams};

use cull_base::{BytesSink, BytesSource, Sink, Source};
use culling::{Status, run};
use std::alloc::{AllocError, Global};
use std::sync::Wait;
use std::test::*;
use std::thread::Threads;
use tile_queues::{Gate, OpenGate};

/// The command line that culls a scene by one worker.
pub const CULL: &str = "maskcull cull";

/// The command line that writes a scene in version 2.
pub const UPGRADE: &str = "maskcull upgrade";

/// The command line that writes a picture of a scene's first frame.
pub const PICTURE: &str = "maskcull picture";

/// The number of no call: calls are numbered from 1.
pub const NEVER: u64 = 0;

/// In bytes, more than any text of a test is long.
pub const LARGE: usize = 100_000;

/// How a run ended, and what stands on its report and on its notes.
#[derive(Drop)]
pub struct Ended {
    pub status: Status,
    pub report: String,
    pub notes: String,
}

/// A sink that takes so many bytes at most in a write; the write of that number fails.
pub fn sink(alloc: Global, most: usize, call: u64) -> Result<BytesSink, AllocError>
    requires { 1 ≤ most }
{
    Ok(BytesSink::new(alloc, most, Vec::from_slice(alloc, &[call])?))
}

// The words of a command line, parted by one space each; none of an empty one.
fn words_of(alloc: Global, line: &str) -> Result<Vec<String>, AllocError> {
    let mut words = Vec::new(alloc);
    if line.is_empty() {
        return Ok(words);
    }
    for word in line.split(' ') {
        words.push(String::from_str(alloc, word)?)?;
    }
    Ok(words)
}

fn text_of(alloc: Global, bytes: &[u8]) -> Result<String, Fail> {
    match str::from_utf8(bytes) {
        Ok(text) => Ok(String::from_str(alloc, text)?),
        Err(_) => Err(Fail::from("a text")),
    }
}

/// How a command ends, by the words of its command line: its clause is where the laws of `culling` begin.
pub fn status_of<R: Threads + Wait + Sync, S: Source, W: Sink, E: Sink, G: Gate>(
    rt: &R,
    alloc: Global,
    words: &[String],
    input: &mut S,
    report: &mut W,
    notes: &mut E,
    gate: &G,
) -> Status
    ensures ran { let before = streams (S.says input.old) (W.says report.old) (E.says notes.old) in
        let after = streams (S.says input.new) (W.says report.new) (E.says notes.new) in
        IfAsked (map string_bytes words.now) (λ c. Ran c result before after) }
{
    run(rt, alloc, words, input, report, notes, gate)
}

/// How a command line over a source and two sinks ends, with a gate. The sinks hold what was written.
pub fn status_over<R: Threads + Wait + Sync, G: Gate>(
    rt: &R,
    alloc: Global,
    line: &str,
    input: &mut BytesSource,
    report: &mut BytesSink,
    notes: &mut BytesSink,
    gate: &G,
) -> Result<Status, Fail> {
    let words = words_of(alloc, line)?;
    Ok(status_of(rt, alloc, &words, input, report, notes, gate))
}

/// What comes of a command line over a source and two sinks, with a gate.
pub fn run_over<R: Threads + Wait + Sync, G: Gate>(
    rt: &R,
    alloc: Global,
    line: &str,
    input: &mut BytesSource,
    mut report: BytesSink,
    mut notes: BytesSink,
    gate: &G,
) -> Result<Ended, Fail> {
    let status = status_over(rt, alloc, line, input, &mut report, &mut notes, gate)?;
    Ok(Ended {
        status,
        report: text_of(alloc, report.held())?,
        notes: text_of(alloc, notes.held())?,
    })
}

/// The same over bytes that come in pieces of at most seven, with sinks that never fail.
pub fn run_gated<R: Threads + Wait + Sync, G: Gate>(
    rt: &R,
    alloc: Global,
    line: &str,
    bytes: Vec<u8>,
    gate: &G,
) -> Result<Ended, Fail> {
    let mut input = BytesSource::new(bytes, 7, Vec::new(alloc));
    let (report, notes) = (sink(alloc, LARGE, NEVER)?, sink(alloc, LARGE, NEVER)?);
    run_over(rt, alloc, line, &mut input, report, notes, gate)
}

/// The same with a gate that holds nobody up.
pub fn run_with<R: Threads + Wait + Sync>(
    rt: &R,
    alloc: Global,
    line: &str,
    bytes: Vec<u8>,
) -> Result<Ended, Fail> {
    run_gated(rt, alloc, line, bytes, &OpenGate)
}

/// What comes of a command line over a scene's bytes where a read of one byte fails.
pub fn read_with_fault<R: Threads + Wait + Sync>(
    rt: &R,
    alloc: Global,
    line: &str,
    bytes: Vec<u8>,
    call: u64,
) -> Result<Ended, Fail> {
    let mut input = BytesSource::new(bytes, 1, Vec::from_slice(alloc, &[call])?);
    let (report, notes) = (sink(alloc, LARGE, NEVER)?, sink(alloc, LARGE, NEVER)?);
    run_over(rt, alloc, line, &mut input, report, notes, &OpenGate)
}

/// The same where a write to the report of at most so many bytes fails.
pub fn written_with_fault<R: Threads + Wait + Sync>(
    rt: &R,
    alloc: Global,
    line: &str,
    bytes: Vec<u8>,
    most: usize,
    call: u64,
) -> Result<Ended, Fail>
    requires { 1 ≤ most }
{
    let mut input = BytesSource::new(bytes, 4096, Vec::new(alloc));
    let (report, notes) = (sink(alloc, most, call)?, sink(alloc, LARGE, NEVER)?);
    run_over(rt, alloc, line, &mut input, report, notes, &OpenGate)
}

/// A run ended with a status and left these texts. Err: it ended otherwise, which is told.
pub fn assert_ended(ended: &Ended, status: Status, report: &str, notes: &str) -> Result<(), Fail> {
    let Ended {
        status: found,
        report: told,
        notes: noted,
    } = ended;
    if *found == status && told.as_str() == report && noted.as_str() == notes {
        return Ok(());
    }
    Err(Fail::new(format_args!(
        "ended as {found:?} with the notes {noted:?} and the report {told:?}"
    )))
}

/// A command line over some bytes is done with this report, and nothing is noted.
pub fn assert_writes<R: Threads + Wait + Sync>(
    rt: &R,
    alloc: Global,
    line: &str,
    bytes: Vec<u8>,
    report: &str,
) -> Result<(), Fail> {
    let ended = run_with(rt, alloc, line, bytes)?;
    assert_ended(&ended, Status::Done, report, "")
}

/// The scene of some bytes is culled, with this report.
pub fn assert_reports<R: Threads + Wait + Sync>(
    rt: &R,
    alloc: Global,
    bytes: Vec<u8>,
    report: &str,
) -> Result<(), Fail> {
    assert_writes(rt, alloc, CULL, bytes, report)
}
