//! The texts of the report.
ghost use Rattle.std.specs.Prelude.{◌≡◌, ℕ, List, [], ◌∷◌, ◌++◌, ◌+◌, ◌*◌, ◌<◌, ◌≤◌, ◌^◌, length};
ghost use Rattle.cull_report.specs.Text.{header_text, frame_line, verdict_line, verdict_lines, end_line, frame_text, verdict_word};
ghost use Rattle.cull_base.specs.Stream.{Writes};
ghost use Rattle.cull_report.specs.Scene.{scene_header};

use crate::counts::Counts;
use cull_base::{Sink, SinkError, Verdict};
use scene_reader::Scene;
use text_lines::{Line, Lines};

const REPORT_VERSION: u64 = 1;

/// How many verdicts' lines are handed to the sink at once.
pub(crate) const BATCH: usize = 128;

/// At most so many bytes has the line of an object.
pub(crate) const LINE: usize = 30;

#[tactic(auto, unfolding(crate::specs::Text::header_text))]
fn header_line(width: u16, height: u16, frames: usize, objects: usize) -> Line
    ensures { result ≡ header_text width height frames objects }
{
    let mut line = Line::begin(b"msoc-report");
    line.number(REPORT_VERSION);
    line.number(u64::from(width));
    line.number(u64::from(height));
    line.number(frames as u64);
    line.number(objects as u64);
    line.end();
    line
}

#[tactic(auto, unfolding(crate::specs::Text::frame_line))]
pub(crate) fn frame_line(frame: u32, pieces: u32) -> Line
    ensures { result ≡ frame_line frame pieces }
{
    let mut line = Line::begin(b"frame");
    line.number(u64::from(frame));
    line.word(b"pieces");
    line.number(u64::from(pieces));
    line.end();
    line
}

pub(crate) fn word_of(verdict: Verdict) -> &'static [u8]
    ensures value { result.now ≡ verdict_word verdict }
    ensures short { length result.now ≤ 8 }
{
    match verdict {
        Verdict::Visible => b"visible",
        Verdict::Occluded => b"occluded",
        Verdict::Outside => b"outside",
    }
}

// Appends the line of an object. Condition: there is room for it.
#[tactic(auto, unfolding(crate::specs::Text::verdict_line))]
fn push_verdict_line(lines: &mut Lines, object: usize, verdict: Verdict)
    requires { length lines.old + 30 ≤ 4096 }
    ensures value { lines.new ≡ lines.old ++ verdict_line object verdict }
    ensures short { length lines.new ≤ length lines.old + 30 }
{
    lines.push_number(object as u64);
    match verdict {
        Verdict::Visible => lines.push(b" visible\n"),
        Verdict::Occluded => lines.push(b" occluded\n"),
        Verdict::Outside => lines.push(b" outside\n"),
    }
}

#[tactic(auto, unfolding(crate::specs::Text::end_line))]
pub(crate) fn end_line(frame: u32, counts: Counts) -> Line
    ensures { result ≡ end_line frame counts.visible counts.occluded counts.outside }
{
    let mut line = Line::begin(b"end");
    line.number(u64::from(frame));
    line.word(b"visible");
    line.number(counts.visible as u64);
    line.word(b"occluded");
    line.number(counts.occluded as u64);
    line.word(b"outside");
    line.number(counts.outside as u64);
    line.end();
    line
}

// The lines of some verdicts, numbered from a first.
pub(crate) fn lines_from(first: usize, verdicts: &[Verdict]) -> Lines
    requires room { length verdicts.now ≤ 128 }
    requires numbers { first + length verdicts.now < 2 ^ 64 }
    ensures value { result ≡ verdict_lines first verdicts.now }
    ensures short { length result ≤ 30 * length verdicts.now }
{
    let mut lines = Lines::empty();
    for (k, verdict) in verdicts.iter().enumerate() {
        push_verdict_line(&mut lines, first + k, *verdict);
    }
    lines
}

/// Writes the lines of verdicts, numbered from 0, so many at once.
pub(crate) fn write_verdicts<W: Sink>(sink: &mut W, verdicts: &[Verdict]) -> Result<(), SinkError>
    ensures { Writes (W.says sink.old) (W.says sink.new) result (verdict_lines 0 verdicts.now) }
{
    for batch in 0..verdicts.len().div_ceil(BATCH) {
        let first = BATCH * batch;
        let end = first + BATCH.min(verdicts.len() - first);
        lines_from(first, &verdicts[first..end]).write_to(sink)?;
    }
    Ok(())
}

/// Writes a frame's lines: the number of its pieces, each object's verdict, and how many there are of each.
/// Failed only where the sink's count of faults rose, Memory only where that of refused growths did; after an error
/// a front of the text that isn't the whole was appended.
pub fn write_frame<W: Sink>(
    sink: &mut W,
    frame: u32,
    pieces: u32,
    verdicts: &[Verdict],
) -> Result<(), SinkError>
    ensures { Writes (W.says sink.old) (W.says sink.new) result (frame_text frame pieces verdicts.now) }
{
    frame_line(frame, pieces).write_to(sink)?;
    write_verdicts(sink, verdicts)?;
    end_line(frame, Counts::of(verdicts)).write_to(sink)
}

/// Writes the report's first line. Failed and Memory are the sink's, as for a frame.
pub fn write_header<W: Sink>(sink: &mut W, scene: &Scene) -> Result<(), SinkError>
    ensures { Writes (W.says sink.old) (W.says sink.new) result (scene_header scene.now) }
{
    let size = scene.size();
    let line = header_line(
        size.width(),
        size.height(),
        scene.cameras().len(),
        scene.objects().len(),
    );
    line.write_to(sink)
}
