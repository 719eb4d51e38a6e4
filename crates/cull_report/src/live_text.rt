//! The text of a live line.
ghost use Rattle.std.specs.Prelude.{◌≡◌, [], ◌∷◌, ◌++◌, ◌+◌, ◌-◌, ◌*◌, ◌≤◌, length, take, drop};
ghost use Rattle.cull_base.specs.Stream.{Writes};
ghost use Rattle.cull_report.specs.Live.{count_text, text_of_line};
ghost use Rattle.cull_report.specs.LivePieces.{head_text, counts_text};

use crate::live_line::{LiveLine, TileCount};
use crate::report::word_of;
use cull_base::{Sink, SinkError};
use text_lines::{Lines, Text};

// How many tiles of a line are handed to the sink at once.
const BATCH: u32 = 64;

// The fields before the tiles.
#[tactic(auto, unfolding(crate::specs::LivePieces::head_text))]
fn head(line: &LiveLine) -> Lines
    ensures value { result ≡ head_text line.now }
    ensures short { length result ≤ 128 }
{
    let mut text = Text::begin(b"live");
    text.number(u64::from(line.frame()));
    text.number(u64::from(line.round()));
    text.number(u64::from(line.object()));
    text.word(word_of(line.verdict()));
    text
}

// The next field: a tile and its count.
fn push_count(text: &mut Lines, count: TileCount)
    requires { length text.old + 42 ≤ 4096 }
    ensures value { text.new ≡ text.old ++ (32 ∷ count_text count) }
    ensures room { length text.new ≤ length text.old + 42 }
{
    text.number(u64::from(count.tile));
    text.push(b":");
    text.push_number(u64::from(count.count));
}

// The fields of a line's tiles from one place to before another.
fn push_counts(text: &mut Lines, line: &LiveLine, first: u32, end: u32)
    requires places { (first ≤ end) × (end ≤ length line.now.counts) }
    requires few { end ≤ first + 64 }
    requires room { length text.old ≤ 128 }
    ensures value { text.new ≡ text.old ++ counts_text (take (end - first) (drop first line.now.counts)) }
    ensures room { length text.new ≤ 3000 }
{
    for i in first..end {
        push_count(text, line.count_at(i));
    }
}

// Writes a text whole, and empties it.
fn write_out<W: Sink>(sink: &mut W, text: &mut Lines) -> Result<(), SinkError>
    ensures written { Writes (W.says sink.old) (W.says sink.new) result text.old }
    ensures empty { text.new ≡ [] }
{
    let result = text.write_to(sink);
    text.clear();
    result
}

/// Writes a live line. Failed and Memory are the sink's, as for a frame's lines.
pub fn write_live<W: Sink>(sink: &mut W, line: &LiveLine) -> Result<(), SinkError>
    ensures { Writes (W.says sink.old) (W.says sink.new) result (text_of_line line.now) }
{
    let mut text = head(line);
    let batches = line.len() / BATCH;
    for batch in 0..batches {
        let first = BATCH * batch;
        push_counts(&mut text, line, first, first + BATCH);
        write_out(sink, &mut text)?;
    }
    push_counts(&mut text, line, BATCH * batches, line.len());
    text.end();
    text.write_to(sink)
}
