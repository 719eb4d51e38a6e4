//! A frame's line of the summary.
ghost use Rattle.std.specs.Prelude.{◌≡◌, count_by};
ghost use Rattle.cull_base.specs.Stream.{Writes};
ghost use Rattle.cull_report.specs.Text.{is_visible, is_occluded, is_outside};
ghost use Rattle.frame_reports.specs.SummaryLine.{counts_line, summary_line};

use cull_base::{Sink, SinkError};
use cull_report::{Counts, FrameVerdicts};
use text_lines::Text;

// A frame's line, which is longer than a line of the report may be.
type SummaryLine = Text<160>;

#[tactic(auto, unfolding(crate::specs::SummaryLine::counts_line))]
fn counts_line(frame: u32, pieces: u32, counts: Counts) -> SummaryLine
    ensures { result ≡ counts_line frame pieces counts.visible counts.occluded counts.outside }
{
    let mut line = SummaryLine::begin(b"frame");
    line.number(u64::from(frame));
    line.word(b"pieces");
    line.number(u64::from(pieces));
    line.word(b"visible");
    line.number(counts.visible as u64);
    line.word(b"occluded");
    line.number(counts.occluded as u64);
    line.word(b"outside");
    line.number(counts.outside as u64);
    line.end();
    line
}

/// Writes a frame's line: the number of its pieces, and how many objects have each verdict. Failed and Memory are the
/// sink's; after an error a beginning of the line that isn't the whole was appended.
pub fn write_summary<W: Sink>(
    sink: &mut W,
    frame: u32,
    pieces: u32,
    verdicts: &FrameVerdicts,
) -> Result<(), SinkError>
    ensures { Writes (W.says sink.old) (W.says sink.new) result (summary_line frame pieces verdicts.now) }
{
    counts_line(frame, pieces, verdicts.counts()).write_to(sink)
}
