//! What is written of a frame, and noted beside.
ghost use Rattle.std.specs.Prelude.{◌≡◌, [], length};
ghost use Rattle.cull_base.specs.Stream.{Writes};
ghost use Rattle.cull_report.specs.Scene.{frame_pieces, frame_verdicts};
ghost use Rattle.group_query.specs.Text.{group_line};
ghost use Rattle.frame_reports.specs.FrameRuns.{LeavesFrames};
ghost use Rattle.frame_reports.specs.Frames.{AreCounted, AreSeen};
ghost use Rattle.frame_reports.specs.NotedLines.{NotesLines};
ghost use Rattle.frame_reports.specs.declared.frames.Beside.TheVariants.{Nothing};

use crate::drawing::Drawing;
use crate::failure::Failure;
use crate::frames::{Beside, Frame, write_lines};
use crate::live_frame::note_lines;
use cull_base::{Sink, SinkError};
use cull_report::LiveLine;
use group_query::group_line;

// Writes the line of a frame's groups, of so many. Failed and Memory are the sink's.
fn write_groups<E: Sink>(
    notes: &mut E,
    frame: u32,
    groups: usize,
    drawn: &Frame,
) -> Result<(), SinkError>
    ensures { Writes (E.says notes.old) (E.says notes.new) result
        (group_line frame groups drawn.now.hidden drawn.now.members) }
{
    group_line(frame, groups, drawn.hidden, drawn.members).write_to(notes)
}

// The same as a note. NotesFault where that fails, and Memory where the sink is out of it.
fn note_groups<E: Sink>(
    notes: &mut E,
    frame: u32,
    groups: usize,
    drawn: &Frame,
) -> Result<(), Failure>
    ensures { NotesLines (E.says notes.old) (E.says notes.new) result
        (group_line frame groups drawn.now.hidden drawn.now.members) }
{
    match write_groups(notes, frame, groups, drawn) {
        Ok(()) => Ok(()),
        Err(SinkError::Failed) => Err(Failure::NotesFault),
        Err(SinkError::Memory) => Err(Failure::Memory),
    }
}

/// Writes a frame's lines, and then notes what is noted beside: the lines of its looks, or that of its groups.
/// Condition: so the frame was drawn, and seen.
pub fn write_and_note<R, W: Sink, E: Sink, G>(
    drawing: &Drawing<R, G>,
    frame: u32,
    drawn: &Frame,
    lines: &[LiveLine],
    report: &mut W,
    notes: &mut E,
) -> Result<(), Failure>
    requires pieces { drawn.now.pieces ≡ length (frame_pieces drawing.now.scene.now frame) }
    requires verdicts { drawn.now.verdicts ≡ frame_verdicts drawing.now.scene.now frame }
    requires counted { AreCounted drawing.now.scene.now frame drawing.now.groups.now
        drawn.now.hidden drawn.now.members }
    requires seen { AreSeen drawing.now.plan.now.beside drawing.now.scene.now frame lines.now }
    ensures reported { LeavesFrames [] drawing.now.plan.now.lines drawing.now.plan.now.beside drawing.now.scene.now
        frame 1 result (W.says report.old) (W.says report.new) (E.says notes.old) (E.says notes.new) }
    ensures quiet { drawing.now.plan.now.beside ≡ Nothing → notes.new ≡ notes.old }
{
    write_lines(report, drawing.plan.lines, frame, drawn)?;
    match drawing.plan.beside {
        Beside::Looks { .. } => note_lines(notes, lines),
        Beside::Groups { .. } => note_groups(notes, frame, drawing.groups.len(), drawn),
        Beside::Nothing => Ok(()),
    }
}
