//! The verdicts of a frame, with their lines where they were made at once.
ghost use Rattle.std.specs.Prelude.{◌≡◌, ◌<◌, ◌^◌, List, count_by, length, IfOk};
ghost use Rattle.cull_base.specs.declared.scene_types.Verdict.{Verdict};
ghost use Rattle.cull_base.specs.Stream.{Writes};
ghost use Rattle.cull_report.specs.FrameLines.{AreLinesOf};
ghost use Rattle.cull_report.specs.Runs.{AreRunsOf, IsRunSize};
ghost use Rattle.cull_report.specs.Text.{frame_text, is_occluded, is_outside, is_visible, verdict_lines};

use crate::counts::Counts;
use crate::report::{LINE, end_line, frame_line, lines_from, write_verdicts};
use crate::runs::{Run, run_count};
use cull_base::{Memory, Sink, SinkError, Verdict, write_whole};
use std::alloc::Global;
use std::marker::Model;

/// The lines of a frame's verdicts.
#[derive(Drop)]
pub(crate) enum LinesOf {
    /// They are made when they are written.
    Unmade,
    /// Workers made them, in runs of so many objects.
    Runs(Vec<Run>, usize),
    /// One thread made them: one text, which is written in pieces that end at these places.
    Text(Vec<u8>, Vec<usize>),
}

/// The verdicts of a frame's objects, in order, how many there are of each kind, and their lines.
#[derive(Drop)]
pub struct FrameVerdicts {
    list: Vec<Verdict>,
    counts: Counts,
    lines: LinesOf,
}

impl Model for FrameVerdicts {
    ghost use Rattle.std.specs.Prelude.{◌≡◌, List, count_by};
    ghost use Rattle.cull_base.specs.declared.scene_types.Verdict.{Verdict};
    ghost use Rattle.cull_report.specs.FrameLines.{AreLinesOf};
    ghost use Rattle.cull_report.specs.Text.{is_occluded, is_outside, is_visible};

    ghost Value = { List Verdict };

    ghost view = { λ v. v.list.items };

    ghost invariant = { λ v. AreLinesOf v.list.items v.lines
        × (v.counts.visible ≡ count_by is_visible v.list.items)
        × (v.counts.occluded ≡ count_by is_occluded v.list.items)
        × (v.counts.outside ≡ count_by is_outside v.list.items) };
}

// The verdicts of runs of a size, one run after the other.
fn joined(alloc: Global, runs: &[Run], _size: usize) -> Result<Vec<Verdict>, Memory>
    requires { (all : List Verdict) × AreRunsOf all _size runs.now }
    ensures { (all : List Verdict) → AreRunsOf all _size runs.now → IfOk result (λ v. v.items ≡ all) }
{
    let mut list = Vec::new(alloc);
    for run in runs {
        list.extend_from_slice(run.verdicts.as_slice())
            .map_err(|_| Memory)?;
    }
    Ok(list)
}

// Writes the lines of the runs of some verdicts, one run after the other.
fn write_runs<W: Sink>(
    sink: &mut W,
    _verdicts: &[Verdict],
    runs: &[Run],
    _size: usize,
) -> Result<(), SinkError>
    requires { AreRunsOf _verdicts.now _size runs.now }
    ensures { Writes (W.says sink.old) (W.says sink.new) result (verdict_lines 0 _verdicts.now) }
{
    for run in runs {
        write_whole(sink, run.lines.as_slice())?;
    }
    Ok(())
}

// The lines of some verdicts in one text, and where each so many lines end. Err where memory gave out.
fn text_with_ends(
    alloc: Global,
    verdicts: &[Verdict],
    size: usize,
) -> Result<(Vec<u8>, Vec<usize>), Memory>
    requires size { IsRunSize size }
    requires few { length verdicts.now < 2 ^ 32 }
    ensures { IfOk result (λ r. r.0.items ≡ verdict_lines 0 verdicts.now) }
{
    let pieces = run_count(verdicts.len() as u32, size);
    let mut text = Vec::with_capacity(alloc, LINE * verdicts.len()).map_err(|_| Memory)?;
    let mut ends = Vec::with_capacity(alloc, pieces).map_err(|_| Memory)?;
    for number in 0..pieces {
        let first = size * number;
        let end = first + size.min(verdicts.len() - first);
        let lines = lines_from(first, &verdicts[first..end]);
        let Ok(()) = text.extend_from_slice(lines.as_slice()) else {
            unreachable!()
        };
        ends.push_reserved(text.len());
    }
    Ok((text, ends))
}

// Writes a text in parts that end at these places. No clause says that they rise to the text's end, so each is clamped,
// and what is left behind the last is written too.
fn write_by_ends<W: Sink>(sink: &mut W, text: &[u8], ends: &[usize]) -> Result<(), SinkError>
    ensures { Writes (W.says sink.old) (W.says sink.new) result text.now }
{
    let mut from = 0usize;
    for end in ends {
        let end = (*end).clamp(from, text.len());
        write_whole(sink, &text[from..end])?;
        from = end;
    }
    write_whole(sink, &text[from..])
}

impl FrameVerdicts {
    // Verdicts with their lines, and how many there are of each kind.
    fn counted(list: Vec<Verdict>, lines: LinesOf) -> FrameVerdicts
        requires { AreLinesOf list.items lines }
        ensures { result ≡ list.items }
    {
        let counts = Counts::of(list.as_slice());
        FrameVerdicts {
            list,
            counts,
            lines,
        }
    }

    /// Verdicts without lines.
    pub(crate) fn plain(list: Vec<Verdict>) -> FrameVerdicts
        ensures { result ≡ list.items }
    {
        FrameVerdicts::counted(list, LinesOf::Unmade)
    }

    /// The verdicts of runs of a size, with their lines. Err where memory gave out.
    pub(crate) fn of_runs(
        alloc: Global,
        runs: Vec<Run>,
        size: usize,
    ) -> Result<FrameVerdicts, Memory>
        requires { (all : List Verdict) × AreRunsOf all size runs.items }
        ensures { (all : List Verdict) → AreRunsOf all size runs.items → IfOk result (λ v. v ≡ all) }
    {
        let list = joined(alloc, runs.as_slice(), size)?;
        Ok(FrameVerdicts::counted(list, LinesOf::Runs(runs, size)))
    }

    /// Verdicts with their lines in one text, which is written in pieces of so many lines. Err where memory gave out.
    pub(crate) fn with_lines(
        alloc: Global,
        list: Vec<Verdict>,
        size: usize,
    ) -> Result<FrameVerdicts, Memory>
        requires size { IsRunSize size }
        requires few { length list.items < 2 ^ 32 }
        ensures { IfOk result (λ v. v ≡ list.items) }
    {
        let (text, ends) = text_with_ends(alloc, list.as_slice(), size)?;
        Ok(FrameVerdicts::counted(list, LinesOf::Text(text, ends)))
    }

    pub fn list(&self) -> &[Verdict]
        ensures { result.now ≡ self.now }
    {
        self.list.as_slice()
    }

    /// How many of the verdicts are of each kind.
    pub fn counts(&self) -> Counts
        ensures visible { result.visible ≡ count_by is_visible self.now }
        ensures occluded { result.occluded ≡ count_by is_occluded self.now }
        ensures outside { result.outside ≡ count_by is_outside self.now }
    {
        self.counts
    }

    // Writes the lines of the verdicts, made before or now.
    fn write_lines<W: Sink>(&self, sink: &mut W) -> Result<(), SinkError>
        ensures { Writes (W.says sink.old) (W.says sink.new) result (verdict_lines 0 self.now) }
    {
        let verdicts = self.list.as_slice();
        match &self.lines {
            LinesOf::Unmade => write_verdicts(sink, verdicts),
            LinesOf::Runs(runs, size) => write_runs(sink, verdicts, runs.as_slice(), *size),
            LinesOf::Text(text, ends) => write_by_ends(sink, text.as_slice(), ends.as_slice()),
        }
    }

    /// Writes the frame's lines, as `write_frame` does of the list.
    pub fn write_frame<W: Sink>(
        &self,
        sink: &mut W,
        frame: u32,
        pieces: u32,
    ) -> Result<(), SinkError>
        ensures { Writes (W.says sink.old) (W.says sink.new) result (frame_text frame pieces self.now) }
    {
        frame_line(frame, pieces).write_to(sink)?;
        self.write_lines(sink)?;
        end_line(frame, self.counts()).write_to(sink)
    }
}
