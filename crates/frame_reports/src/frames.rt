//! A frame of a scene: the pieces that are drawn, the verdicts of its objects, and the lines that are written of it.
ghost use Rattle.std.specs.Prelude.{◌≡◌, ◌<◌, ◌≤◌, length, IfOk, IfSome, replicate, false};
ghost use Rattle.cull_base.specs.Stream.{Writes};
ghost use Rattle.scene_reader.specs.Layout.{IsScene};
ghost use Rattle.cull_report.specs.Scene.{frame_clips, frame_list, frame_pieces, frame_verdicts};
ghost use Rattle.frame_reports.specs.DrawnFrames.{TookFrame};
ghost use Rattle.frame_reports.specs.DrawnPieces.{DrawsAs};
ghost use Rattle.frame_reports.specs.Frames.{AreCounted, HasMembers, beside_of, groups_beside, lines_by, rounds_of};
ghost use Rattle.frame_reports.specs.Frames.{watch_of};

use crate::summary::write_summary;
use command_words::Settings;
use cull_base::{ClipVertex, Memory, Sink, SinkError};
use cull_report::{FrameVerdicts, occluders_of, pieces_of};
use group_query::{
    Group, GroupReport, Grouped, group_verdicts_by_workers, group_verdicts_with_lines, groups,
};
use masked_update::TileView;
use scene_reader::Scene;
use snap_setup::{KeptList, sampled_list};
use std::alloc::Global;
use std::sync::Wait;
use std::thread::Threads;

/// What is written of a frame.
#[derive(Clone, Copy)]
pub enum FrameLines {
    /// The report's lines: each object's verdict.
    Report,
    /// The summary's line: how many objects have each verdict.
    Summary,
}

/// What is noted of a frame beside its lines.
#[derive(Clone, Copy)]
pub enum Beside {
    Nothing,
    /// The lines of looks while the frame is drawn: so many rounds of them, each at the first objects, of so many.
    Looks { rounds: u32, watch: u32 },
    /// The line of its groups of boxes, of at most so many each: how many are hidden.
    Groups { most: u32 },
}

/// Who tests a frame's objects.
#[derive(Clone, Copy)]
pub enum Asking {
    /// So many workers. Where they start threads these make the lines too, else a line is made when it is written.
    Workers(u32),
    /// The caller's thread alone, which makes the lines too: in the pieces in which they are written by so many
    /// workers.
    Caller(u32),
}

/// What a frame's lines tell: its pieces, its objects' verdicts, how many groups are hidden, and how many members of
/// these count.
#[derive(Drop)]
pub struct Frame {
    pub pieces: u32,
    pub verdicts: FrameVerdicts,
    pub hidden: u32,
    pub members: u32,
}

/// What is noted where boxes are taken in groups of at most so many, or not.
pub fn beside_of(group: Option<u32>) -> Beside
    requires { IfSome group (λ n. 1 ≤ n) }
    ensures value { result ≡ beside_of group }
    ensures members { HasMembers result }
    ensures rounds { rounds_of result ≡ 0 }
    ensures objects { watch_of result ≡ 0 }
{
    match group {
        Some(most) => Beside::Groups { most },
        None => Beside::Nothing,
    }
}

/// The groups of a scene whose line is noted beside; else none. Err: out of memory. Condition: a group may have a
/// member.
pub fn groups_beside(alloc: Global, beside: Beside, scene: &Scene) -> Result<Vec<Group>, Memory>
    requires { HasMembers beside }
    ensures { IfOk result (λ v. v.items ≡ groups_beside beside scene.now) }
{
    match beside {
        Beside::Nothing => Ok(Vec::new(alloc)),
        Beside::Looks { .. } => Ok(Vec::new(alloc)),
        Beside::Groups { most } => groups(alloc, scene, most),
    }
}

/// So many objects are a whole step of runs: the most members of a group.
pub fn step_of(beside: Beside) -> u32 {
    match beside {
        Beside::Nothing => 1,
        Beside::Looks { .. } => 1,
        Beside::Groups { most } => most,
    }
}

/// So many marks, none of them set.
pub fn unset_marks(alloc: Global, count: usize) -> Result<Vec<bool>, Memory>
    ensures { IfOk result (λ v. v.items ≡ replicate count false) }
{
    match vec![in alloc; false; count] {
        Ok(marks) => Ok(marks),
        Err(_) => Err(Memory),
    }
}

/// The verdicts of a frame's objects over tiles that have taken the whole frame, and which of the groups are hidden.
/// Runs of objects are made of whole steps.
pub fn verdicts_by<R: Threads + Wait + Sync, V: TileView + Sync>(
    rt: &R,
    alloc: Global,
    grouped: &Grouped<V>,
    asking: Asking,
    step: u32,
) -> Result<GroupReport, Memory>
    requires { let a = grouped.now.asked.now in TookFrame a.scene.now a.frame (V.tile_of a.view.now) }
    ensures verdicts { let a = grouped.now.asked.now in
        IfOk result (λ v. v.frame ≡ frame_verdicts a.scene.now a.frame) }
    ensures counted { let a = grouped.now.asked.now in
        IfOk result (λ v. AreCounted a.scene.now a.frame grouped.now.groups.now v.hidden v.members) }
{
    match asking {
        Asking::Workers(workers) => group_verdicts_by_workers(rt, alloc, grouped, workers, step),
        Asking::Caller(workers) => group_verdicts_with_lines(alloc, grouped, workers, step),
    }
}

/// The pieces of a frame that are drawn into plain tiles, and how many the frame has: where one worker draws in one
/// bin, those that may cover a sample of the screen, else all. Its clauses alone ask for the frame's number.
pub fn drawn_pieces<R: Threads + Sync>(
    rt: &R,
    alloc: Global,
    scene: &Scene,
    _frame: u32,
    clips: &[ClipVertex],
    settings: &Settings,
) -> Result<KeptList, Memory>
    requires { clips.now ≡ frame_clips scene.now _frame }
    ensures tiles { IfOk result (λ k. DrawsAs k.list.list (frame_list scene.now _frame)) }
    ensures listed { IfOk result (λ k. k.listed ≡ length (frame_pieces scene.now _frame)) }
    ensures scene { IsScene scene.now }
{
    if settings.workers == 1 && settings.cut.bins() == 1 {
        let occluders = occluders_of(scene, _frame, clips);
        return sampled_list(alloc, &occluders);
    }
    let list = pieces_of(rt, alloc, scene, _frame, clips, settings.workers)?;
    let listed = list.len();
    Ok(KeptList { list, listed })
}

/// Writes a frame's lines. Failed and Memory are the sink's.
pub fn write_lines<W: Sink>(
    report: &mut W,
    lines: FrameLines,
    frame: u32,
    drawn: &Frame,
) -> Result<(), SinkError>
    ensures { Writes (W.says report.old) (W.says report.new) result
        (lines_by lines frame drawn.now.pieces drawn.now.verdicts) }
{
    match lines {
        FrameLines::Report => drawn.verdicts.write_frame(report, frame, drawn.pieces),
        FrameLines::Summary => write_summary(report, frame, drawn.pieces, &drawn.verdicts),
    }
}
