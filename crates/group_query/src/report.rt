//! The verdicts of a frame's objects by groups, and how many groups are hidden.
ghost use Rattle.std.specs.Prelude.{◌≡◌, length, IfOk};
ghost use Rattle.cull_report.specs.Scene.{size_of, verdicts_in};
ghost use Rattle.cull_report.specs.Tallies.{Adds};
ghost use Rattle.group_query.specs.Grouping.{AreApart};
ghost use Rattle.group_query.specs.Hidden.{IsReported, told_before};
ghost use Rattle.masked_update.specs.Views.{state_in};

use crate::grouped::Grouped;
use crate::grouping::Group;
use cull_base::{Memory, Verdict};
use cull_report::{
    Answers, Asked, FrameVerdicts, answers_by_workers, answers_with_lines, thread_count,
};
use masked_update::TileView;
use std::alloc::Global;
use std::sync::Wait;
use std::thread::Threads;

/// Each object's verdict, with the lines of all where they were made; how many groups are hidden, and how many members
/// of these count.
#[derive(Drop)]
pub struct GroupReport {
    pub frame: FrameVerdicts,
    pub hidden: u32,
    pub members: u32,
}

impl GroupReport {
    pub fn verdicts(&self) -> &[Verdict]
        ensures { result.now ≡ self.now.frame }
    {
        self.frame.list()
    }

    pub fn hidden(&self) -> u32
        ensures { result ≡ self.now.hidden }
    {
        self.hidden
    }

    pub fn members(&self) -> u32
        ensures { result ≡ self.now.members }
    {
        self.members
    }
}

// What is reported by the answers of all objects.
fn report_of<V: TileView>(_grouped: &Grouped<V>, answers: Answers) -> GroupReport
    requires verdicts { let a = _grouped.now.asked.now in
        answers.verdicts ≡ verdicts_in a.scene.now a.frame (V.tile_of a.view.now) }
    requires told { let a = _grouped.now.asked.now in
        let told = told_before a.scene.now a.frame (state_in (size_of a.scene.now) (V.tile_of a.view.now)) in
        Adds (told _grouped.now.groups.now 0) answers.tally
        (told _grouped.now.groups.now (length (verdicts_in a.scene.now a.frame (V.tile_of a.view.now)))) }
    ensures { let a = _grouped.now.asked.now in
        IsReported a.scene.now a.frame (V.tile_of a.view.now) _grouped.now.groups.now result }
{
    let (hidden, members) = (answers.tally.hidden, answers.tally.members);
    GroupReport {
        frame: answers.verdicts,
        hidden,
        members,
    }
}

/// Each object's verdict as `verdicts` gives it, and how many groups are hidden, by so many workers side by side where
/// there is much to ask. Runs of objects end where groups of so many do, if boxes come first. Err where memory gave
/// out.
pub fn group_verdicts_by_workers<R: Threads + Wait + Sync, V: TileView + Sync>(
    rt: &R,
    alloc: Global,
    grouped: &Grouped<V>,
    workers: u32,
    most: u32,
) -> Result<GroupReport, Memory>
    ensures { let a = grouped.now.asked.now in
        IfOk result (IsReported a.scene.now a.frame (V.tile_of a.view.now) grouped.now.groups.now) }
{
    let threads = thread_count(grouped.asked.scene, workers);
    let answers = answers_by_workers(rt, alloc, grouped, threads, most)?;
    Ok(report_of(grouped, answers))
}

/// The same by the caller's thread alone, with the lines made at once, in the pieces in which the lines by so many
/// workers are written. Err where memory gave out.
pub fn group_verdicts_with_lines<V: TileView>(
    alloc: Global,
    grouped: &Grouped<V>,
    workers: u32,
    most: u32,
) -> Result<GroupReport, Memory>
    ensures { let a = grouped.now.asked.now in
        IfOk result (IsReported a.scene.now a.frame (V.tile_of a.view.now) grouped.now.groups.now) }
{
    let threads = thread_count(grouped.asked.scene, workers);
    let answers = answers_with_lines(alloc, grouped, threads, most)?;
    Ok(report_of(grouped, answers))
}

/// Each object's verdict in a frame over the view, as `verdicts` gives it, and how many groups are hidden, with how
/// many members that count. These aren't tested if the group is the first, or the group before was hidden too.
/// Condition: the groups are those that `groups` gives of the scene, or others in order.
pub fn group_verdicts<'a, V: TileView>(
    alloc: Global,
    asked: &'a Asked<'a, V>,
    groups: &'a [Group],
) -> Result<GroupReport, Memory>
    requires { AreApart (length asked.now.scene.now.objects) groups.now }
    ensures { let a = asked.now in
        IfOk result (IsReported a.scene.now a.frame (V.tile_of a.view.now) groups.now) }
{
    let grouped = Grouped { asked, groups };
    group_verdicts_with_lines(alloc, &grouped, 1, 1)
}
