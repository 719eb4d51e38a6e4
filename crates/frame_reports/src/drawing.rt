//! The drawing of a frame, and its objects tested over what was drawn.
ghost use Rattle.std.specs.Prelude.{◌≡◌, ◌<◌, ◌≤◌, length, IfOk, OnOk};
ghost use Rattle.cull_base.specs.Tiles.{ArePieces};
ghost use Rattle.cull_report.specs.Scene.{size_of, frame_clips, frame_pieces, frame_verdicts};
ghost use Rattle.bin_tiles.specs.BinViews.{table_of};
ghost use Rattle.bin_tiles.specs.Bins.{AreBinsAt};
ghost use Rattle.bin_tiles.specs.Plain.{StandsPlain};
ghost use Rattle.command_words.specs.Words.{AreInRange};
ghost use Rattle.frame_reports.specs.Frames.{AreCounted, HasMembers, HasMembers-prop, groups_beside, rounds_of, watch_of};

use crate::frames::{
    Asking, Beside, Frame, FrameLines, drawn_pieces, step_of, unset_marks, verdicts_by,
};
use binning::batch_size;
use command_words::Settings;
use cull_base::{ClipVertex, FrameList, Memory};
use cull_report::Asked;
use group_query::{Group, Grouped};
use masked_update::Canvas;
use plain_turns::draw_plain_frame;
use scene_reader::Scene;
use std::alloc::Global;
use std::sync::Wait;
use std::thread::Threads;
use tile_queues::{BinTable, BinView, Gate};

/// How frames are drawn, what is written of each, and what is noted beside. Conditions: the settings are in range,
/// there are at most 8 rounds of looks, at 8 objects, and groups may have a member.
#[derive(Drop)]
pub struct Plan<'a> {
    pub settings: &'a Settings,
    pub lines: FrameLines,
    pub beside: Beside,
    ghost in_range: { AreInRange settings.now },
    ghost few_rounds: { rounds_of beside ≤ 8 },
    ghost few_objects: { watch_of beside ≤ 8 },
    ghost members: { HasMembers beside } by { HasMembers-prop beside },
}

/// What all frames of a scene share while they are drawn. Conditions: the table is that of the screen and of the
/// settings' cut, and the groups are those whose line is noted.
#[derive(Drop)]
pub struct Drawing<'a, R, G> {
    pub rt: &'a R,
    pub alloc: Global,
    pub plan: &'a Plan<'a>,
    pub table: &'a BinTable,
    pub scene: &'a Scene,
    pub groups: &'a [Group],
    pub gate: &'a G,
    ghost is_table: { table.now ≡ table_of (size_of scene.now) plan.now.settings.now.cut },
    ghost are_groups: { groups.now ≡ groups_beside plan.now.beside scene.now },
}

// Draws a list into the plain tiles of bins, by as many workers as the settings ask for: whoever comes takes a bin that
// waits.
fn draw_into_bins<R: Threads + Wait + Sync, G: Gate>(
    drawing: &Drawing<R, G>,
    list: &FrameList,
) -> Result<Vec<Canvas>, Memory>
    ensures drawn { let drawn = length list.now.list.members in IfOk result (λ v.
        AreBinsAt StandsPlain (tt {0}) list.now.list drawing.now.plan.now.settings.now.cut drawn v.items) }
    ensures pieces { OnOk result (ArePieces list.now.list.members) }
{
    let (rt, alloc, settings) = (drawing.rt, drawing.alloc, drawing.plan.settings);
    // an accessor tells what is held of a list
    let _len = list.len();
    let batch = batch_size(list.len(), settings.batch);
    let (cut, workers, gate) = (&settings.cut, settings.workers, drawing.gate);
    draw_plain_frame(rt, alloc, list, cut, workers, batch, gate)
}

/// Draws a frame and then tests the objects, by workers as the settings ask: what each tile takes, and in which order,
/// is as by one thread that merges all pieces in order. Conditions: there is such a frame, and these are its clip
/// vertices.
pub fn draw_plainly<R: Threads + Wait + Sync, G: Gate>(
    drawing: &Drawing<R, G>,
    asking: Asking,
    frame: u32,
    clips: &[ClipVertex],
) -> Result<Frame, Memory>
    requires frame { frame < length drawing.now.scene.now.cameras }
    requires clips { clips.now ≡ frame_clips drawing.now.scene.now frame }
    ensures pieces { IfOk result (λ f. f.pieces ≡ length (frame_pieces drawing.now.scene.now frame)) }
    ensures verdicts { IfOk result (λ f. f.verdicts ≡ frame_verdicts drawing.now.scene.now frame) }
    ensures counted { IfOk result
        (λ f. AreCounted drawing.now.scene.now frame drawing.now.groups.now f.hidden f.members) }
    ensures valid { OnOk result (ArePieces (frame_pieces drawing.now.scene.now frame)) }
{
    let (rt, alloc, scene) = (drawing.rt, drawing.alloc, drawing.scene);
    let settings = drawing.plan.settings;
    let drawn = drawn_pieces(rt, alloc, scene, frame, clips, settings)?;
    let list = &drawn.list;
    let bins = draw_into_bins(drawing, list)?;
    let view = BinView::of(drawing.table, &bins, list);
    let settled = unset_marks(alloc, scene.objects().len())?;
    let asked = Asked {
        scene,
        frame,
        clips,
        view: &view,
        settled: &settled,
    };
    let grouped = Grouped {
        asked: &asked,
        groups: drawing.groups,
    };
    let report = verdicts_by(rt, alloc, &grouped, asking, step_of(drawing.plan.beside))?;
    Ok(Frame {
        pieces: drawn.listed,
        hidden: report.hidden,
        members: report.members,
        verdicts: report.frame,
    })
}
