//! The command `picture`: one frame of a scene, drawn, and what its tiles hold written as a grey map.
ghost use Rattle.std.specs.Prelude.{◌≡◌, ◌<◌, length};
ghost use Rattle.cull_base.specs.Stream.{SinkSays};
ghost use Rattle.command_words.specs.Words.{AreInRange, IsWithinLimits};
ghost use Rattle.frame_reports.specs.FrameRuns.{LeavesTexts};
ghost use Rattle.frame_reports.specs.Failures.{status_by};
ghost use Rattle.frame_reports.specs.OutcomeOf.{text_alone};
ghost use Rattle.culling.specs.Picture.{frame_picture};
ghost use Rattle.frame_reports.specs.Leaves.{AwaitsNote};
ghost use Rattle.culling.specs.Runs.{Comes, streams};

use binning::batch_size;
use command_words::{Command, PictureWords, Settings};
use cull_base::{ClipVertex, Sink, Source};
use cull_report::clip_frame;
use depth_image::write_picture;
use frame_reports::{Failure, drawn_pieces};
use plain_turns::draw_plain_frame;
use scene_reader::{Scene, read_scene};
use std::alloc::Global;
use std::sync::Wait;
use std::thread::Threads;
use tile_queues::{BinTable, BinView, Gate};

// Draws a frame, tests no object of it, and writes its picture. Conditions: the settings are in range, and there is
// such a frame.
fn show_frame<R: Threads + Wait + Sync, W: Sink, G: Gate>(
    rt: &R,
    alloc: Global,
    settings: &Settings,
    scene: &Scene,
    frame: u32,
    report: &mut W,
    gate: &G,
) -> Result<(), Failure>
    requires settings { AreInRange settings.now }
    requires frame { frame < length scene.now.cameras }
    // So it is whatever the notes say, which aren't written.
    ensures { (notes : SinkSays) → LeavesTexts (text_alone (frame_picture scene.now frame)) result
        (W.says report.old) (W.says report.new) notes notes }
{
    let nowhere = ClipVertex { x: 0, y: 0, w: 0 };
    let mut room = vec![in alloc; nowhere; scene.vertices().len()].map_err(|_| Failure::Memory)?;
    let clips = room.as_mut_slice();
    clip_frame(rt, scene, frame, clips);
    let drawn = drawn_pieces(rt, alloc, scene, frame, clips, settings)?;
    let list = &drawn.list;
    let batch = batch_size(list.len(), settings.batch);
    let table = BinTable::of(alloc, scene.size(), &settings.cut)?;
    let bins = draw_plain_frame(
        rt,
        alloc,
        list,
        &settings.cut,
        settings.workers,
        batch,
        gate,
    )?;
    let view = BinView::of(&table, &bins, list);
    write_picture(report, scene.size(), scene.grade(), &view)?;
    Ok(())
}

/// Reads a scene to its end, draws one of its frames and writes the picture of it; nothing is noted. Where there is no
/// such frame, nothing is written.
pub fn picture<R: Threads + Wait + Sync, S: Source, W: Sink, E: Sink, G: Gate>(
    rt: &R,
    alloc: Global,
    words: &PictureWords,
    input: &mut S,
    report: &mut W,
    _notes: &mut E,
    gate: &G,
) -> Result<(), Failure>
    requires limits { IsWithinLimits (Command.Picture words.now) }
    ensures outcome { let before = streams (S.says input.old) (W.says report.old) (E.says _notes.old) in
        let after = streams (S.says input.new) (W.says report.new) (E.says _notes.new) in
        Comes (Command.Picture words.now) (status_by result) before after (AwaitsNote result)
        (report.new ≡ report.old) (_notes.new ≡ _notes.old) }
{
    let scene = read_scene(alloc, input)?;
    let frame = words.frame;
    let cameras = scene.cameras();
    let frames = cameras.len() as u32;
    if frames <= frame {
        return Err(Failure::Frame { frame, frames });
    }
    show_frame(rt, alloc, &words.settings, &scene, frame, report, gate)
}
