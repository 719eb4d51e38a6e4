//! A frame that is looked at while it is drawn.
ghost use Rattle.std.specs.Prelude.{◌≡◌, ℕ, ◌*◌, ◌<◌, ◌≤◌, length, map, IfOk, OnOk};
ghost use Rattle.std.specs.List.{flat_map};
ghost use Rattle.cull_base.specs.Screen.{tile_count_of};
ghost use Rattle.cull_base.specs.Stream.{Writes};
ghost use Rattle.cull_base.specs.Tiles.{ArePieces};
ghost use Rattle.cull_report.specs.Live.{text_of_line, watched};
ghost use Rattle.cull_report.specs.Scene.{frame_clips, frame_list, frame_pieces, frame_verdicts};
ghost use Rattle.tile_cells.specs.Cells.{AreFresh, Reading};
ghost use Rattle.tile_cells.specs.Standing.{AreStanding, IsReading};
ghost use Rattle.tile_queues.specs.Callers.{Follows};
ghost use Rattle.tile_queues.specs.Frames.{HaveStates};
ghost use Rattle.frame_reports.specs.Frames.{AreCounted};
ghost use Rattle.frame_reports.specs.LiveFrames.{AreLive, HaveRoom, IsReady, IsWatching, RoomFor};
ghost use Rattle.frame_reports.specs.NotedLines.{NotesLines};

use crate::drawing::Drawing;
use crate::failure::Failure;
use crate::frames::{Asking, Frame, step_of, unset_marks, verdicts_by};
use crate::live_caller::{LiveCaller, Watched};
use binning::batch_size;
use cull_base::{ClipVertex, FrameList, Memory, Sink, SinkError, TileSpan};
use cull_report::{Asked, LiveLine, object_area, pieces_of, write_live};
use group_query::Grouped;
use masked_update::{PlainView, TileState};
use std::alloc::Global;
use std::sync::Wait;
use std::thread::Threads;
use steal_pool::draw_stolen;
use tile_cells::{Snapshot, TileCells, TileReader, TileWriter};
use tile_queues::{Caller, Gate, draw_frame};

/// What was drawn of a frame, and what was seen of it meanwhile.
#[derive(Drop)]
pub struct Seen {
    pub frame: Frame,
    pub lines: Vec<LiveLine>,
}

// A line with room for the tiles of an object's area.
fn make_line(alloc: Global, watched: &Watched, object: u32) -> Result<LiveLine, Memory>
    requires watched { IsWatching watched.now.scene.now watched.now.frame watched.now.objects watched.now.clips.now }
    requires object { object < watched.now.objects }
    ensures { IfOk result (λ l. RoomFor watched.now.scene.now watched.now.frame object l.room) }
{
    let area = object_area(watched.scene, watched.frame, watched.clips, object);
    let span = TileSpan::of(&area, watched.scene.size());
    LiveLine::with_room(alloc, span.columns() * span.rows())
}

// A line for each look.
fn make_lines(alloc: Global, watched: &Watched, rounds: u32) -> Result<Vec<LiveLine>, Memory>
    requires watched { IsWatching watched.now.scene.now watched.now.frame watched.now.objects watched.now.clips.now }
    requires rounds { rounds ≤ 8 }
    requires objects { watched.now.objects ≤ 8 }
    ensures count { IfOk result (λ v. length v.items ≡ rounds * watched.now.objects) }
    ensures room { IfOk result (λ v. HaveRoom watched.now.scene.now watched.now.frame watched.now.objects v.items) }
{
    let count = rounds * watched.objects;
    let mut lines = Vec::with_capacity(alloc, count as usize).map_err(|_| Memory)?;
    for place in 0..count {
        let line = make_line(alloc, watched, place % watched.objects)?;
        lines.push_reserved(line);
    }
    Ok(lines)
}

// Draws a list into new cells while the caller reads them, by workers as the settings ask: each draws the bins of its
// own, and takes bins from the others where it is to.
fn draw_into_cells<R: Threads + Wait + Sync, G: Gate, C: Caller>(
    drawing: &Drawing<R, G>,
    list: &FrameList,
    cells: &TileCells,
    writers: Vec<TileWriter>,
    reader: &mut TileReader,
    caller: &mut C,
) -> Result<Vec<TileWriter>, Memory>
    requires whole { length cells.now ≡ tile_count_of list.now.list.size }
    requires writers { AreFresh cells.now list.now.list (length cells.now) writers.items }
    requires reader { IsReading cells.now list.now.list reader.old }
    requires ready { C.ready caller.old list.now.list }
    ensures standing { IfOk result (λ v.
        AreStanding cells.now list.now.list (length list.now.list.members) v.items) }
    ensures done { OnOk result (C.done caller.new list.now.list reader.new) }
    ensures keeps { OnOk result (C.keeps caller.old caller.new) }
    ensures follows { OnOk result (Follows reader.old reader.new) }
    ensures pieces { OnOk result (ArePieces list.now.list.members) }
{
    let (rt, alloc, settings) = (drawing.rt, drawing.alloc, drawing.plan.settings);
    // an accessor tells what is held of a list
    let _len = list.len();
    let batch = batch_size(list.len(), settings.batch);
    let (cut, workers, gate) = (&settings.cut, settings.workers, drawing.gate);
    if settings.steal {
        return draw_stolen(
            rt, alloc, list, cells, writers, reader, cut, workers, batch, gate, caller,
        );
    }
    draw_frame(
        rt, alloc, list, cells, writers, reader, cut, workers, batch, gate, caller,
    )
}

// Draws a list through cells of its own, while the caller reads them.
fn draw_in_cells<R: Threads + Wait + Sync, G: Gate, C: Caller>(
    drawing: &Drawing<R, G>,
    list: &FrameList,
    caller: &mut C,
) -> Result<Vec<TileState>, Memory>
    requires ready { C.ready caller.old list.now.list }
    ensures tiles { IfOk result (λ v. length v.items ≡ tile_count_of list.now.list.size) }
    ensures drawn { IfOk result (λ v. HaveStates list.now.list v.items) }
    ensures pieces { OnOk result (ArePieces list.now.list.members) }
    ensures done { OnOk result ((r : Reading) × C.done caller.new list.now.list r) }
    ensures keeps { OnOk result (C.keeps caller.old caller.new) }
{
    // accessors tell what is held of a size and of a list
    let (_width, _len) = (list.size().width(), list.len());
    let (rt, alloc, workers) = (drawing.rt, drawing.alloc, drawing.plan.settings.workers);
    let (cells, writers, mut readers) = TileCells::make_by(rt, alloc, list, 1, workers)?;
    let writers = draw_into_cells(drawing, list, &cells, writers, &mut readers[0], caller)?;
    Ok(cells.close_by(rt, writers, readers, workers))
}

// A caller with a line for each look, and a mark for each object, of which none is set.
fn make_caller<'a, R, G: Gate>(
    drawing: &Drawing<'a, R, G>,
    rounds: u32,
    watch: u32,
    frame: u32,
    clips: &'a [ClipVertex],
) -> Result<LiveCaller<'a, G>, Memory>
    requires rounds { rounds ≤ 8 }
    requires objects { watch ≤ 8 }
    requires frame { frame < length drawing.now.scene.now.cameras }
    requires clips { clips.now ≡ frame_clips drawing.now.scene.now frame }
    ensures ready { IfOk result (λ c. IsReady c.watched.scene.now c.watched.frame c.watched.objects c.watched.clips.now
        c.snapshot.size c.lines.items c.settled.items (frame_list drawing.now.scene.now frame)) }
    ensures scene { IfOk result (λ c. c.watched.scene.now ≡ drawing.now.scene.now) }
    ensures frame { IfOk result (λ c. c.watched.frame ≡ frame) }
    ensures objects { IfOk result (λ c. c.watched.objects ≡ watched drawing.now.scene.now watch) }
    ensures lines { IfOk result (λ c. length c.lines.items ≡ rounds * watched drawing.now.scene.now watch) }
    ensures marks { IfOk result (λ c. length c.settled.items ≡ length drawing.now.scene.now.objects) }
{
    let (alloc, scene) = (drawing.alloc, drawing.scene);
    // an accessor tells what is held of a scene
    let _near = scene.near();
    let watched = Watched {
        scene,
        frame,
        clips,
        objects: watch.min(scene.objects().len() as u32),
    };
    let lines = make_lines(alloc, &watched, rounds)?;
    let snapshot = Snapshot::with_room(alloc, scene.size())?;
    let settled = unset_marks(alloc, scene.objects().len())?;
    Ok(LiveCaller {
        watched,
        gate: drawing.gate,
        snapshot,
        lines,
        early: drawing.plan.settings.early,
        settled,
    })
}

/// Draws a frame, looks at its first objects meanwhile, in so many rounds at so many, and tests all objects at its end.
/// Where the settings ask for it those that were settled meanwhile aren't tested. Conditions: at most 8 rounds and 8
/// objects, there is such a frame, and the clip vertices are its own.
pub fn draw_live<R: Threads + Wait + Sync, G: Gate>(
    drawing: &Drawing<R, G>,
    rounds: u32,
    watch: u32,
    frame: u32,
    clips: &[ClipVertex],
) -> Result<Seen, Memory>
    requires rounds { rounds ≤ 8 }
    requires objects { watch ≤ 8 }
    requires frame { frame < length drawing.now.scene.now.cameras }
    requires clips { clips.now ≡ frame_clips drawing.now.scene.now frame }
    ensures pieces { IfOk result (λ f. f.frame.pieces ≡ length (frame_pieces drawing.now.scene.now frame)) }
    ensures verdicts { IfOk result (λ f. f.frame.verdicts ≡ frame_verdicts drawing.now.scene.now frame) }
    ensures counted { IfOk result
        (λ f. AreCounted drawing.now.scene.now frame drawing.now.groups.now f.frame.hidden f.frame.members) }
    ensures valid { OnOk result (ArePieces (frame_pieces drawing.now.scene.now frame)) }
    ensures live { IfOk result (λ f. AreLive drawing.now.scene.now rounds watch frame f.lines.items) }
{
    let (rt, alloc, scene) = (drawing.rt, drawing.alloc, drawing.scene);
    let workers = drawing.plan.settings.workers;
    let list = pieces_of(rt, alloc, scene, frame, clips, workers)?;
    let mut caller = make_caller(drawing, rounds, watch, frame, clips)?;
    let states = draw_in_cells(drawing, &list, &mut caller)?;
    let view = PlainView::new(&states);
    let asked = Asked {
        scene,
        frame,
        clips,
        view: &view,
        settled: &caller.settled,
    };
    let grouped = Grouped {
        asked: &asked,
        groups: drawing.groups,
    };
    let step = step_of(drawing.plan.beside);
    let report = verdicts_by(rt, alloc, &grouped, Asking::Workers(workers), step)?;
    let frame = Frame {
        pieces: list.len(),
        hidden: report.hidden,
        members: report.members,
        verdicts: report.frame,
    };
    Ok(Seen {
        frame,
        lines: caller.lines,
    })
}

// Writes each line.
fn write_all<E: Sink>(notes: &mut E, lines: &[LiveLine]) -> Result<(), SinkError>
    ensures { Writes (E.says notes.old) (E.says notes.new) result (flat_map text_of_line lines.now) }
{
    for line in lines {
        write_live(notes, line)?;
    }
    Ok(())
}

/// Notes each line. NotesFault where that fails, and Memory where the sink is out of it.
pub fn note_lines<E: Sink>(notes: &mut E, lines: &[LiveLine]) -> Result<(), Failure>
    ensures { NotesLines (E.says notes.old) (E.says notes.new) result (flat_map text_of_line lines.now) }
{
    match write_all(notes, lines) {
        Ok(()) => Ok(()),
        Err(SinkError::Failed) => Err(Failure::NotesFault),
        Err(SinkError::Memory) => Err(Failure::Memory),
    }
}
