//! Looks at objects while their frame is drawn.
ghost use Rattle.std.specs.Prelude.{◌≡◌, ℕ, ◌<◌, ◌≤◌, length, slice_index};
ghost use Rattle.cull_base.specs.Screen.{tile_count_of};
ghost use Rattle.cull_report.specs.Scene.{frame_list, size_of};
ghost use Rattle.tile_cells.specs.Standing.{IsReading};
ghost use Rattle.tile_queues.specs.Callers.{Follows};
ghost use Rattle.frame_reports.specs.LiveFrames.{HaveMarks, HaveSettled, IsSettledWhere, IsWatching, RoomFor, Tells, prefixed_settled};

use cull_base::ClipVertex;
use cull_report::{LiveLine, object_area, object_settled, object_verdict};
use scene_reader::Scene;
use std::sync::Wait;
use std::thread::Threads;
use tile_cells::{Snapshot, TileCells, TileReader};
use tile_queues::{Caller, Gate};

/// The first so many objects of a scene, in a frame whose clip vertices these are.
#[derive(Drop)]
pub struct Watched<'a> {
    pub scene: &'a Scene,
    pub frame: u32,
    pub clips: &'a [ClipVertex],
    pub objects: u32,
}

// The numbers of a look: of its round, and of the object that it is at.
#[derive(Clone, Copy)]
struct Numbers {
    round: u32,
    object: u32,
}

// Looks at an object and fills its line: its verdict over the tiles of its area as they stand now. Conditions: the line
// has room for those tiles, and the reader is of the frame's list.
fn look<R: Wait>(
    rt: &R,
    cells: &TileCells,
    reader: &mut TileReader,
    watched: &Watched,
    numbers: Numbers,
    snapshot: &mut Snapshot,
    line: &mut LiveLine,
)
    requires watched { IsWatching watched.now.scene.now watched.now.frame watched.now.objects watched.now.clips.now }
    requires object { numbers.object < watched.now.objects }
    requires reader { IsReading cells.now (frame_list watched.now.scene.now watched.now.frame) reader.old }
    requires size { snapshot.old.size ≡ size_of watched.now.scene.now }
    requires room { RoomFor watched.now.scene.now watched.now.frame numbers.object line.old.room }
    ensures told { Tells watched.now.scene.now watched.now.frame numbers.round numbers.object
        (λ t. slice_index reader.new.seen t) line.new }
    ensures rises { (t : ℕ) → t < tile_count_of (size_of watched.now.scene.now)
        → slice_index reader.old.seen t ≤ slice_index reader.new.seen t }
    ensures reader { IsReading cells.now (frame_list watched.now.scene.now watched.now.frame) reader.new }
    ensures size { snapshot.new.size ≡ size_of watched.now.scene.now }
    ensures room { line.new.room ≡ line.old.room }
{
    let Numbers { round, object } = numbers;
    let area = object_area(watched.scene, watched.frame, watched.clips, object);
    reader.snapshot(rt, cells, area, snapshot);
    let verdict = object_verdict(
        watched.scene,
        watched.frame,
        watched.clips,
        object,
        snapshot,
    );
    line.fill(watched.frame, round, object, verdict, snapshot);
}

// Whether an object is settled over the tiles of its area as they stand now: by the references of these after as many
// members as the reader has seen then. Conditions: there is such an object, and the reader is of the frame's list.
fn is_settled<R: Wait>(
    rt: &R,
    cells: &TileCells,
    reader: &mut TileReader,
    watched: &Watched,
    object: u32,
    snapshot: &mut Snapshot,
) -> bool
    requires watched { IsWatching watched.now.scene.now watched.now.frame watched.now.objects watched.now.clips.now }
    requires object { object < length watched.now.scene.now.objects }
    requires reader { IsReading cells.now (frame_list watched.now.scene.now watched.now.frame) reader.old }
    requires size { snapshot.old.size ≡ size_of watched.now.scene.now }
    ensures value { result ≡ prefixed_settled watched.now.scene.now watched.now.frame
        (λ t. slice_index reader.new.seen t) object }
    ensures settled { IsSettledWhere watched.now.scene.now watched.now.frame object result }
    ensures rises { (t : ℕ) → t < tile_count_of (size_of watched.now.scene.now)
        → slice_index reader.old.seen t ≤ slice_index reader.new.seen t }
    ensures reader { IsReading cells.now (frame_list watched.now.scene.now watched.now.frame) reader.new }
    ensures size { snapshot.new.size ≡ size_of watched.now.scene.now }
{
    let clips = watched.clips;
    let area = object_area(watched.scene, watched.frame, clips, object);
    reader.snapshot(rt, cells, area, snapshot);
    object_settled(watched.scene, watched.frame, clips, object, snapshot)
}

// Looks once at each object of the scene, and marks those that are settled. Conditions: there is a mark for each, and
// the reader is of the frame's list.
fn mark_settled<R: Wait>(
    rt: &R,
    cells: &TileCells,
    reader: &mut TileReader,
    watched: &Watched,
    snapshot: &mut Snapshot,
    marks: &mut Vec<bool>,
)
    requires watched { IsWatching watched.now.scene.now watched.now.frame watched.now.objects watched.now.clips.now }
    requires reader { IsReading cells.now (frame_list watched.now.scene.now watched.now.frame) reader.old }
    requires size { snapshot.old.size ≡ size_of watched.now.scene.now }
    requires marks { length marks.old.items ≡ length watched.now.scene.now.objects }
    ensures value { HaveMarks watched.now.scene.now watched.now.frame reader.old reader.new marks.new.items }
    ensures settled { HaveSettled watched.now.scene.now watched.now.frame marks.new.items }
    ensures marks { length marks.new.items ≡ length marks.old.items }
    ensures follows { Follows reader.old reader.new }
{
    // accessors tell that there is a cell for each tile, and what is held of a scene
    let (_tiles, _near) = (reader.len(), watched.scene.near());
    for object in 0..watched.scene.objects().len() as u32 {
        marks[object as usize] = is_settled(rt, cells, reader, watched, object, snapshot);
    }
}

/// Looks at each watched object in each round, and keeps what it saw: a line for each look, round after round. Then it
/// marks the objects of the scene that are settled, if it is to.
#[derive(Drop)]
pub struct LiveCaller<'a, G: Gate> {
    pub watched: Watched<'a>,
    pub gate: &'a G,
    pub snapshot: Snapshot,
    pub lines: Vec<LiveLine>,
    /// Whether it marks objects.
    pub early: bool,
    /// A mark for each object.
    pub settled: Vec<bool>,
}

impl<'a, G: Gate> Caller for LiveCaller<'a, G> {
    ghost use Rattle.std.specs.Prelude.{◌≡◌, ◌<◌, ◌≤◌, length};
    ghost use Rattle.cull_report.specs.Scene.{size_of};
    ghost use Rattle.frame_reports.specs.LiveFrames.{HaveLooked, HaveSettled, IsReady};

    ghost ready = { λ s list. IsReady s.watched.scene.now s.watched.frame s.watched.objects s.watched.clips.now
        s.snapshot.size s.lines.items s.settled.items list };

    ghost done = { λ s list reader. HaveLooked s.watched.scene.now s.watched.frame s.watched.objects s.lines.items
        × HaveSettled s.watched.scene.now s.watched.frame s.settled.items };

    ghost keeps = { λ s t. (t.watched.scene.now ≡ s.watched.scene.now) × (t.watched.frame ≡ s.watched.frame)
        × (t.watched.objects ≡ s.watched.objects) × (length t.lines.items ≡ length s.lines.items)
        × (length t.settled.items ≡ length s.settled.items) };

    fn beside<R: Threads + Wait + Sync>(
        &mut self,
        rt: &R,
        cells: &TileCells,
        reader: &mut TileReader,
    ) {
        // an accessor tells that there is a cell for each tile
        let _tiles = reader.len();
        for place in 0..self.lines.len() {
            let number = place as u32;
            let round = number / self.watched.objects;
            let object = number % self.watched.objects;
            self.gate.looks(round, object);
            look(
                rt,
                cells,
                reader,
                &self.watched,
                Numbers { round, object },
                &mut self.snapshot,
                &mut self.lines[place],
            );
        }
        if self.early {
            mark_settled(
                rt,
                cells,
                reader,
                &self.watched,
                &mut self.snapshot,
                &mut self.settled,
            );
        }
    }
}
