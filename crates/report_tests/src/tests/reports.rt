//! Lines that are filled from snapshots, and their texts. Objects that are settled over a tile.
ghost use Rattle.std.specs.Prelude.{◌≡◌, ◌≤◌, ◌<◌, length, All, IfOk, OnOk};
ghost use Rattle.cull_base.specs.Screen.{tile_count_of};
ghost use Rattle.cull_report.specs.Scene.{size_of};
ghost use Rattle.tile_cells.specs.Standing.{AreStanding, IsReading, StandsAt};

use cull_base::{
    Batch, BytesSink, FrameList, Grade, Memory, NO_PIXELS, Object, Rect, ScreenTri, SinkError,
    Size, SureSink, Verdict, Winding,
};
use cull_report::{
    Asked, LiveLine, object_settled, upgrade_keeps_texts, verdicts_by_workers, write_live,
};
use group_query::{GroupReport, group_verdicts, groups};
use masked_update::{PlainView, SubTile, TileState};
use scene_reader::{Scene, SceneParts};
use std::alloc::Global;
use std::sync::Wait;
use std::test::Fail;
use std::thread::Threads;
use tile_cells::{Snapshot, TileCells, TileReader, TileWriter};

// One piece on a screen of this size, with corners in sixteenths of a pixel.
fn one_piece(
    alloc: Global,
    width: u16,
    height: u16,
    xs: [i32; 3],
    ys: [i32; 3],
) -> Result<FrameList, Fail>
    ensures { IfOk result (λ l. 0 < length l.list.members) }
{
    let size = Size::new(width, height).ok_or("a size")?;
    let piece = ScreenTri::new(xs, ys, [32767, 32767, 32767]).ok_or("a piece")?;
    let mut list = FrameList::with_room(alloc, size, 1)?;
    list.push(piece);
    Ok(list)
}

// Cells of a list with their writers and one reader.
#[tactic(auto, using(tile_cells::proofs::Standing::new_reads))]
fn opened<R: Wait>(
    rt: &R,
    alloc: Global,
    list: &FrameList,
) -> Result<(TileCells, Vec<TileWriter>, Vec<TileReader>), Memory>
    ensures cells { IfOk result (λ r. length r.0 ≡ tile_count_of list.now.list.size) }
    ensures writers { IfOk result (λ r. AreStanding r.0 list.now.list 0 r.1.items) }
    ensures count { IfOk result (λ r. length r.2.items ≡ 1) }
    ensures readers { IfOk result (λ r. All (IsReading r.0 list.now.list) r.2.items) }
{
    let (cells, writers, readers) = TileCells::make(rt, alloc, list, 1)?;
    Ok((cells, writers, readers))
}

// Lets a writer take the first member if it is its tile's.
fn offer<R: Wait>(rt: &R, cells: &TileCells, writer: &mut TileWriter, list: &FrameList, _tile: u32)
    requires tile { _tile < tile_count_of list.now.list.size }
    requires some { 0 < length list.now.list.members }
    requires stands { StandsAt cells.now list.now.list 0 _tile writer.old }
{
    let piece = list.get(0);
    if piece.boxed().meets(&list.size().tile_rect(writer.tile())) {
        writer.take_next(rt, cells, piece);
    }
}

// What the first reader sees of an area.
fn look<R: Wait>(
    rt: &R,
    alloc: Global,
    cells: &TileCells,
    readers: &mut Vec<TileReader>,
    list: &FrameList,
    area: Rect,
) -> Result<Snapshot, Memory>
    requires some { 0 < length readers.old.items }
    requires read { All (IsReading cells.now list.now.list) readers.old.items }
{
    let mut snapshot = Snapshot::with_room(alloc, list.size())?;
    readers[0].snapshot(rt, cells, area, &mut snapshot);
    Ok(snapshot)
}

// A snapshot of an area, once the list's piece is drawn into one tile.
fn seen<R: Wait>(
    rt: &R,
    alloc: Global,
    list: &FrameList,
    tile: u32,
    area: Rect,
) -> Result<Snapshot, Memory>
    requires { 0 < length list.now.list.members }
{
    let (cells, mut writers, mut readers) = opened(rt, alloc, list)?;
    if tile < list.size().tile_count() {
        offer(rt, &cells, &mut writers[tile as usize], list, tile);
    }
    look(rt, alloc, &cells, &mut readers, list, area)
}

// A line of a snapshot.
#[tactic(auto, using(cull_report::proofs::LineRoom::few_on_screen))]
fn line_of(
    alloc: Global,
    frame: u32,
    round: u32,
    object: u32,
    verdict: Verdict,
    view: &Snapshot,
) -> Result<LiveLine, Memory> {
    let mut line = LiveLine::with_room(alloc, view.size().tile_count())?;
    line.fill(frame, round, object, verdict, view);
    Ok(line)
}

// The text of a line.
fn written(alloc: Global, line: &LiveLine) -> Result<SureSink, SinkError> {
    let mut sink = SureSink::new(alloc);
    write_live(&mut sink, line)?;
    Ok(sink)
}

fn pixels(x0: i32, y0: i32, x1: i32, y1: i32) -> Rect {
    Rect { x0, y0, x1, y1 }
}

#[test]
fn one_tile_after_one_piece(rt: HostRuntime) -> Result<(), Fail> {
    let list = one_piece(rt.alloc(), 32, 8, [0, 512, 512], [0, 0, 128])?;
    let view = seen(&rt, rt.alloc(), &list, 0, pixels(0, 0, 32, 8))?;
    let line = line_of(rt.alloc(), 0, 1, 0, Verdict::Visible, &view)?;
    assert_eq!(rt; (line.round(), line.len()), (1, 1));
    let text = written(rt.alloc(), &line)?;
    assert_eq!(rt; text.held(), b"live 0 1 0 visible 0:1\n".as_slice());
    // a write that fails leaves a front
    let mut sink = BytesSink::new(rt.alloc(), 7, Vec::from_slice(rt.alloc(), &[2u64])?);
    assert_eq!(rt; write_live(&mut sink, &line), Err(SinkError::Failed));
    assert_eq!(rt; sink.held(), b"live 0 ".as_slice());
    Ok(())
}

// Two columns and two rows of tiles, and a piece in the last of them; without tiles a line ends after its verdict.
#[test]
fn tiles_of_the_area_in_order(rt: HostRuntime) -> Result<(), Fail> {
    let list = one_piece(rt.alloc(), 40, 12, [512, 640, 640], [128, 128, 192])?;
    let (whole, corner) = (pixels(0, 0, 40, 12), pixels(32, 8, 64, 64));
    for (frame, object, verdict, area, wanted) in [
        (
            12,
            5,
            Verdict::Occluded,
            whole,
            "live 12 0 5 occluded 0:0 1:0 2:0 3:1\n",
        ),
        (0, 1, Verdict::Occluded, corner, "live 0 0 1 occluded 3:1\n"),
        (0, 2, Verdict::Outside, NO_PIXELS, "live 0 0 2 outside\n"),
    ] {
        let view = seen(&rt, rt.alloc(), &list, 3, area)?;
        let line = line_of(rt.alloc(), frame, 0, object, verdict, &view)?;
        assert_eq!(rt; written(rt.alloc(), &line)?.held(), wanted.as_bytes());
    }
    Ok(())
}

// A scene of one tile without vertices, with one frame and these objects.
fn scene_of(alloc: Global, objects: Vec<Object>, grade: Grade) -> Result<Scene, Fail> {
    scene_through(alloc, objects, grade, [0; 12])
}

// The same through a camera.
fn scene_through(
    alloc: Global,
    objects: Vec<Object>,
    grade: Grade,
    camera: [i32; 12],
) -> Result<Scene, Fail> {
    let none = Batch {
        count: 0,
        winding: Winding::DropCounter,
    };
    let parts = SceneParts {
        version: 2,
        width: 32,
        height: 8,
        near: 1,
        grade,
        vertices: Vec::new(alloc),
        occluders: Vec::new(alloc),
        batches: Vec::from_slice(alloc, &[none])?,
        object_tris: Vec::new(alloc),
        objects,
        cameras: Vec::from_slice(alloc, &[camera])?,
    };
    Ok(Scene::new(parts).ok().ok_or("a scene")?)
}

// The rectangle of the whole screen at two distances.
fn rectangles_at(alloc: Global, near: i32, far: i32, grade: Grade) -> Result<Scene, Fail> {
    let rect = pixels(0, 0, 32, 8);
    let objects = Vec::from_slice(
        alloc,
        &[
            Object::Area { rect, w: near },
            Object::Area { rect, w: far },
        ],
    )?;
    scene_of(alloc, objects, grade)
}

// A tile whose subtiles all have this reference, after two pieces.
fn tile_at(reference: u32) -> TileState
    requires { reference ≤ 32767 }
{
    let mut sub = SubTile::empty();
    sub.merge(reference, 0xFFFF_FFFF);
    TileState::of([sub; 8], 2)
}

// The scene has one tile, a frame and no vertices.
fn assure_bare(scene: &Scene) -> Result<(), Fail>
    ensures tile { OnOk result (tile_count_of (size_of scene.now) ≡ 1) }
    ensures frame { OnOk result (0 < length scene.now.cameras) }
    ensures vertices { OnOk result (length scene.now.vertices ≡ 0) }
{
    if scene.size().tile_count() != 1 || scene.cameras().is_empty() {
        return Err(Fail::new("a scene of one tile"));
    }
    if !scene.vertices().is_empty() {
        return Err(Fail::new("a scene without vertices"));
    }
    Ok(())
}

// Whether an object of a scene without vertices is settled over the scene's only tile.
fn is_settled(scene: &Scene, object: u32, tile: TileState) -> Result<bool, Fail> {
    assure_bare(scene)?;
    if object as usize >= scene.objects().len() {
        return Err(Fail::new("an object of the scene"));
    }
    let tiles = [tile];
    Ok(object_settled(scene, 0, &[], object, &PlainView::new(&tiles)))
}

// Each subtile of the first scene's tile ends with its reference at half of 65535.
#[test]
fn rectangle_behind_the_quad_is_settled_and_one_at_its_distance_is_not(
    rt: HostRuntime,
) -> Result<(), Fail> {
    let tile = tile_at(32767);
    let scene = rectangles_at(rt.alloc(), 2, 3, Grade::Narrow)?;
    assert!(rt; !is_settled(&scene, 0, tile)?);
    assert!(rt; is_settled(&scene, 1, tile)?);
    Ok(())
}

// At distances 1000 and 1001 a rectangle has 16778 and 16761 in the wide grade, 66 twice in the narrow one.
#[test]
fn wide_rectangles_differ_where_narrow_ones_are_alike(rt: HostRuntime) -> Result<(), Fail> {
    let tile = tile_at(16777);
    let wide = rectangles_at(rt.alloc(), 1000, 1001, Grade::Wide)?;
    assert!(rt; !is_settled(&wide, 0, tile)?);
    assert!(rt; is_settled(&wide, 1, tile)?);
    let narrow = rectangles_at(rt.alloc(), 1000, 1001, Grade::Narrow)?;
    assert!(rt; is_settled(&narrow, 0, tile)?);
    assert!(rt; is_settled(&narrow, 1, tile)?);
    Ok(())
}

#[test]
fn the_law_on_upgraded_scenes_is_called(rt: HostRuntime) {
    upgrade_keeps_texts();
}

// So many such rectangles, of which each third is far.
fn many_rectangles(alloc: Global, count: u32, near: i32, far: i32) -> Result<Scene, Fail> {
    let rect = pixels(0, 0, 32, 8);
    let mut objects = Vec::new(alloc);
    for k in 0..count {
        let w = if k % 3 == 0 { far } else { near };
        objects.push(Object::Area { rect, w })?;
    }
    scene_of(alloc, objects, Grade::Narrow)
}

// A frame's lines, by so many workers, and its report with boxes in groups of two, of a scene without vertices over the
// scene's only tile.
fn reported<R: Threads + Wait + Sync>(
    rt: &R,
    alloc: Global,
    scene: &Scene,
    tile: TileState,
    workers: u32,
) -> Result<(SureSink, GroupReport), Fail> {
    assure_bare(scene)?;
    let tiles = [tile];
    let view = PlainView::new(&tiles);
    let settled = vec![in alloc; false; scene.objects().len()]?;
    let marks = settled.as_slice();
    let asked = Asked {
        scene,
        frame: 0,
        clips: &[],
        view: &view,
        settled: marks,
    };
    let list = groups(alloc, scene, 2)?;
    let given = list.as_slice();
    let report = group_verdicts(alloc, &asked, given)?;
    let verdicts = verdicts_by_workers(rt, alloc, &asked, workers)?;
    let mut sink = SureSink::new(alloc);
    verdicts.write_frame(&mut sink, 0, 2)?;
    Ok((sink, report))
}

#[test]
fn lines_of_two_workers_are_those_of_one(rt: HostRuntime) -> Result<(), Fail> {
    let tile = tile_at(32767);
    let scene = many_rectangles(rt.alloc(), 1500, 2, 3)?;
    let (one, _) = reported(&rt, rt.alloc(), &scene, tile, 1)?;
    let (two, _) = reported(&rt, rt.alloc(), &scene, tile, 2)?;
    assert!(rt; one.held() == two.held());
    let last = b"end 0 visible 1000 occluded 500 outside 0\n".as_slice();
    assert!(rt; two.held().ends_with(last));
    Ok(())
}

// Of six boxes the first two are hidden behind the tile, and of the others each second one.
#[test]
fn groups_of_two_over_a_tile(rt: HostRuntime) -> Result<(), Fail> {
    let tile = tile_at(32767);
    let mut objects = Vec::new(rt.alloc());
    for z in [3, 4, 3, 2, 2, 3] {
        objects.push(Object::Block {
            low: [-1, -1, z],
            high: [1, 1, 6],
        })?;
    }
    let camera = [65536, 0, 0, 0, 0, 65536, 0, 0, 0, 0, 65536, 0];
    let scene = scene_through(rt.alloc(), objects, Grade::Narrow, camera)?;
    let (_, report) = reported(&rt, rt.alloc(), &scene, tile, 1)?;
    assert_eq!(rt; (report.hidden(), report.members()), (1, 2));
    let (hidden, shown) = (Verdict::Occluded, Verdict::Visible);
    let wanted = [hidden, hidden, hidden, shown, shown, hidden];
    assert!(rt; report.verdicts() == wanted.as_slice());
    Ok(())
}
