//! What a frame is made of: the scene's vertices through its camera, and its pieces.
ghost use Rattle.std.specs.Prelude.{◌≡◌, ◌<◌, length, IfOk};
ghost use Rattle.scene_reader.specs.Layout.{IsScene};
ghost use Rattle.cull_report.specs.Listed.{listed_by};
ghost use Rattle.cull_report.specs.Scene.{frame_clips, frame_list};

use camera_path::{Camera, clip_into};
use cull_base::{ClipVertex, FrameList, Memory, Near};
use scene_reader::Scene;
use snap_setup::{Occluders, frame_list_by_workers};
use std::alloc::Global;
use std::sync::Wait;
use std::thread::Threads;

/// The scene's vertices through a frame's camera. Condition: there is a place for each.
pub fn clip_frame<R: Threads + Wait + Sync>(
    rt: &R,
    scene: &Scene,
    frame: u32,
    clips: &mut [ClipVertex],
)
    requires frame { frame < length scene.now.cameras }
    requires places { length clips.old ≡ length scene.now.vertices }
    ensures clips { clips.new ≡ frame_clips scene.now frame }
    ensures places { length clips.new ≡ length clips.old }
{
    let camera = Camera(scene.cameras()[frame as usize]);
    clip_into(rt, &camera, scene.vertices(), clips);
}

/// The triangles of a frame that hide what is behind them. Its clauses alone ask for the frame's number.
pub fn occluders_of<'a>(scene: &'a Scene, _frame: u32, clips: &'a [ClipVertex]) -> Occluders<'a>
    requires { clips.now ≡ frame_clips scene.now _frame }
    ensures list { listed_by result ≡ frame_list scene.now _frame }
    ensures scene { IsScene scene.now }
{
    Occluders {
        clips,
        tris: scene.occluders(),
        near: Near {
            distance: scene.near(),
        },
        size: scene.size(),
        batches: scene.batches(),
        grade: scene.grade(),
    }
}

/// The pieces of a frame, in submission order. Its clauses alone ask for the frame's number.
pub fn pieces_of<R: Threads + Sync>(
    rt: &R,
    alloc: Global,
    scene: &Scene,
    _frame: u32,
    clips: &[ClipVertex],
    workers: u32,
) -> Result<FrameList, Memory>
    requires { clips.now ≡ frame_clips scene.now _frame }
    ensures list { IfOk result (λ f. f.list ≡ frame_list scene.now _frame) }
    ensures scene { IsScene scene.now }
{
    let occluders = occluders_of(scene, _frame, clips);
    frame_list_by_workers(rt, alloc, &occluders, workers)
}
