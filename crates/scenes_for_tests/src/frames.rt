//! Frames of scenes that were read, for tests that draw or look by themselves.
ghost use Rattle.std.specs.Prelude.{◌≡◌, ◌<◌, length, IfOk};
ghost use Rattle.cull_report.specs.Scene.{frame_clips};

use cull_base::{ClipVertex, FrameList, SureSource};
use cull_report::{clip_frame, pieces_of};
use scene_reader::{Scene, read_scene};
use std::alloc::Global;
use std::sync::Wait;
use std::test::Fail;
use std::thread::Threads;

/// The scene of some bytes.
pub fn scene_from(alloc: Global, bytes: Vec<u8>) -> Result<Scene, Fail> {
    match read_scene(alloc, &mut SureSource::new(bytes)) {
        Ok(scene) => Ok(scene),
        Err(_) => Err(Fail::from("a scene")),
    }
}

/// The clip vertices of a frame. Condition: there is such a frame.
pub fn clips_of<R: Threads + Wait + Sync>(
    rt: &R,
    alloc: Global,
    scene: &Scene,
    frame: u32,
) -> Result<Vec<ClipVertex>, Fail>
    requires { frame < length scene.now.cameras }
    ensures { IfOk result (λ v. v.items ≡ frame_clips scene.now frame) }
{
    let nowhere = ClipVertex { x: 0, y: 0, w: 0 };
    let mut clips = vec![in alloc; nowhere; scene.vertices().len()]?;
    clip_frame(rt, scene, frame, &mut clips);
    Ok(clips)
}

/// The pieces of the first frame of a scene's bytes.
pub fn first_list<R: Threads + Wait + Sync>(
    rt: &R,
    alloc: Global,
    bytes: Vec<u8>,
) -> Result<FrameList, Fail> {
    let scene = scene_from(alloc, bytes)?;
    if scene.cameras().len() == 0 {
        return Err(Fail::from("a frame"));
    }
    let clips = clips_of(rt, alloc, &scene, 0)?;
    Ok(pieces_of(rt, alloc, &scene, 0, &clips, 1)?)
}
