//! All vertices of a scene as a camera sees them.
ghost use Rattle.std.specs.Prelude.{◌≡◌, ◌^◌, ◌<◌, [], map, length, slice_index_or, IfOk};
ghost use Rattle.std.specs.List.{All};
ghost use Rattle.camera_path.specs.Clip.{clip_of, AreWithin};

use crate::camera::Camera;
use cull_base::{ClipVertex, Memory};
use side_by_side::for_each_share;
use std::alloc::Global;
use std::sync::Wait;
use std::thread::{Threads, available_parallelism};

/// So many vertices are worth a thread's start.
const SHARE: usize = 8192;

// One for each share of the work, and no more than there are processors. These are looked up only where there is work
// for two.
fn thread_count<R: Threads>(rt: &R, vertices: usize) -> usize {
    let shares = vertices / SHARE;
    if shares < 2 {
        return 1;
    }
    match available_parallelism(rt) {
        Ok(processors) => shares.min(processors.get()),
        Err(_) => 1,
    }
}

/// Writes where each vertex lies as a camera sees it, in order, by several threads where there are many vertices.
/// Conditions: there are as many places as vertices, and the camera's numbers and the vertices' are at most 2^24 away
/// from 0.
pub fn clip_into<R: Threads + Wait + Sync>(
    rt: &R,
    camera: &Camera,
    vertices: &[[i32; 3]],
    clips: &mut [ClipVertex],
)
    requires places { length clips.old ≡ length vertices.now }
    requires camera { AreWithin (2 ^ 24) camera.now.0 }
    requires vertices { All (AreWithin (2 ^ 24)) vertices.now }
    ensures { clips.new ≡ map (clip_of camera.now.0) vertices.now }
{
    let threads = thread_count(rt, vertices.len());
    for_each_share(
        rt,
        clips,
        threads,
        &|i: usize, clip: &mut ClipVertex|
            requires place { i < length vertices.now }
            requires camera { AreWithin (2 ^ 24) camera.now.0 }
            requires vertices { All (AreWithin (2 ^ 24)) vertices.now }
            ensures { clip.new ≡ clip_of camera.entry.now.0 (slice_index_or vertices.entry.now i []) }
        { *clip = camera.clip(&vertices[i]) },
    );
}

/// Where each vertex lies as a camera sees it, in order. Err: out of memory. Condition: the camera's numbers and the
/// vertices' are at most 2^24 away from 0.
pub fn clip_all<R: Threads + Wait + Sync>(
    rt: &R,
    alloc: Global,
    camera: &Camera,
    vertices: &[[i32; 3]],
) -> Result<Vec<ClipVertex>, Memory>
    requires camera { AreWithin (2 ^ 24) camera.now.0 }
    requires vertices { All (AreWithin (2 ^ 24)) vertices.now }
    ensures { IfOk result (λ v. v.items ≡ map (clip_of camera.now.0) vertices.now) }
{
    let nowhere = ClipVertex { x: 0, y: 0, w: 0 };
    let mut clips = vec![in alloc; nowhere; vertices.len()].map_err(|_| Memory)?;
    clip_into(rt, camera, vertices, clips.as_mut_slice());
    Ok(clips)
}
