//! The scene that a seed makes.
ghost use Rattle.std.specs.Prelude.{◌≡◌, ℕ, [], ◌∷◌, IfOk, OnOk, ◌≤◌, ◌<◌, ◌*◌, map};
ghost use Rattle.std.specs.List.{flat_map, range_with_len};
ghost use Rattle.demo_scene.specs.Demo.{demo_of, state_after, vertices_of, triangle_of, whole_batch};
ghost use Rattle.demo_scene.specs.Demo.{boxes_of, camera_of, box_count, frame_count};

use crate::generator::Generator;
use cull_base::{Batch, Grade, Memory, Object, Tri, Winding};
use scene_reader::{Scene, SceneParts};
use std::alloc::{AllocError, Global};

/// How many boxes the scene has.
pub const BOXES: u32 = 500;

/// How many frames it has.
pub const FRAMES: u32 = 4;

// The vertices of so many triangles, three of each.
fn vertices(
    alloc: Global,
    generator: &mut Generator,
    triangles: u32,
) -> Result<Vec<[i32; 3]>, AllocError>
    ensures value { IfOk result (λ v.
        v.items ≡ flat_map (vertices_of generator.old.state) (range_with_len 0 triangles)) }
    ensures state { OnOk result (generator.new.state ≡ state_after generator.old.state (12 * triangles)) }
{
    let mut vertices = Vec::new(alloc);
    for _triangle in 0..triangles {
        let corners = generator.triangle();
        vertices.extend_from_slice(&corners)?;
    }
    Ok(vertices)
}

// Triangles that each have three vertices of their own, in order. Condition: there are at most 65,536.
fn occluders(alloc: Global, triangles: u32) -> Result<Vec<Tri>, AllocError>
    requires { triangles ≤ 65536 }
    ensures { IfOk result (λ v. v.items ≡ map triangle_of (range_with_len 0 triangles)) }
{
    let mut occluders = Vec::new(alloc);
    for i in 0..triangles {
        occluders.push(Tri([3 * i, 3 * i + 1, 3 * i + 2]))?;
    }
    Ok(occluders)
}

// One batch of so many triangles, of which none is dropped.
fn whole_batch(alloc: Global, triangles: u32) -> Result<Vec<Batch>, AllocError>
    ensures { IfOk result (λ v. v.items ≡ whole_batch triangles ∷ []) }
{
    let mut batches = Vec::new(alloc);
    batches.push(Batch {
        count: triangles,
        winding: Winding::Both,
    })?;
    Ok(batches)
}

fn boxes(alloc: Global, generator: &mut Generator) -> Result<Vec<Object>, AllocError>
    ensures { IfOk result (λ v. v.items ≡ boxes_of generator.old.state 0 box_count) }
{
    let mut boxes = Vec::new(alloc);
    for _box in 0..BOXES {
        boxes.push(generator.object())?;
    }
    Ok(boxes)
}

// The camera of a frame, which looks along z: it moves to the right and onward from frame to frame.
fn camera_of(frame: u32) -> [i32; 12]
    requires { frame < frame_count }
    ensures { result ≡ camera_of frame }
{
    let right = 500 * frame as i32;
    let onward = 100 * frame as i32;
    [
        36_864, 0, 0, -right, //
        0, 65_536, 0, 0, //
        0, 0, 65_536, -onward,
    ]
}

fn cameras(alloc: Global) -> Result<Vec<[i32; 12]>, AllocError>
    ensures { IfOk result (λ v. v.items ≡ map camera_of (range_with_len 0 frame_count)) }
{
    let mut cameras = Vec::new(alloc);
    for frame in 0..FRAMES {
        cameras.push(camera_of(frame))?;
    }
    Ok(cameras)
}

// The parts of that scene, which are valid.
fn demo_parts(alloc: Global, seed: u64, triangles: u32) -> Result<SceneParts, AllocError>
    requires { triangles ≤ 65536 }
    ensures { IfOk result (λ p. p ≡ demo_of seed triangles) }
{
    let mut generator = Generator { state: seed };
    let vertices = vertices(alloc, &mut generator, triangles)?;
    let objects = boxes(alloc, &mut generator)?;
    Ok(SceneParts {
        version: 1,
        width: 1280,
        height: 720,
        near: 16,
        grade: Grade::Narrow,
        vertices,
        occluders: occluders(alloc, triangles)?,
        batches: whole_batch(alloc, triangles)?,
        object_tris: Vec::new(alloc),
        objects,
        cameras: cameras(alloc)?,
    })
}

/// A scene of so many random triangles and 500 boxes, seen from four cameras; the same for the same seed. Err: out of
/// memory. Condition: there are at most 65,536 triangles.
pub fn demo_scene(alloc: Global, seed: u64, triangles: u32) -> Result<Scene, Memory>
    requires { triangles ≤ 65536 }
    ensures { IfOk result (λ s. s ≡ demo_of seed triangles) }
{
    let Ok(parts) = demo_parts(alloc, seed, triangles) else {
        return Err(Memory);
    };
    match Scene::new(parts) {
        Ok(scene) => Ok(scene),
        Err(_) => unreachable!(),
    }
}
