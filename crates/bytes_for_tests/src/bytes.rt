//! The first scene, byte by byte, and what is asked of such bytes.
use cull_base::{Batch, BytesSource, SureSink, Winding};
use scene_reader::{Scene, SceneError, read_scene, write_scene};
use std::alloc::{AllocError, Global};
use std::test::Fail;

/// A screen of 32 by 8, a quad at distance 2 and a rectangle at distance 3 that covers the screen.
pub const FIRST_SCENE: [u8; 177] = [
    0x4d, 0x53, 0x4f, 0x43, 1, 0, 32, 0, 8, 0, 1, 0, 0, 0, 1, 0, 4, 0, 0, 0, 2, 0, 0, 0, 0, 0, 0,
    0, 1, 0, 0, 0, 0xfe, 0xff, 0xff, 0xff, 2, 0, 0, 0, 2, 0, 0, 0, 2, 0, 0, 0, 2, 0, 0, 0, 2, 0, 0,
    0, 2, 0, 0, 0, 0xfe, 0xff, 0xff, 0xff, 2, 0, 0, 0, 0xfe, 0xff, 0xff, 0xff, 0xfe, 0xff, 0xff,
    0xff, 2, 0, 0, 0, 0, 0, 0, 0, 1, 0, 0, 0, 2, 0, 0, 0, 0, 0, 0, 0, 2, 0, 0, 0, 3, 0, 0, 0, 0, 0,
    0, 0, 0, 0, 0, 0, 0, 32, 0, 0, 0, 8, 0, 0, 0, 3, 0, 0, 0, 0, 0, 0, 0, 0, 0, 1, 0, 0, 0, 0, 0,
    0, 0, 0, 0, 0, 0, 0, 0, 0, 0, 0, 0, 0, 0, 1, 0, 0, 0, 0, 0, 0, 0, 0, 0, 0, 0, 0, 0, 0, 0, 0, 0,
    0, 0, 1, 0, 0, 0, 0, 0,
];

/// Where its object begins; its last vertex begins at 68, the last index of its second triangle at 100.
pub const OBJECT: usize = 104;

/// Changes bytes at places: those that there are.
pub fn edit(bytes: &mut Vec<u8>, edits: &[(usize, u8)]) {
    for (place, value) in edits {
        if let Some(byte) = bytes.get_mut(*place) {
            *byte = *value;
        }
    }
}

/// A batch by its count and its winding.
pub fn batch(count: u32, winding: Winding) -> Batch {
    Batch { count, winding }
}

/// What these bytes are refused for as a scene, read in pieces of at most seven.
pub fn refusal_of(alloc: Global, bytes: Vec<u8>) -> Option<SceneError> {
    read_scene(alloc, &mut BytesSource::new(bytes, 7, Vec::new(alloc))).err()
}

/// The same with one byte more.
pub fn refusal_of_more(
    alloc: Global,
    mut bytes: Vec<u8>,
) -> Result<Option<SceneError>, AllocError> {
    bytes.push(0)?;
    Ok(refusal_of(alloc, bytes))
}

/// The refusal of a scene that is cut: how many bytes are needed, and how many there are.
pub fn cut(need: u32, have: u32) -> Option<SceneError> {
    Some(SceneError::Truncated { need, have })
}

/// What writing a scene leaves. Err: memory ran out.
pub fn written(alloc: Global, scene: &Scene) -> Result<SureSink, Fail> {
    let mut sink = SureSink::new(alloc);
    write_scene(scene, &mut sink)
        .ok()
        .ok_or("memory for a scene")?;
    Ok(sink)
}
