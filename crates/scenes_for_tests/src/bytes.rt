//! Scenes in bytes, and reports of the smallest.
use std::alloc::{AllocError, Global};

/// The first scene: a screen of 32 by 8, a quad at distance 2 and the rectangle of the whole screen at distance 3.
pub const FIRST: [u8; 177] = [
    0x4d, 0x53, 0x4f, 0x43, 1, 0, 0x20, 0, 8, 0, 1, 0, 0, 0, 1, 0, //
    4, 0, 0, 0, 2, 0, 0, 0, 0, 0, 0, 0, 1, 0, 0, 0, //
    0xfe, 0xff, 0xff, 0xff, 2, 0, 0, 0, 2, 0, 0, 0, //
    2, 0, 0, 0, 2, 0, 0, 0, 2, 0, 0, 0, //
    2, 0, 0, 0, 0xfe, 0xff, 0xff, 0xff, 2, 0, 0, 0, //
    0xfe, 0xff, 0xff, 0xff, 0xfe, 0xff, 0xff, 0xff, 2, 0, 0, 0, //
    0, 0, 0, 0, 1, 0, 0, 0, 2, 0, 0, 0, //
    0, 0, 0, 0, 2, 0, 0, 0, 3, 0, 0, 0, //
    0, 0, 0, 0, 0, 0, 0, 0, 0, 0x20, 0, 0, 0, 8, 0, 0, 0, 3, 0, 0, 0, 0, 0, 0, 0, //
    0, 0, 1, 0, 0, 0, 0, 0, 0, 0, 0, 0, 0, 0, 0, 0, //
    0, 0, 0, 0, 0, 0, 1, 0, 0, 0, 0, 0, 0, 0, 0, 0, //
    0, 0, 0, 0, 0, 0, 0, 0, 0, 0, 1, 0, 0, 0, 0, 0, //
];

pub const OCCLUDED: &str =
    "msoc-report 1 32 8 1 1\nframe 0 pieces 2\n0 occluded\nend 0 visible 0 occluded 1 outside 0\n";

pub const VISIBLE: &str =
    "msoc-report 1 32 8 1 1\nframe 0 pieces 2\n0 visible\nend 0 visible 1 occluded 0 outside 0\n";

pub const UNDRAWN: &str =
    "msoc-report 1 32 8 1 1\nframe 0 pieces 0\n0 visible\nend 0 visible 1 occluded 0 outside 0\n";

pub const QUAD: [[i32; 3]; 4] = [[-2, 2, 2], [2, 2, 2], [2, -2, 2], [-2, -2, 2]];

pub const TWO: [[u32; 3]; 2] = [[0, 1, 2], [0, 2, 3]];

pub const WHOLE: [i32; 5] = [0, 0, 32, 8, 3];

/// The bytes of a scene of one frame through the identity camera, on a screen of 32 by 8, with both windings drawn. An
/// object is its kind and six numbers.
pub fn scene_of(
    alloc: Global,
    vertices: &[[i32; 3]],
    triangles: &[[u32; 3]],
    object_triangles: &[[u32; 3]],
    objects: &[(u8, [i32; 6])],
) -> Result<Vec<u8>, AllocError> {
    let mut bytes = Vec::from_slice(alloc, b"MSOC")?;
    bytes.extend_from_slice(&[1, 0, 32, 0, 8, 0, 1, 0, 0, 0, 1, 0])?;
    let meshes = object_triangles.len();
    for count in [vertices.len(), triangles.len(), meshes, objects.len()] {
        bytes.extend_from_slice(&[(count % 256) as u8, 0, 0, 0])?;
    }
    for vertex in vertices {
        for number in vertex {
            bytes.extend_from_slice(&number.to_le_bytes())?;
        }
    }
    for table in [triangles, object_triangles] {
        for triangle in table {
            for number in triangle {
                bytes.extend_from_slice(&number.to_le_bytes())?;
            }
        }
    }
    for (kind, numbers) in objects {
        bytes.push(*kind)?;
        for number in numbers {
            bytes.extend_from_slice(&number.to_le_bytes())?;
        }
    }
    bytes.extend_from_slice(&FIRST[129..])?;
    Ok(bytes)
}

/// The same with rectangles as objects.
pub fn scene(
    alloc: Global,
    vertices: &[[i32; 3]],
    triangles: &[[u32; 3]],
    rectangles: &[[i32; 5]],
) -> Result<Vec<u8>, AllocError> {
    let mut objects = Vec::new(alloc);
    for [x0, y0, x1, y1, w] in rectangles {
        objects.push((0, [*x0, *y0, *x1, *y1, *w, 0]))?;
    }
    scene_of(alloc, vertices, triangles, &[], &objects)
}

/// The first scene in version 2, with these batches: a count and a winding each. It is narrow.
pub fn in_batches(alloc: Global, batches: &[(u32, u8)]) -> Result<Vec<u8>, AllocError> {
    let mut bytes = Vec::from_slice(alloc, b"MSOC")?;
    bytes.extend_from_slice(&[2, 0])?;
    bytes.extend_from_slice(&FIRST[6..32])?;
    bytes.extend_from_slice(&[(batches.len() % 256) as u8, 0, 0, 0])?;
    bytes.extend_from_slice(&FIRST[32..104])?;
    for (count, winding) in batches {
        bytes.extend_from_slice(&count.to_le_bytes())?;
        bytes.push(*winding)?;
    }
    bytes.extend_from_slice(&FIRST[104..])?;
    Ok(bytes)
}

/// The first scene in version 2, with one batch.
pub fn second_scene(alloc: Global) -> Result<Vec<u8>, AllocError> {
    in_batches(alloc, &[(2, 0)])
}

/// The same in the wide grade.
pub fn wide_scene(alloc: Global) -> Result<Vec<u8>, AllocError> {
    Ok(changed(second_scene(alloc)?, &[(13, 1)]))
}

/// The first so many bytes of the first scene, all where it has no more.
pub fn first_bytes(alloc: Global, count: usize) -> Result<Vec<u8>, AllocError> {
    Vec::from_slice(alloc, &FIRST[..count.min(FIRST.len())])
}

pub fn first_scene(alloc: Global) -> Result<Vec<u8>, AllocError> {
    first_bytes(alloc, FIRST.len())
}

/// Some bytes with those at these places changed.
pub fn changed(mut bytes: Vec<u8>, changes: &[(usize, u8)]) -> Vec<u8> {
    for (place, byte) in changes {
        if *place < bytes.len() {
            bytes[*place] = *byte;
        }
    }
    bytes
}

/// The scene of some bytes through so many cameras, each of which stands so much further away than the one before.
pub fn seen_from(mut bytes: Vec<u8>, frames: u8, step: u8) -> Result<Vec<u8>, AllocError> {
    for frame in 1..frames {
        bytes.extend_from_slice(&FIRST[129..])?;
        let last = bytes.len() - 4;
        bytes[14] = frame + 1;
        bytes[last] = frame.saturating_mul(step);
    }
    Ok(bytes)
}

/// The quad with two rectangles behind it, through a camera and one that stands two further away.
pub fn two_frames(alloc: Global) -> Result<Vec<u8>, AllocError> {
    let rectangles = [WHOLE, [8, 2, 24, 6, 5]];
    seen_from(scene(alloc, &QUAD, &TWO, &rectangles)?, 2, 2)
}
