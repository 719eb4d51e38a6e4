//! The first fault of a scene's parts, step by step. Each step goes over a whole table.
ghost use Rattle.std.specs.Prelude.{◌≡◌, ◌≤◌, ◌^◌, ◌<◌, None, length, map, not, nat_lt, IsNone};
ghost use Rattle.cull_base.specs.Batches.{AreBatchesOf};
ghost use Rattle.cull_base.specs.declared.nearness.Grade.TheVariants.{Narrow};
ghost use Rattle.std.specs.List.{All, list_any};
ghost use Rattle.scene_reader.specs.Layout.{IsScene, IsRow, IsTri, IsObject, raw_object, raw_batch};
ghost use Rattle.scene_reader.specs.Fault.{first_among, first_bad_row, vertex_fault, index_fault, object_fault};
ghost use Rattle.scene_reader.specs.Fault.{camera_fault, is_one_batch, split_fault, sum_fault, batches_fault};
ghost use Rattle.scene_reader.specs.PartsFault.{AreTables, IsTablesFault, count_in_32_bits, counts_of_parts};
ghost use Rattle.scene_reader.specs.PartsFault.{grade_fault, first_fault_of_parts};

use crate::error::SceneError;
use crate::header::{Counts, count_fault, screen_fault, version_fault};
use crate::objects::{is_bad_object, is_bad_row};
use crate::parts::SceneParts;
use cull_base::{Batch, Grade, Object, Tri};

/// The number of the first row with a number outside the limits.
fn first_bad_row<const N: usize>(rows: &[[i32; N]]) -> Option<u32>
    requires { length rows.now < 2 ^ 32 }
    ensures { result ≡ first_bad_row rows.now }
{
    for (i, row) in rows.iter().enumerate() {
        if is_bad_row(row) {
            return Some(i as u32);
        }
    }
    None
}

/// The first vertex with a coordinate outside the limits.
fn vertex_fault(vertices: &[[i32; 3]]) -> Option<SceneError>
    requires { length vertices.now < 2 ^ 32 }
    ensures value { result ≡ first_among vertex_fault 0 vertices.now }
    ensures valid { IsNone result → All (IsRow 3) vertices.now }
{
    let i = first_bad_row(vertices)?;
    Some(SceneError::BadVertex(i))
}

fn names_past(triangle: &Tri, vertices: u32) -> bool
    ensures value { result ≡ list_any (λ v. not (nat_lt v vertices)) triangle.now.0 }
    ensures three { length triangle.now.0 ≡ 3 }
{
    triangle.0.iter().any(|v| !(*v < vertices))
}

/// The first triangle of a table that names a vertex which isn't there.
fn index_fault(table: u8, vertices: u32, triangles: &[Tri]) -> Option<SceneError>
    requires { length triangles.now < 2 ^ 32 }
    ensures value { result ≡ first_among (index_fault table vertices) 0 triangles.now }
    ensures valid { IsNone result → All (IsTri vertices) triangles.now }
{
    for (i, triangle) in triangles.iter().enumerate() {
        if names_past(triangle, vertices) {
            return Some(SceneError::BadIndex { table, i: i as u32 });
        }
    }
    None
}

/// The first camera with an entry outside the limits.
fn camera_fault(cameras: &[[i32; 12]]) -> Option<SceneError>
    requires { length cameras.now < 2 ^ 32 }
    ensures value { result ≡ first_among camera_fault 0 cameras.now }
    ensures valid { IsNone result → All (IsRow 12) cameras.now }
{
    let i = first_bad_row(cameras)?;
    Some(SceneError::BadCamera(i))
}

/// The first fault of the tables of parts whose header is accepted, where those of the batches and of the objects are
/// given.
#[tactic(auto, unfolding(crate::specs::Fault::tables_fault))]
pub fn tables_fault(
    parts: &SceneParts,
    batches: Option<SceneError>,
    objects: Option<SceneError>,
) -> Option<SceneError>
    requires vertices { length parts.now.vertices ≤ 262144 }
    requires occluders { length parts.now.occluders ≤ 65536 }
    requires object_tris { length parts.now.object_tris ≤ 262144 }
    requires cameras { length parts.now.cameras ≤ 256 }
    ensures value { IsTablesFault parts.now batches objects result }
    ensures valid { IsNone result → AreTables parts.now × (batches ≡ None) × (objects ≡ None) }
{
    let vertices = parts.vertices.len() as u32;
    if let Some(fault) = vertex_fault(&parts.vertices) {
        return Some(fault);
    }
    if let Some(fault) = index_fault(0, vertices, &parts.occluders) {
        return Some(fault);
    }
    if batches.is_some() {
        return batches;
    }
    if let Some(fault) = index_fault(1, vertices, &parts.object_tris) {
        return Some(fault);
    }
    if objects.is_some() {
        return objects;
    }
    camera_fault(&parts.cameras)
}

// Whether there is one batch, of all triangles.
fn is_one_batch(batches: &[Batch], tris: u32) -> bool
    ensures { result ≡ is_one_batch tris (map raw_batch batches.now) }
{
    if batches.len() != 1 {
        return false;
    }
    batches[0].count == tris
}

// The fault of batches of version 1 that aren't one.
fn split_fault(version: u16, batches: &[Batch], tris: u32) -> Option<SceneError>
    ensures { result ≡ split_fault version tris (map raw_batch batches.now) }
{
    if version != 1 {
        return None;
    }
    if is_one_batch(batches, tris) {
        return None;
    }
    Some(SceneError::BadBatch(0))
}

/// The first batch with which there are more than all triangles. Where there is none, but they are fewer, the number of
/// batches.
#[tactic(auto, unfolding(crate::specs::Fault::sum_fault))]
fn sum_fault(batches: &[Batch], tris: u32) -> Option<SceneError>
    requires some { length batches.now ≤ 4096 }
    requires few { tris ≤ 65536 }
    ensures { result ≡ sum_fault tris (map raw_batch batches.now) }
{
    let all = u64::from(tris);
    // The sum of two counts needs more than 32 bits.
    let mut counted = 0_u64;
    for (i, batch) in batches.iter().enumerate() {
        counted += u64::from(batch.count);
        if all < counted {
            return Some(SceneError::BadBatch(i as u32));
        }
    }
    if counted < all {
        return Some(SceneError::BadBatch(batches.len() as u32));
    }
    None
}

/// The first fault of the batches of so many triangles, which in version 1 are one.
#[tactic(auto, unfolding(crate::specs::Fault::batches_fault))]
fn batches_fault(version: u16, batches: &[Batch], tris: u32) -> Option<SceneError>
    requires some { length batches.now ≤ 4096 }
    requires few { tris ≤ 65536 }
    ensures value { result ≡ batches_fault version tris (map raw_batch batches.now) }
    ensures valid { IsNone result → AreBatchesOf batches.now tris × (version ≡ 1 → length batches.now ≡ 1) }
{
    split_fault(version, batches, tris).or(sum_fault(batches, tris))
}

/// The first object whose numbers its kind doesn't allow, beside so many object triangles.
fn objects_fault(objects: &[Object], object_tris: u32) -> Option<SceneError>
    requires some { length objects.now < 2 ^ 32 }
    requires few { object_tris ≤ 262144 }
    ensures value { result ≡ first_among (object_fault object_tris) 0 (map raw_object objects.now) }
    ensures valid { IsNone result → All (IsObject object_tris) objects.now }
{
    for (i, object) in objects.iter().enumerate() {
        if is_bad_object(object, object_tris) {
            return Some(SceneError::BadObject(i as u32));
        }
    }
    None
}

// A count, or the greatest number of 32 bits where it is too large for 32 bits.
fn count_in_32_bits(len: usize) -> u32
    ensures { result ≡ count_in_32_bits len }
{
    len.min(u32::MAX as usize) as u32
}

/// How many entries each table has.
fn counts_of(parts: &SceneParts) -> Counts
    ensures { result ≡ counts_of_parts parts.now }
{
    Counts {
        frames: count_in_32_bits(parts.cameras.len()),
        vertices: count_in_32_bits(parts.vertices.len()),
        occluders: count_in_32_bits(parts.occluders.len()),
        batches: count_in_32_bits(parts.batches.len()),
        object_tris: count_in_32_bits(parts.object_tris.len()),
        objects: count_in_32_bits(parts.objects.len()),
    }
}

// The fault of parts of version 1 that are wide.
fn grade_fault(parts: &SceneParts) -> Option<SceneError>
    ensures value { result ≡ grade_fault parts.now }
    ensures valid { IsNone result → parts.now.version ≡ 1 → parts.now.grade ≡ Narrow }
{
    if parts.version != 1 {
        return None;
    }
    match parts.grade {
        Grade::Narrow => None,
        Grade::Wide => Some(SceneError::BadGrade(1)),
    }
}

/// The first fault of parts, which are a scene where there is none.
#[tactic(auto, unfolding(crate::specs::PartsFault::first_fault_of_parts))]
pub fn parts_fault(parts: &SceneParts) -> Option<SceneError>
    ensures value { result ≡ first_fault_of_parts parts.now }
    ensures valid { IsNone result → IsScene parts.now }
{
    if let Some(fault) = version_fault(parts.version) {
        return Some(fault);
    }
    if let Some(fault) = screen_fault(parts.width, parts.height, parts.near) {
        return Some(fault);
    }
    if let Some(fault) = grade_fault(parts) {
        return Some(fault);
    }
    if let Some(fault) = count_fault(&counts_of(parts)) {
        return Some(fault);
    }
    let occluders = parts.occluders.len() as u32;
    let object_tris = parts.object_tris.len() as u32;
    tables_fault(
        parts,
        batches_fault(parts.version, &parts.batches, occluders),
        objects_fault(&parts.objects, object_tris),
    )
}
