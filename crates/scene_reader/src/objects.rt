//! Objects: made from their kind and six numbers, tested, and read as a table. The first fault of a table is kept until
//! the end of the input is known, since that of the length comes before it.
ghost use Rattle.std.specs.Prelude.{◌≡◌, ℕ, ◌+◌, ◌*◌, ◌^◌, ◌<◌, ◌≤◌, Some, true, false, length, OnOk, IfOk, IfErr, IfSome, IfNone};
ghost use Rattle.cull_base.specs.Guard.{is_beyond};
ghost use Rattle.scene_reader.specs.Layout.{IsObject, kind_of, numbers_of};
ghost use Rattle.scene_reader.specs.Fault.{is_bad_row, rectangle_runs_back, box_runs_back, is_bad_object, object_fault, raw_of};
ghost use Rattle.scene_reader.specs.Reading.{IsObjectOf, TakesObject, TakesObjects, Fetches, IsWithin};

use crate::error::SceneError;
use crate::intake::fetch;
use crate::numbers::row_of;
use cull_base::{Object, Rect, Source};
use std::alloc::{AllocError, Global};

/// The kinds of objects, by the first byte of an entry.
pub const RECTANGLE: u8 = 0;

pub const BOX: u8 = 1;

pub const MESH: u8 = 2;

/// Bytes of an object.
pub const OBJECT: u32 = 25;

/// Numbers of vertices, cameras and objects lie at most so far from 0.
const LIMIT: i32 = 1 << 24;

pub fn is_beyond(number: i32) -> bool
    ensures { result ≡ is_beyond (2 ^ 24) number }
{
    number < -LIMIT || LIMIT < number
}

/// Whether a number lies outside the limits.
pub fn is_bad_row(row: &[i32]) -> bool
    ensures { result ≡ is_bad_row row.now }
{
    row.iter().any(|number| is_beyond(*number))
}

fn area_of(n: &[i32; 6]) -> Option<Object>
    ensures made { IfSome result (λ o. (kind_of o ≡ 0) × (numbers_of o ≡ n.now)) }
    ensures refused { IfNone result ((object_tris : ℕ) → is_bad_object object_tris 0 n.now ≡ true) }
{
    if n[5] != 0 {
        return None;
    }
    let rect = Rect {
        x0: n[0],
        y0: n[1],
        x1: n[2],
        y1: n[3],
    };
    Some(Object::Area { rect, w: n[4] })
}

fn block_of(n: &[i32; 6]) -> Object
    ensures { (kind_of result ≡ 1) × (numbers_of result ≡ n.now) }
{
    Object::Block {
        low: [n[0], n[1], n[2]],
        high: [n[3], n[4], n[5]],
    }
}

fn mesh_of(n: &[i32; 6]) -> Option<Object>
    ensures made { IfSome result (λ o. (kind_of o ≡ 2) × (numbers_of o ≡ n.now)) }
    ensures refused { IfNone result ((object_tris : ℕ) → is_bad_object object_tris 2 n.now ≡ true) }
{
    if n[0] < 0 || n[1] < 0 || n[2] != 0 || n[3] != 0 || n[4] != 0 || n[5] != 0 {
        return None;
    }
    Some(Object::Mesh {
        first: n[0] as u32,
        count: n[1] as u32,
    })
}

/// The object of a known kind that has these numbers. None where there isn't one.
pub fn object_of(kind: u8, numbers: &[i32; 6]) -> Option<Object>
    requires { kind ≤ 2 }
    ensures made { IfSome result (λ o. (kind_of o ≡ kind) × (numbers_of o ≡ numbers.now)) }
    ensures refused { IfNone result ((object_tris : ℕ) → is_bad_object object_tris kind numbers.now ≡ true) }
{
    match kind {
        RECTANGLE => area_of(numbers),
        BOX => Some(block_of(numbers)),
        _ => mesh_of(numbers),
    }
}

fn rectangle_runs_back(rect: &Rect) -> bool
    ensures { result ≡ rectangle_runs_back rect.now }
{
    rect.x1 < rect.x0 || rect.y1 < rect.y0
}

fn is_bad_area(rect: &Rect, w: i32) -> bool
    ensures { result ≡ is_bad_object 0 0 (numbers_of (Object.Area rect.now w)) }
{
    is_bad_row(&[rect.x0, rect.y0, rect.x1, rect.y1, w]) || rectangle_runs_back(rect)
}

fn box_runs_back(low: &[i32; 3], high: &[i32; 3]) -> bool
    ensures { result ≡ box_runs_back low.now high.now }
{
    high[0] < low[0] || high[1] < low[1] || high[2] < low[2]
}

fn is_bad_block(low: &[i32; 3], high: &[i32; 3]) -> bool
    ensures value { result ≡ is_bad_object 0 1 (numbers_of (Object.Block low.now high.now)) }
    ensures corners { (length low.now ≡ 3) × (length high.now ≡ 3) }
{
    is_bad_row(low) || is_bad_row(high) || box_runs_back(low, high)
}

#[tactic(auto, unfolding(crate::specs::Fault::is_bad_object))]
fn is_bad_mesh(first: u32, count: u32, object_tris: u32) -> bool
    requires { object_tris ≤ 262144 }
    ensures value { result ≡ is_bad_object object_tris 2 (numbers_of (Object.Mesh first count)) }
    ensures valid { result ≡ false → first + count ≤ object_tris }
{
    u64::from(object_tris) < u64::from(first) + u64::from(count)
}

/// Whether an object has numbers that its kind doesn't allow, beside so many object triangles.
pub fn is_bad_object(object: &Object, object_tris: u32) -> bool
    requires { object_tris ≤ 262144 }
    ensures value { result ≡ is_bad_object object_tris (kind_of object.now) (numbers_of object.now) }
    ensures valid { result ≡ false → IsObject object_tris object.now }
{
    match object {
        Object::Area { rect, w } => is_bad_area(rect, *w),
        Object::Block { low, high } => is_bad_block(low, high),
        Object::Mesh { first, count } => is_bad_mesh(*first, *count, object_tris),
    }
}

/// The objects up to the first fault, and that fault.
#[derive(Drop)]
pub struct Objects {
    pub items: Vec<Object>,
    pub fault: Option<SceneError>,
}

/// The object number i of a table, beside so many object triangles, or its fault.
pub fn object_at(entry: &[u8; 25], i: u32, object_tris: u32) -> Result<Object, SceneError>
    requires { object_tris ≤ 262144 }
    ensures value { IfOk result (λ o. IsObjectOf object_tris i (raw_of entry.now) o) }
    ensures fault { IfErr result (λ e. object_fault object_tris i (raw_of entry.now) ≡ Some e) }
    ensures valid { IfOk result (λ o. IsObject object_tris o) }
{
    let kind = entry[0];
    // Mesh is the last kind.
    if MESH < kind {
        return Err(SceneError::BadKind(i));
    }
    let numbers = row_of(&entry[1..]);
    match object_of(kind, &numbers) {
        Some(object) if !is_bad_object(&object, object_tris) => Ok(object),
        _ => Err(SceneError::BadObject(i)),
    }
}

impl Objects {
    /// Keeps the object number i, or its fault where there was none before.
    fn keep(&mut self, entry: &[u8; 25], i: u32, object_tris: u32) -> Result<(), AllocError>
        requires { object_tris ≤ 262144 }
        ensures { OnOk result (TakesObject object_tris i (raw_of entry.now) self.old self.new) }
    {
        if self.fault.is_none() {
            match object_at(entry, i, object_tris) {
                Ok(object) => self.items.push(object)?,
                Err(fault) => self.fault = Some(fault),
            }
        }
        Ok(())
    }
}

/// The next table of objects, beside so many object triangles.
pub fn read_objects<S: Source>(
    alloc: Global,
    source: &mut S,
    count: u32,
    object_tris: u32,
    need: u32,
    taken: u32,
    part: Option<u32>,
) -> Result<Objects, SceneError>
    requires room { taken + 25 * count < 2 ^ 32 }
    requires within { IsWithin part taken }
    requires few { object_tris ≤ 262144 }
    ensures taken { IfOk result (λ o. TakesObjects count object_tris (S.says source.old) (S.says source.new) o) }
    ensures fetches { Fetches part (25 * count) need taken (S.says source.old) (S.says source.new) result }
{
    let mut objects = Objects {
        items: Vec::with_capacity(alloc, count as usize)?,
        fault: None,
    };
    let mut entry = [0; 25];
    for i in 0..count {
        fetch(source, &mut entry, need, taken + OBJECT * i, part)?;
        objects.keep(&entry, i, object_tris)?;
    }
    Ok(objects)
}
