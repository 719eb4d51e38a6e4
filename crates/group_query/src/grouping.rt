//! Groups of boxes that follow on one another in a scene's list of objects.
ghost use Rattle.std.specs.Prelude.{◌≡◌, ◌+◌, ◌++◌, ◌<◌, ◌≤◌, ◌^◌, min, length, drop, IfOk, slice_index_or};
ghost use Rattle.cull_base.specs.declared.scene_types.Object.{Object};
ghost use Rattle.group_query.specs.Grouping.{AreApart, boxes_at_front, groups_from, groups_of, is_box};

use cull_base::{Memory, Object};
use scene_reader::Scene;
use std::alloc::{AllocError, Global};

/// So many objects from a first on.
#[derive(Clone, Copy, Debug, PartialEq, Eq)]
pub struct Group {
    pub first: u32,
    pub count: u32,
}

fn is_box(object: &Object) -> bool
    ensures { result ≡ is_box object.now }
{
    match object {
        Object::Area { .. } => false,
        Object::Block { .. } => true,
        Object::Mesh { .. } => false,
    }
}

fn object_at(objects: &[Object], place: usize) -> &Object
    requires { place < length objects.now }
    ensures { result.now ≡ slice_index_or objects.now place result.now }
{
    &objects[place]
}

// Whether the object at a place is a box.
fn is_box_at(objects: &[Object], place: usize) -> bool
    requires { place < length objects.now }
    ensures { (d : Object) → result ≡ is_box (slice_index_or objects.now place d) }
{
    is_box(object_at(objects, place))
}

// The objects from a place on.
fn objects_from(objects: &[Object], place: usize) -> &[Object]
    requires { place ≤ length objects.now }
    ensures { result.now ≡ drop place objects.now }
{
    &objects[place..]
}

// How many boxes stand at the front of some objects: so many are looked at.
fn boxes_at_front(objects: &[Object], most: u32) -> u32
    ensures { result ≡ min most (boxes_at_front objects.now) }
{
    let looked_at = objects.len().min(most as usize);
    for place in 0..looked_at {
        if !is_box_at(objects, place) {
            return place as u32;
        }
    }
    looked_at as u32
}

// Goes on by one object. Where it is a box and the last group takes no more, a group begins. The answer is how many
// more the last group takes then.
fn add_object(
    groups: &mut Vec<Group>,
    objects: &[Object],
    place: u32,
    left: u32,
    most: u32,
) -> Result<u32, AllocError>
    requires place { place < length objects.now }
    requires most { 1 ≤ most }
    ensures { IfOk result (λ more. groups.new.items ++ groups_from most (place + 1) more (drop (place + 1) objects.now)
        ≡ groups.old.items ++ groups_from most place left (drop place objects.now)) }
{
    if !is_box_at(objects, place as usize) {
        return Ok(0);
    }
    if left > 0 {
        return Ok(left - 1);
    }
    let count = boxes_at_front(objects_from(objects, place as usize), most);
    groups.push(Group {
        first: place,
        count,
    })?;
    Ok(most - 1)
}

// The groups of some objects.
fn groups_among(alloc: Global, objects: &[Object], most: u32) -> Result<Vec<Group>, AllocError>
    requires few { length objects.now < 2 ^ 32 }
    requires most { 1 ≤ most }
    ensures { IfOk result (λ v. v.items ≡ groups_from most 0 0 objects.now) }
{
    let mut groups = Vec::new(alloc);
    let mut left = 0u32;
    for place in 0..objects.len() as u32 {
        left = add_object(&mut groups, objects, place, left, most)?;
    }
    Ok(groups)
}

/// The groups of a scene: each run of boxes that follow on one another, cut from its front into groups of so many, the
/// last with what is left. Err: out of memory. Condition: a group may have a member.
pub fn groups(alloc: Global, scene: &Scene, most: u32) -> Result<Vec<Group>, Memory>
    requires { 1 ≤ most }
    ensures groups { IfOk result (λ v. v.items ≡ groups_of scene.now most) }
    ensures apart { IfOk result (λ v. AreApart (length scene.now.objects) v.items) }
{
    // an accessor tells what is held of a scene: its objects are at most 65,536
    let _near = scene.near();
    let Ok(groups) = groups_among(alloc, scene.objects(), most) else {
        return Err(Memory);
    };
    Ok(groups)
}
