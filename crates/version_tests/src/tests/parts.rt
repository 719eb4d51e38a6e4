//! Scenes that are made of parts, or refused for them.
use bytes_for_tests::{batch, refusal_of, written};
use cull_base::{Grade, Object, Tri, Winding};
use scene_reader::{Scene, SceneError, SceneParts, upgrade};
use std::alloc::{AllocError, Global};
use std::test::Fail;

fn parts_with(alloc: Global, object: Object) -> Result<SceneParts, AllocError> {
    Ok(SceneParts {
        version: 1,
        width: 32,
        height: 8,
        near: 1,
        grade: Grade::Narrow,
        vertices: Vec::from_slice(alloc, &[[0, 0, 1]])?,
        occluders: Vec::new(alloc),
        batches: Vec::from_slice(alloc, &[batch(0, Winding::DropCounter)])?,
        object_tris: Vec::from_slice(alloc, &[Tri([0, 0, 0])])?,
        objects: Vec::from_slice(alloc, &[object])?,
        cameras: Vec::from_slice(alloc, &[[0; 12]])?,
    })
}

#[test]
fn parts_are_refused_by_their_first_fault(rt: HostRuntime) -> Result<(), Fail> {
    let alloc = rt.alloc();
    let table = [
        (Object::Mesh { first: 1, count: 0 }, None),
        (
            Object::Mesh { first: 2, count: 0 },
            Some(SceneError::BadObject(0)),
        ),
        (
            Object::Mesh {
                first: 1,
                count: 4294967295,
            },
            Some(SceneError::BadObject(0)),
        ),
        (
            Object::Block {
                low: [1, 2, 3],
                high: [1, 2, 3],
            },
            None,
        ),
        (
            Object::Block {
                low: [1, 2, 3],
                high: [1, 2, 2],
            },
            Some(SceneError::BadObject(0)),
        ),
    ];
    for (object, want) in table {
        assert_eq!(rt;
            Scene::new(parts_with(alloc, object)?).err(),
            want,
            "for {object:?}"
        );
    }
    Ok(())
}

#[test]
fn parts_without_a_camera_are_refused_for_that_first(rt: HostRuntime) -> Result<(), Fail> {
    let mut parts = parts_with(rt.alloc(), Object::Mesh { first: 2, count: 0 })?;
    parts.cameras.clear();
    assert_eq!(rt;
        Scene::new(parts).err(),
        Some(SceneError::BadCount { field: 0, value: 0 })
    );
    Ok(())
}

#[test]
fn a_scene_without_occluders_upgrades_to_one_batch(rt: HostRuntime) -> Result<(), Fail> {
    let alloc = rt.alloc();
    let parts = parts_with(alloc, Object::Mesh { first: 1, count: 0 })?;
    let scene = upgrade(Scene::new(parts)?);
    assert_eq!(rt;
        scene.batches(),
        [batch(0, Winding::DropCounter)].as_slice()
    );
    let mut parts = parts_with(alloc, Object::Mesh { first: 1, count: 0 })?;
    parts.version = 2;
    parts.batches.clear();
    let scene = Scene::new(parts)?;
    let sink = written(alloc, &scene)?;
    let bytes = Vec::from_slice(alloc, sink.held())?;
    assert_eq!(rt; refusal_of(alloc, bytes), None);
    Ok(())
}

#[test]
fn parts_are_refused_by_their_version(rt: HostRuntime) -> Result<(), Fail> {
    let alloc = rt.alloc();
    let mesh = Object::Mesh { first: 1, count: 0 };
    let mut parts = parts_with(alloc, mesh)?;
    parts.grade = Grade::Wide;
    assert_eq!(rt; Scene::new(parts).err(), Some(SceneError::BadGrade(1)));
    let mut parts = parts_with(alloc, mesh)?;
    parts.grade = Grade::Wide;
    parts.version = 2;
    assert_eq!(rt; Scene::new(parts).err(), None);
    let mut parts = parts_with(alloc, mesh)?;
    parts.batches.push(batch(0, Winding::Both))?;
    assert_eq!(rt; Scene::new(parts).err(), Some(SceneError::BadBatch(0)));
    let mut parts = parts_with(alloc, mesh)?;
    parts.version = 2;
    parts.batches.push(batch(1, Winding::Both))?;
    assert_eq!(rt; Scene::new(parts).err(), Some(SceneError::BadBatch(1)));
    let mut parts = parts_with(alloc, mesh)?;
    parts.version = 3;
    parts.width = 33;
    assert_eq!(rt; Scene::new(parts).err(), Some(SceneError::BadVersion(3)));
    let mut parts = parts_with(alloc, mesh)?;
    for _ in 0..4096 {
        parts.batches.push(batch(0, Winding::Both))?;
    }
    let count = SceneError::BadCount {
        field: 5,
        value: 4097,
    };
    assert_eq!(rt; Scene::new(parts).err(), Some(count));
    Ok(())
}
