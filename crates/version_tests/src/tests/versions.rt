//! Scenes in version 2 that are read, refused and written, byte by byte.
use bytes_for_tests::{
    FIRST_SCENE, OBJECT, batch, cut, edit, refusal_of, refusal_of_more, written,
};
use cull_base::{Grade, SureSource, Winding};
use scene_reader::{SceneError, read_scene, upgrade};
use std::alloc::{AllocError, Global};
use std::test::Fail;

// The first scene in version 2, with these batches of its two triangles, each a count and the code of a winding.
fn in_batches(alloc: Global, batches: &[(u32, u8)]) -> Result<Vec<u8>, AllocError> {
    let mut bytes = Vec::from_slice(alloc, &FIRST_SCENE[..32])?;
    edit(&mut bytes, &[(4, 2)]);
    bytes.extend_from_slice(&((batches.len() % 65536) as u32).to_le_bytes())?;
    bytes.extend_from_slice(&FIRST_SCENE[32..OBJECT])?;
    for (count, winding) in batches {
        bytes.extend_from_slice(&count.to_le_bytes())?;
        bytes.push(*winding)?;
    }
    bytes.extend_from_slice(&FIRST_SCENE[OBJECT..])?;
    Ok(bytes)
}

#[test]
fn an_upgraded_scene_has_its_batch_as_a_table(rt: HostRuntime) -> Result<(), Fail> {
    let alloc = rt.alloc();
    let second = in_batches(alloc, &[(2, 0)])?;
    assert_eq!(rt; second.len(), 186);
    let first = read_scene(
        alloc,
        &mut SureSource::new(Vec::from_slice(alloc, &FIRST_SCENE)?),
    )?;
    assert_eq!(rt; written(alloc, &upgrade(first))?.held(), second.as_slice());
    let again = read_scene(
        alloc,
        &mut SureSource::new(Vec::from_slice(alloc, &second)?),
    )?;
    assert_eq!(rt; again.version(), 2);
    assert_eq!(rt; again.grade(), Grade::Narrow);
    assert_eq!(rt; again.batches(), [batch(2, Winding::Both)].as_slice());
    assert_eq!(rt; written(alloc, &again)?.held(), second.as_slice());
    assert_eq!(rt; written(alloc, &upgrade(again))?.held(), second.as_slice());
    Ok(())
}

#[test]
fn a_wide_scene_in_batches_is_written_back(rt: HostRuntime) -> Result<(), Fail> {
    let alloc = rt.alloc();
    let mut bytes = in_batches(alloc, &[(1, 1), (0, 2), (1, 0)])?;
    edit(&mut bytes, &[(13, 1)]);
    let scene = read_scene(alloc, &mut SureSource::new(Vec::from_slice(alloc, &bytes)?))?;
    assert_eq!(rt; scene.grade(), Grade::Wide);
    assert_eq!(rt;
        scene.batches(),
        [
            batch(1, Winding::DropClockwise),
            batch(0, Winding::DropCounter),
            batch(1, Winding::Both)
        ]
        .as_slice()
    );
    assert_eq!(rt; written(alloc, &scene)?.held(), bytes.as_slice());
    Ok(())
}

#[test]
fn each_step_of_version_2_holds_in_its_turn(rt: HostRuntime) -> Result<(), Fail> {
    let alloc = rt.alloc();
    // The batch begins at 108; the last index of the second triangle is at 104, the kind of the object at 113.
    let table: [(usize, &[(usize, u8)], Option<SceneError>); 17] = [
        (186, &[], None),
        (186, &[(13, 1)], None),
        (186, &[(13, 2)], Some(SceneError::BadGrade(2))),
        (186, &[(12, 1)], Some(SceneError::BadWinding(1))),
        (186, &[(12, 1), (13, 2)], Some(SceneError::BadWinding(1))),
        (31, &[], cut(32, 31)),
        (32, &[], cut(36, 32)),
        (35, &[], cut(36, 35)),
        (35, &[(6, 33)], cut(36, 35)),
        (35, &[(3, 0x44)], Some(SceneError::BadMagic)),
        (36, &[(6, 33)], Some(SceneError::BadSize(33, 8))),
        (36, &[], cut(186, 36)),
        (185, &[(112, 3)], cut(186, 185)),
        (186, &[(112, 3)], Some(SceneError::BadBatch(0))),
        (
            186,
            &[(104, 4), (112, 3)],
            Some(SceneError::BadIndex { table: 0, i: 1 }),
        ),
        (186, &[(113, 3), (108, 1)], Some(SceneError::BadBatch(1))),
        (186, &[(113, 3)], Some(SceneError::BadKind(0))),
    ];
    for (length, edits, want) in table {
        let mut bytes = in_batches(alloc, &[(2, 0)])?;
        edit(&mut bytes, edits);
        bytes.truncate(length);
        assert_eq!(rt;
            refusal_of(alloc, bytes),
            want,
            "of {length} bytes after {edits:?}"
        );
    }
    let longer = refusal_of_more(alloc, in_batches(alloc, &[(2, 3)])?)?;
    assert_eq!(rt; longer, Some(SceneError::Trailing));
    Ok(())
}

#[test]
fn batches_have_all_triangles(rt: HostRuntime) -> Result<(), Fail> {
    let alloc = rt.alloc();
    let bad = |i| Some(SceneError::BadBatch(i));
    let table: [(&[(u32, u8)], Option<SceneError>); 9] = [
        (&[], bad(0)),
        (&[(0, 0), (2, 0), (0, 2)], None),
        (&[(1, 1), (1, 0)], None),
        (&[(1, 0), (2, 0)], bad(1)),
        (&[(1, 0)], bad(1)),
        (&[(2, 3)], bad(0)),
        (&[(1, 0), (1, 0), (0, 3)], bad(2)),
        (&[(1, 0), (4294967295, 0), (2, 0)], bad(1)),
        (&[(1, 0), (4294967295, 0), (2, 3)], bad(1)),
    ];
    for (batches, want) in table {
        let bytes = in_batches(alloc, batches)?;
        assert_eq!(rt; refusal_of(alloc, bytes), want, "of batches {batches:?}");
    }
    Ok(())
}

#[test]
fn no_more_than_4096_batches_are_read(rt: HostRuntime) -> Result<(), Fail> {
    let alloc = rt.alloc();
    let mut many = Vec::from_slice(alloc, &[(2, 0)])?;
    for _ in 1..4096 {
        many.push((0, 0))?;
    }
    assert_eq!(rt; refusal_of(alloc, in_batches(alloc, &many)?), None);
    many.push((0, 0))?;
    let count = SceneError::BadCount {
        field: 5,
        value: 4097,
    };
    assert_eq!(rt; refusal_of(alloc, in_batches(alloc, &many)?), Some(count));
    Ok(())
}
