//! Scenes that are read, refused and written, byte by byte.
use bytes_for_tests::{FIRST_SCENE, OBJECT, batch, cut, edit, refusal_of, refusal_of_more};
use cull_base::{
    BytesSink, BytesSource, Grade, SinkError, SureSink, SureSource, Tri, Winding, fill,
};
use scene_reader::{SceneError, one_layout, read_part, read_scene, upgrades_scenes, write_scene};
use std::alloc::{AllocError, Global};
use std::test::Fail;

/// Where the camera of the first scene begins.
const CAMERA: usize = 129;

#[test]
fn the_first_scene_is_read_and_written_back(rt: HostRuntime) -> Result<(), Fail> {
    let alloc = rt.alloc();
    let mut source = SureSource::new(Vec::from_slice(alloc, &FIRST_SCENE)?);
    let scene = read_scene(alloc, &mut source)?;
    assert_eq!(rt; scene.size().width(), 32);
    assert_eq!(rt; scene.size().height(), 8);
    assert_eq!(rt; scene.near(), 1);
    assert_eq!(rt; scene.version(), 1);
    assert_eq!(rt; scene.grade(), Grade::Narrow);
    assert_eq!(rt; scene.batches(), [batch(2, Winding::Both)].as_slice());
    assert_eq!(rt;
        scene.vertices(),
        [[-2, 2, 2], [2, 2, 2], [2, -2, 2], [-2, -2, 2]].as_slice()
    );
    assert_eq!(rt;
        scene.occluders(),
        [Tri([0, 1, 2]), Tri([0, 2, 3])].as_slice()
    );
    assert_eq!(rt; scene.object_tris().len(), 0);
    assert_eq!(rt; scene.objects().len(), 1);
    assert_eq!(rt;
        scene.cameras(),
        [[65536, 0, 0, 0, 0, 65536, 0, 0, 0, 0, 65536, 0]].as_slice()
    );
    let mut sink = SureSink::new(alloc);
    write_scene(&scene, &mut sink)
        .ok()
        .ok_or("memory for 177 bytes")?;
    assert_eq!(rt; sink.held(), FIRST_SCENE.as_slice());
    Ok(())
}

// What the first scene is refused for after these edits.
fn refusal_after(alloc: Global, edits: &[(usize, u8)]) -> Result<Option<SceneError>, AllocError> {
    let mut bytes = Vec::from_slice(alloc, &FIRST_SCENE)?;
    edit(&mut bytes, edits);
    Ok(refusal_of(alloc, bytes))
}

#[test]
fn each_field_of_the_header_holds_from_its_edge_on(rt: HostRuntime) -> Result<(), Fail> {
    let table: [(&[(usize, u8)], Option<SceneError>); 20] = [
        (&[], None),
        (&[(3, 0x44)], Some(SceneError::BadMagic)),
        (&[(4, 3)], Some(SceneError::BadVersion(3))),
        (&[(4, 0)], Some(SceneError::BadVersion(0))),
        (&[(6, 33)], Some(SceneError::BadSize(33, 8))),
        (&[(6, 0)], Some(SceneError::BadSize(0, 8))),
        (&[(6, 8)], None),
        (&[(6, 0), (7, 8)], None),
        (&[(6, 8), (7, 8)], Some(SceneError::BadSize(2056, 8))),
        (&[(8, 0)], Some(SceneError::BadSize(32, 0))),
        (&[(8, 4)], None),
        (&[(8, 6)], Some(SceneError::BadSize(32, 6))),
        (&[(8, 0), (9, 8)], None),
        (&[(8, 4), (9, 8)], Some(SceneError::BadSize(32, 2052))),
        (&[(10, 0)], Some(SceneError::BadNear(0))),
        (&[(10, 0), (11, 4)], None),
        (&[(10, 1), (11, 4)], Some(SceneError::BadNear(1025))),
        (&[(12, 2)], None),
        (&[(12, 3)], Some(SceneError::BadWinding(3))),
        (&[(13, 1)], Some(SceneError::BadReserved(1))),
    ];
    for (edits, want) in table {
        assert_eq!(rt; refusal_after(rt.alloc(), edits)?, want, "after {edits:?}");
    }
    Ok(())
}

#[test]
fn each_count_holds_from_its_edge_on(rt: HostRuntime) -> Result<(), Fail> {
    let short = |need| { Some(SceneError::Truncated { need, have: 177 }) };
    let count = |field, value| Some(SceneError::BadCount { field, value });
    let table: [(&[(usize, u8)], Option<SceneError>); 12] = [
        (&[(14, 0)], count(0, 0)),
        (&[(14, 0), (15, 1)], short(12417)),
        (&[(14, 1), (15, 1)], count(0, 257)),
        (&[(16, 0), (18, 4)], short(3145857)),
        (&[(16, 1), (18, 4)], count(1, 262145)),
        (&[(20, 0), (22, 1)], short(786585)),
        (&[(20, 1), (22, 1)], count(2, 65537)),
        (&[(24, 0), (26, 4)], short(3145905)),
        (&[(24, 1), (26, 4)], count(3, 262145)),
        (&[(28, 0), (30, 1)], short(1638552)),
        (&[(28, 1), (30, 1)], count(4, 65537)),
        // In version 2 the first vertex stands where the number of batches is read.
        (&[(4, 2)], count(5, 4294967294)),
    ];
    for (edits, want) in table {
        assert_eq!(rt; refusal_after(rt.alloc(), edits)?, want, "after {edits:?}");
    }
    Ok(())
}

#[test]
fn each_entry_holds_from_its_edge_on(rt: HostRuntime) -> Result<(), Fail> {
    let table: [(&[(usize, u8)], Option<SceneError>); 13] = [
        (&[(68, 0), (69, 0), (70, 0), (71, 1)], None),
        (
            &[(68, 1), (69, 0), (70, 0), (71, 1)],
            Some(SceneError::BadVertex(3)),
        ),
        (&[(68, 0), (69, 0), (70, 0), (71, 0xff)], None),
        (
            &[(68, 0xff), (69, 0xff), (70, 0xff), (71, 0xfe)],
            Some(SceneError::BadVertex(3)),
        ),
        (&[(100, 4)], Some(SceneError::BadIndex { table: 0, i: 1 })),
        (&[(OBJECT, 3)], Some(SceneError::BadKind(0))),
        (
            &[(OBJECT, 3), (68, 1), (69, 0), (70, 0), (71, 1)],
            Some(SceneError::BadVertex(3)),
        ),
        (&[(OBJECT + 1, 32)], None),
        (&[(OBJECT + 1, 33)], Some(SceneError::BadObject(0))),
        (&[(OBJECT + 21, 1)], Some(SceneError::BadObject(0))),
        (&[(OBJECT, 2)], Some(SceneError::BadObject(0))),
        (&[(CAMERA + 2, 0), (CAMERA + 3, 1)], None),
        (
            &[(CAMERA, 1), (CAMERA + 2, 0), (CAMERA + 3, 1)],
            Some(SceneError::BadCamera(0)),
        ),
    ];
    for (edits, want) in table {
        assert_eq!(rt; refusal_after(rt.alloc(), edits)?, want, "after {edits:?}");
    }
    Ok(())
}

#[test]
fn the_length_is_that_of_the_counts(rt: HostRuntime) -> Result<(), Fail> {
    let alloc = rt.alloc();
    let table = [
        (0, cut(32, 0)),
        (31, cut(32, 31)),
        (32, cut(177, 32)),
        (176, cut(177, 176)),
        (177, None),
    ];
    for (length, want) in table {
        let bytes = Vec::from_slice(alloc, &FIRST_SCENE[..length])?;
        assert_eq!(rt; refusal_of(alloc, bytes), want, "of {length} bytes");
    }
    let longer = refusal_of_more(alloc, Vec::from_slice(alloc, &FIRST_SCENE)?)?;
    assert_eq!(rt; longer, Some(SceneError::Trailing));
    Ok(())
}

#[test]
fn an_object_triangle_names_a_vertex(rt: HostRuntime) -> Result<(), Fail> {
    let alloc = rt.alloc();
    let table = [
        (3, None),
        (4, Some(SceneError::BadIndex { table: 1, i: 0 })),
    ];
    for (last, want) in table {
        let mut bytes = Vec::from_slice(alloc, &FIRST_SCENE[..OBJECT])?;
        edit(&mut bytes, &[(24, 1)]);
        bytes.extend_from_slice(&[0, 0, 0, 0, 1, 0, 0, 0, last, 0, 0, 0])?;
        bytes.extend_from_slice(&FIRST_SCENE[OBJECT..])?;
        assert_eq!(rt; refusal_of(alloc, bytes), want, "with index {last}");
    }
    Ok(())
}

#[test]
fn a_failure_is_told_as_such(rt: HostRuntime) -> Result<(), Fail> {
    let alloc = rt.alloc();
    for call in [1, 2, 9, 26] {
        let bytes = Vec::from_slice(alloc, &FIRST_SCENE)?;
        let mut source = BytesSource::new(bytes, 7, Vec::from_slice(alloc, &[call])?);
        assert_eq!(rt;
            read_scene(alloc, &mut source).err(),
            Some(SceneError::Read),
            "in call {call}"
        );
    }
    let mut source = SureSource::new(Vec::from_slice(alloc, &FIRST_SCENE)?);
    let scene = read_scene(alloc, &mut source)?;
    let mut sink = BytesSink::new(alloc, 5, Vec::from_slice(alloc, &[8])?);
    assert_eq!(rt; write_scene(&scene, &mut sink), Err(SinkError::Failed));
    assert_eq!(rt; sink.held(), &FIRST_SCENE[..32]);
    Ok(())
}

#[test]
fn a_refusal_reads_as_a_sentence(rt: HostRuntime) -> Result<(), Fail> {
    let cut = SceneError::Truncated {
        need: 177,
        have: 176,
    };
    for (error, sentence) in [
        (cut, "the input has 176 bytes, and 177 are needed"),
        (
            SceneError::BadGrade(2),
            "the grade is 2: it is 0 or 1, and 0 in version 1",
        ),
        (
            SceneError::BadBatch(3),
            "batch 3 has an unknown winding, or with it the batches don't have as many triangles as the scene",
        ),
    ] {
        let told = format!(in rt.alloc(); "{}", error)?;
        assert_eq!(rt; told.as_str(), sentence);
    }
    Ok(())
}

#[test]
fn a_part_ends_where_it_is_told(rt: HostRuntime) -> Result<(), Fail> {
    let alloc = rt.alloc();
    let table = [
        (0, cut(32, 0), 179),
        (31, cut(32, 31), 148),
        (176, cut(177, 176), 3),
        (177, None, 2),
        (178, Some(SceneError::Trailing), 1),
        (200, Some(SceneError::Trailing), 1),
    ];
    for (most, want, left) in table {
        let mut bytes = Vec::from_slice(alloc, &FIRST_SCENE)?;
        bytes.extend_from_slice(&[1, 2])?;
        let mut source = BytesSource::new(bytes, 7, Vec::new(alloc));
        let answer = read_part(alloc, &mut source, most).err();
        assert_eq!(rt; answer, want, "of at most {most} bytes");
        let behind = fill(&mut source, &mut [0; 200]).ok();
        assert_eq!(rt; behind, Some(left), "behind {most} bytes");
    }
    Ok(())
}

// The first scene: nine reads take its header, four vertices, two triangles, the object and the camera, the tenth fails.
fn failing_at_its_end(alloc: Global) -> Result<BytesSource, AllocError> {
    let bytes = Vec::from_slice(alloc, &FIRST_SCENE)?;
    Ok(BytesSource::new(bytes, 100, Vec::from_slice(alloc, &[10])?))
}

#[test]
fn a_whole_part_is_not_read_further(rt: HostRuntime) -> Result<(), Fail> {
    let alloc = rt.alloc();
    assert_eq!(rt;
        read_part(alloc, &mut failing_at_its_end(alloc)?, 177).err(),
        None
    );
    let read = Some(SceneError::Read);
    assert_eq!(rt;
        read_part(alloc, &mut failing_at_its_end(alloc)?, 178).err(),
        read
    );
    assert_eq!(rt;
        read_scene(alloc, &mut failing_at_its_end(alloc)?).err(),
        read
    );
    Ok(())
}

#[test]
fn a_refused_header_of_a_part_is_all_that_is_taken(rt: HostRuntime) -> Result<(), Fail> {
    let alloc = rt.alloc();
    // without batches: version 2 counts too many of them, behind 32 bytes
    let table = [
        (4, 3, 177, 145),
        (12, 3, 177, 145),
        (4, 2, 177, 141),
        (4, 2, 33, 144),
    ];
    for (place, value, most, left) in table {
        let mut bytes = Vec::from_slice(alloc, &FIRST_SCENE)?;
        edit(&mut bytes, &[(place, value)]);
        let mut source = BytesSource::new(bytes, 7, Vec::new(alloc));
        assert!(rt; read_part(alloc, &mut source, most).is_err());
        let behind = fill(&mut source, &mut [0; 200]).ok();
        assert_eq!(rt;
            behind,
            Some(left),
            "byte {place} as {value}, of at most {most} bytes"
        );
    }
    Ok(())
}

#[test]
fn the_laws_on_layouts_are_called(rt: HostRuntime) {
    one_layout();
    upgrades_scenes();
}
