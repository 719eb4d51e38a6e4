//! Scenes of the greatest numbers that there are, and of none.
use runs_for_tests::assert_reports;
use scenes_for_tests::{OCCLUDED, QUAD, TWO, UNDRAWN, WHOLE, first_bytes, scene, scene_of};
use std::test::*;

const LAST: i32 = 16_777_216;

// Each number that the camera makes is 256 times a sum of coordinates, and 16777216 more: all are past the guard.
#[test]
fn a_camera_of_the_last_numbers_draws_nothing(rt: HostRuntime) -> Result<(), Fail> {
    let alloc = rt.alloc();
    let mut bytes = first_bytes(alloc, 129)?;
    for _ in 0..12 {
        bytes.extend_from_slice(&LAST.to_le_bytes())?;
    }
    assert_reports(&rt, alloc, bytes, UNDRAWN)
}

// Its nearness is 1.
#[test]
fn a_rectangle_of_the_last_numbers_is_hidden(rt: HostRuntime) -> Result<(), Fail> {
    let alloc = rt.alloc();
    let bytes = scene(alloc, &QUAD, &TWO, &[[-LAST, -LAST, LAST, LAST, LAST]])?;
    assert_reports(&rt, alloc, bytes, OCCLUDED)
}

#[test]
fn a_mesh_without_triangles_is_outside(rt: HostRuntime) -> Result<(), Fail> {
    let alloc = rt.alloc();
    let [x0, y0, x1, y1, w] = WHOLE;
    let objects = [(0, [x0, y0, x1, y1, w, 0]), (2, [0; 6])];
    let bytes = scene_of(alloc, &QUAD, &TWO, &[], &objects)?;
    let text = concat!(
        "msoc-report 1 32 8 1 2\n",
        "frame 0 pieces 2\n0 occluded\n1 outside\nend 0 visible 0 occluded 1 outside 1\n",
    );
    assert_reports(&rt, alloc, bytes, text)
}
