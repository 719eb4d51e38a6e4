//! Rectangles, boxes and meshes, and their verdicts.
use runs_for_tests::assert_reports;
use scenes_for_tests::{QUAD, TWO, VISIBLE, scene, scene_of, seen_from};
use std::test::*;

// There are none; two without a pixel in the screen; one beside the screen, one over it and one without a pixel, which
// all are before the near distance.
#[test]
fn rectangles_are_outside_or_before_the_near_distance(rt: HostRuntime) -> Result<(), Fail> {
    let before = [[40, 0, 48, 8, -1], [0, 0, 8, 8, -1], [4, 4, 4, 4, 0]];
    for (rectangles, text) in [
        (
            [].as_slice(),
            "msoc-report 1 32 8 1 0\nframe 0 pieces 2\nend 0 visible 0 occluded 0 outside 0\n",
        ),
        (
            &[[5, 0, 5, 8, 3], [32, 0, 40, 8, 3]],
            concat!(
                "msoc-report 1 32 8 1 2\n",
                "frame 0 pieces 2\n0 outside\n1 outside\nend 0 visible 0 occluded 0 outside 2\n",
            ),
        ),
        (
            &before,
            concat!(
                "msoc-report 1 32 8 1 3\nframe 0 pieces 2\n0 outside\n1 visible\n2 outside\n",
                "end 0 visible 1 occluded 0 outside 2\n",
            ),
        ),
    ] {
        let bytes = scene(rt.alloc(), &QUAD, &TWO, rectangles)?;
        assert_reports(&rt, rt.alloc(), bytes, text)?;
    }
    Ok(())
}

// The first box stands at the rectangle (10, 2, 22, 6) with the nearness 21845. The second is before the near distance
// in part, the third whole; so is the fourth, though past the guard too. The fifth is past it, the sixth beside the
// screen.
#[test]
fn boxes_are_hidden_by_their_rectangles(rt: HostRuntime) -> Result<(), Fail> {
    let alloc = rt.alloc();
    let far = 0x100_0000;
    let text = concat!(
        "msoc-report 1 32 8 1 6\n",
        "frame 0 pieces 2\n0 occluded\n1 visible\n2 outside\n3 outside\n4 visible\n5 outside\n",
        "end 0 visible 2 occluded 1 outside 3\n",
    );
    let boxes = [
        (1, [-1, -1, 3, 1, 1, 6]),
        (1, [0, 0, 0, 1, 1, 5]),
        (1, [0, 0, -5, 1, 1, 0]),
        (1, [-far, 0, -far, far, 1, 0]),
        (1, [16385, 0, 5, 16385, 1, 6]),
        (1, [40, 0, 5, 41, 1, 6]),
    ];
    let bytes = scene_of(alloc, &QUAD, &TWO, &[], &boxes)?;
    assert_reports(&rt, alloc, bytes, text)
}

// In the second frame the box stands at the rectangle (12, 3, 20, 5) with the nearness 13107, and the quad covers the
// pixels 8 to 23 by 2 to 5 with 16383. The mesh touches samples to the right of it.
#[test]
fn boxes_and_meshes_move_with_the_camera(rt: HostRuntime) -> Result<(), Fail> {
    let alloc = rt.alloc();
    let mut vertices = Vec::from_slice(alloc, &QUAD)?;
    vertices.extend_from_slice(&[[-3, 3, 3], [3, 3, 3], [3, -3, 3]])?;
    let objects = [(1, [-1, -1, 3, 1, 1, 6]), (2, [0, 1, 0, 0, 0, 0])];
    let bytes = scene_of(alloc, &vertices, &TWO, &[[4, 5, 6]], &objects)?;
    let text = concat!(
        "msoc-report 1 32 8 2 2\n",
        "frame 0 pieces 2\n0 occluded\n1 occluded\nend 0 visible 0 occluded 2 outside 0\n",
        "frame 1 pieces 2\n0 occluded\n1 visible\nend 1 visible 1 occluded 1 outside 0\n",
    );
    assert_reports(&rt, alloc, seen_from(bytes, 2, 2)?, text)
}

// The first mesh is behind the quad, the second past the guard, the third between all samples, the fourth beside the
// screen; the fifth has parts on both sides of it, and the last two have no triangles.
#[test]
fn meshes_are_hidden_by_their_pieces(rt: HostRuntime) -> Result<(), Fail> {
    let alloc = rt.alloc();
    let mut vertices = Vec::from_slice(alloc, &QUAD)?;
    vertices.extend_from_slice(&[[-3, 3, 3], [3, 3, 3], [3, -3, 3]])?;
    vertices.extend_from_slice(&[[16385, 2, 2], [-2, -16384, 2]])?;
    vertices.extend_from_slice(&[[-246, 216, 256], [-242, 216, 256], [-242, 200, 256]])?;
    vertices.extend_from_slice(&[[300, 216, 256], [304, 216, 256], [304, 200, 256]])?;
    vertices.extend_from_slice(&[[-600, 216, 256], [-596, 216, 256], [-596, 200, 256]])?;
    let triangles = [
        [4, 5, 6],
        [0, 7, 8],
        [9, 10, 11],
        [12, 13, 14],
        [15, 16, 17],
    ];
    let meshes = [
        (2, [0, 1, 0, 0, 0, 0]),
        (2, [1, 1, 0, 0, 0, 0]),
        (2, [2, 1, 0, 0, 0, 0]),
        (2, [3, 1, 0, 0, 0, 0]),
        (2, [3, 2, 0, 0, 0, 0]),
        (2, [0, 0, 0, 0, 0, 0]),
        (2, [5, 0, 0, 0, 0, 0]),
    ];
    let text = concat!(
        "msoc-report 1 32 8 1 7\n",
        "frame 0 pieces 2\n0 occluded\n1 visible\n2 visible\n3 outside\n4 outside\n5 outside\n",
        "6 outside\nend 0 visible 2 occluded 1 outside 4\n",
    );
    let bytes = scene_of(alloc, &vertices, &TWO, &triangles, &meshes)?;
    assert_reports(&rt, alloc, bytes, text)
}

#[test]
fn a_mesh_at_the_quad_is_visible(rt: HostRuntime) -> Result<(), Fail> {
    let alloc = rt.alloc();
    let quad = [[-3, 3, 3], [3, 3, 3], [3, -3, 3], [-3, -3, 3]];
    let mesh = [(2, [0, 1, 0, 0, 0, 0])];
    let bytes = scene_of(alloc, &quad, &TWO, &[[0, 1, 2]], &mesh)?;
    assert_reports(&rt, alloc, bytes, VISIBLE)
}
