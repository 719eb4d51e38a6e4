//! What is drawn, and what it hides.
use runs_for_tests::assert_reports;
use scenes_for_tests::{
    FIRST, OCCLUDED, QUAD, TWO, UNDRAWN, VISIBLE, WHOLE, changed, scene, two_frames,
};
use std::test::*;

const TWO_TURNED: [[u32; 3]; 2] = [[0, 2, 1], [0, 3, 2]];

#[test]
fn quad_hides_rectangle_behind_it(rt: HostRuntime) -> Result<(), Fail> {
    let alloc = rt.alloc();
    let bytes = scene(alloc, &QUAD, &TWO, &[WHOLE])?;
    assert_eq!(rt; bytes.as_slice(), FIRST.as_slice());
    assert_reports(&rt, alloc, bytes, OCCLUDED)
}

#[test]
fn equal_nearness_is_visible(rt: HostRuntime) -> Result<(), Fail> {
    let alloc = rt.alloc();
    let before = scene(alloc, &QUAD, &TWO, &[[0, 0, 32, 8, 2]])?;
    assert_reports(&rt, alloc, before, VISIBLE)?;
    let quad = [[-3, 3, 3], [3, 3, 3], [3, -3, 3], [-3, -3, 3]];
    assert_reports(&rt, alloc, scene(alloc, &quad, &TWO, &[WHOLE])?, VISIBLE)
}

#[test]
fn nothing_is_hidden_by_no_triangles(rt: HostRuntime) -> Result<(), Fail> {
    let alloc = rt.alloc();
    let bytes = scene(alloc, &QUAD, &[], &[WHOLE])?;
    assert_reports(&rt, alloc, bytes, UNDRAWN)
}

#[test]
fn a_dropped_winding_draws_nothing(rt: HostRuntime) -> Result<(), Fail> {
    let alloc = rt.alloc();
    for (winding, triangles, text) in [
        (1, &TWO, UNDRAWN),
        (2, &TWO, OCCLUDED),
        (0, &TWO_TURNED, OCCLUDED),
        (1, &TWO_TURNED, OCCLUDED),
        (2, &TWO_TURNED, UNDRAWN),
    ] {
        let bytes = scene(alloc, &QUAD, triangles, &[WHOLE])?;
        assert_reports(&rt, alloc, changed(bytes, &[(12, winding)]), text)?;
    }
    Ok(())
}

#[test]
fn a_triangle_at_the_guard_is_drawn_and_one_past_it_is_not(rt: HostRuntime) -> Result<(), Fail> {
    let alloc = rt.alloc();
    let at = [[-2, 2, 2], [16384, 2, 2], [-2, -16384, 2]];
    let text = concat!(
        "msoc-report 1 32 8 1 1\n",
        "frame 0 pieces 1\n0 occluded\nend 0 visible 0 occluded 1 outside 0\n",
    );
    let bytes = scene(alloc, &at, &[[0, 1, 2]], &[WHOLE])?;
    assert_reports(&rt, alloc, bytes, text)?;
    let past = [[-2, 2, 2], [16385, 2, 2], [-2, -16384, 2]];
    let bytes = scene(alloc, &past, &[[0, 1, 2]], &[WHOLE])?;
    assert_reports(&rt, alloc, bytes, UNDRAWN)
}

const TWO_FRAMES: &str = concat!(
    "msoc-report 1 32 8 2 2\n",
    "frame 0 pieces 2\n0 occluded\n1 occluded\nend 0 visible 0 occluded 2 outside 0\n",
    "frame 1 pieces 2\n0 visible\n1 occluded\nend 1 visible 1 occluded 1 outside 0\n",
);

#[test]
fn each_frame_is_seen_through_its_own_camera(rt: HostRuntime) -> Result<(), Fail> {
    let alloc = rt.alloc();
    assert_reports(&rt, alloc, two_frames(alloc)?, TWO_FRAMES)
}

// The screen's right column of tiles is 8 pixels wide, its lower row 4 pixels high.
#[test]
fn tiles_that_the_screen_cuts_are_drawn_and_asked(rt: HostRuntime) -> Result<(), Fail> {
    let rectangles = [[0, 0, 40, 12, 3], [32, 8, 64, 64, 3], [40, 8, 64, 64, 3]];
    let bytes = scene(rt.alloc(), &QUAD, &TWO, &rectangles)?;
    let text = concat!(
        "msoc-report 1 40 12 1 3\n",
        "frame 0 pieces 2\n0 occluded\n1 occluded\n2 outside\nend 0 visible 0 occluded 2 outside 1\n",
    );
    assert_reports(&rt, rt.alloc(), changed(bytes, &[(6, 40), (8, 12)]), text)
}
