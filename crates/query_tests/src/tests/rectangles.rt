//! Rectangles over a tile that is drawn in part, and boxes before, across and behind the near plane.
use cull_base::{ClipVertex, FrameList, Grade, Rect, ScreenTri, Size, Verdict};
use masked_update::{PlainView, SubTile, TileState, draw_plain};
use rect_query::{BoxAnswer, box_rect, rect_near, rect_test, references_never_fall, settled_test};
use std::test::Fail;

fn rect(x0: i32, y0: i32, x1: i32, y1: i32) -> Rect {
    Rect { x0, y0, x1, y1 }
}

// The corners of a box as the identity camera sees them.
fn corners(low: [i64; 3], high: [i64; 3]) -> [ClipVertex; 8] {
    let at = |x: i64, y: i64, w: i64| ClipVertex { x, y, w };
    [
        at(low[0], low[1], low[2]),
        at(high[0], low[1], low[2]),
        at(low[0], high[1], low[2]),
        at(high[0], high[1], low[2]),
        at(low[0], low[1], high[2]),
        at(high[0], low[1], high[2]),
        at(low[0], high[1], high[2]),
        at(high[0], high[1], high[2]),
    ]
}

// Where a box stands on a screen of 32 by 8 with the near distance 1.
fn answer_in(grade: Grade, low: [i64; 3], high: [i64; 3]) -> Result<BoxAnswer, &'static str> {
    let size = Size::new(32, 8).ok_or("size")?;
    Ok(box_rect(&corners(low, high), 1, size, grade))
}

fn answer(low: [i64; 3], high: [i64; 3]) -> Result<BoxAnswer, &'static str> {
    answer_in(Grade::Narrow, low, high)
}

// The verdict of a rectangle over a tile of which the first subtile is drawn, and whether it is settled.
fn asked(sub: SubTile, rect: Rect, q: u32) -> Result<(Verdict, bool), &'static str> {
    let size = Size::new(32, 8).ok_or("size")?;
    let mut subs = [SubTile::empty(); 8];
    subs[0] = sub;
    let states = [TileState::of(subs, 1)];
    let view = PlainView::new(&states);
    Ok((
        rect_test(&view, size, rect, q),
        settled_test(&view, size, rect, q),
    ))
}

const OCCLUDED: (Verdict, bool) = (Verdict::Occluded, false);

const VISIBLE: (Verdict, bool) = (Verdict::Visible, false);

#[test]
fn a_rectangle_is_hidden_by_a_working_layer_until_it_is_dropped(
    rt: HostRuntime,
) -> Result<(), Fail> {
    let four = rect(0, 0, 4, 4);
    let mut sub = SubTile::empty();
    sub.merge(100, 0x0F0F_0F0F);
    for (rect, q, wanted) in [
        (four, 50, OCCLUDED),
        (four, 99, OCCLUDED),
        (four, 100, VISIBLE),
        (rect(0, 0, 5, 4), 50, VISIBLE),
    ] {
        assert_eq!(rt; asked(sub, rect, q)?, wanted);
    }
    sub.merge(201, 0x10);
    assert_eq!(rt; asked(sub, four, 50)?, VISIBLE);
    Ok(())
}

#[test]
fn a_rectangle_is_settled_by_a_reference(rt: HostRuntime) -> Result<(), Fail> {
    let mut whole = SubTile::empty();
    whole.merge(100, 0xFFFF_FFFF);
    assert_eq!(rt;
        asked(whole, rect(0, 0, 4, 4), 99)?,
        (Verdict::Occluded, true)
    );
    assert_eq!(rt; asked(whole, rect(0, 0, 4, 4), 100)?, VISIBLE);
    references_never_fall();
    Ok(())
}

#[test]
fn a_rectangle_beside_the_screen_is_outside_and_not_settled(rt: HostRuntime) -> Result<(), Fail> {
    let mut whole = SubTile::empty();
    whole.merge(100, 0xFFFF_FFFF);
    for rect in [rect(5, 0, 5, 4), rect(32, 0, 40, 4), rect(0, -4, 4, 0)] {
        assert_eq!(rt; asked(whole, rect, 50)?, (Verdict::Outside, false));
    }
    Ok(())
}

#[test]
fn nearness_is_rounded_up(rt: HostRuntime) {
    let narrow = |w: i32| rect_near(w, 1, Grade::Narrow);
    assert_eq!(rt; narrow(1), Some(65535));
    assert_eq!(rt; narrow(2), Some(32768));
    assert_eq!(rt; narrow(3), Some(21845));
    assert_eq!(rt; narrow(16384), Some(4));
    assert_eq!(rt; narrow(0), None);
    assert_eq!(rt; narrow(-1), None);
}

#[test]
fn nearness_of_the_wide_grade_is_rounded_up(rt: HostRuntime) {
    let wide = |w: i32| rect_near(w, 1, Grade::Wide);
    assert_eq!(rt; wide(1), Some(16_777_215));
    assert_eq!(rt; wide(2), Some(8_388_608));
    assert_eq!(rt; wide(3), Some(5_592_405));
    assert_eq!(rt; wide(1001), Some(16_761));
    assert_eq!(rt; wide(16384), Some(1024));
    assert_eq!(rt; wide(0), None);
}

// At distances 1000 and 1001 the wide grade has 16777 and 16761; the narrow one has 65 and 66, and hides nothing there.
#[test]
fn a_rectangle_just_behind_a_quad_is_hidden_in_the_wide_grade(rt: HostRuntime) -> Result<(), Fail> {
    let size = Size::new(32, 8).ok_or("a size")?;
    let mut list = FrameList::with_room(rt.alloc(), size, 2)?;
    list.push(ScreenTri::new([0, 512, 512], [0, 0, 128], [16777; 3]).ok_or("a piece")?);
    list.push(ScreenTri::new([0, 512, 0], [0, 128, 128], [16777; 3]).ok_or("a piece")?);
    let tiles = draw_plain(rt.alloc(), &list)?;
    let view = PlainView::new(&tiles);
    let whole = size.screen();
    assert_eq!(rt; rect_test(&view, size, whole, 16761), Verdict::Occluded);
    assert_eq!(rt; rect_test(&view, size, whole, 16777), Verdict::Visible);
    Ok(())
}

#[test]
fn a_box_before_the_viewer_has_a_rectangle_and_the_nearness_of_its_least_distance(
    rt: HostRuntime,
) -> Result<(), Fail> {
    let rect = rect(10, 2, 22, 6);
    let wanted = BoxAnswer::At { rect, q: 21845 };
    assert_eq!(rt; answer([-1, -1, 3], [1, 1, 6])?, wanted);
    let wide = BoxAnswer::At { rect, q: 5592405 };
    assert_eq!(rt; answer_in(Grade::Wide, [-1, -1, 3], [1, 1, 6])?, wide);
    Ok(())
}

#[test]
fn a_box_that_straddles_the_near_plane_or_the_guard_has_no_rectangle(
    rt: HostRuntime,
) -> Result<(), Fail> {
    assert_eq!(rt; answer([0, 0, 0], [1, 1, 5])?, BoxAnswer::Straddles);
    assert_eq!(rt; answer([16385, 0, 5], [16385, 1, 6])?, BoxAnswer::Straddles);
    assert_eq!(rt; answer([0, 0, -5], [1, 1, 0])?, BoxAnswer::Outside);
    let far = 0x100_0000;
    assert_eq!(rt; answer([-far, 0, -far], [far, 1, 0])?, BoxAnswer::Outside);
    Ok(())
}

// The quotients of x are 31 / 512 and 1 / (512 * 16351) less, of y 132 / 512 and a little more: each pair lies on both
// sides of a pixel's edge.
#[test]
fn corners_with_nearly_the_same_quotient_are_told_apart(rt: HostRuntime) -> Result<(), Fail> {
    let size = Size::new(32, 8).ok_or("size")?;
    let a = ClipVertex {
        x: 31,
        y: 132,
        w: 512,
    };
    let b = ClipVertex {
        x: 990,
        y: 4216,
        w: 16351,
    };
    let rect = rect(16, 2, 18, 4);
    for corners in [
        [a, b, a, b, a, b, a, b],
        [b, a, b, a, b, a, b, a],
        [a, a, a, a, a, a, a, b],
        [b, b, b, b, b, b, b, a],
    ] {
        let answer = box_rect(&corners, 1, size, Grade::Narrow);
        assert_eq!(rt; answer, BoxAnswer::At { rect, q: 128 });
    }
    Ok(())
}

#[test]
fn a_box_at_the_guard_has_the_greatest_products(rt: HostRuntime) -> Result<(), Fail> {
    let size = Size::new(32, 8).ok_or("size")?;
    let most = 0x100_0000;
    let at = |x: i64, y: i64, w: i64| ClipVertex { x, y, w };
    let far = at(most, most, most);
    let corners = [
        far,
        at(-most, most, most),
        at(most, -most, 1024),
        at(-most, most, 1024),
        far,
        far,
        far,
        far,
    ];
    let rect = rect(-262_128, -65_532, 262_161, 65_541);
    let answer = box_rect(&corners, 1024, size, Grade::Narrow);
    assert_eq!(rt; answer, BoxAnswer::At { rect, q: 65535 });
    Ok(())
}

#[test]
fn corners_at_one_distance_are_told_apart_by_their_coordinates(
    rt: HostRuntime,
) -> Result<(), Fail> {
    let rect = rect(10, 2, 22, 6);
    let wanted = BoxAnswer::At { rect, q: 21845 };
    assert_eq!(rt; answer([-1, -1, 3], [1, 1, 3])?, wanted);
    Ok(())
}

// docs/LIBRARY.md shows this test as the way in which another crate uses these layers.
#[test]
fn a_triangle_hides_what_lies_behind_it(rt: HostRuntime) -> Result<(), Fail> {
    let size = Size::new(64, 32).ok_or("a size")?;
    // x and y of three points in sixteenths of a pixel, clockwise, and the nearness of each
    let triangle = ScreenTri::new([0, 1024, 0], [0, 0, 1024], [40000; 3]).ok_or("a piece")?;
    let mut list = FrameList::with_room(rt.alloc(), size, 1)?;
    list.push(triangle);
    let tiles = draw_plain(rt.alloc(), &list)?;
    let view = PlainView::new(&tiles);
    // at twice the near distance of 16: half of 65535, rounded up
    let nearness = rect_near(32, 16, Grade::Narrow).ok_or("a nearness")?;
    let behind = Rect {
        x0: 4,
        y0: 4,
        x1: 12,
        y1: 12,
    };
    let beside = Rect {
        x0: 56,
        y0: 24,
        x1: 64,
        y1: 32,
    };
    assert_eq!(rt; rect_test(&view, size, behind, nearness), Verdict::Occluded);
    assert_eq!(rt; rect_test(&view, size, beside, nearness), Verdict::Visible);
    Ok(())
}
