//! Boxes before, beside and behind the eye, on a screen of 64 by 32 with the near distance 2^30 units.
use crate::Reached;
use cull_base::Rect;
use exact_clip::Held;
use std::test::Fail;

const NEAR: u32 = 0x4000_0000;

const TOP: u32 = 16777215;

// A corner in hundredths of the near distance.
fn at(x: i32, y: i32, w: i32) -> Held {
    let hundredth = i64::from(NEAR) / 100;
    Held {
        x: i64::from(x) * hundredth,
        y: i64::from(y) * hundredth,
        w: i64::from(w) * hundredth,
    }
}

// A box around a middle, as far to its left and right, as far above and below the eye, from one distance to another.
fn box_at(middle: i16, half_width: i16, half_height: i16, front: i16, back: i16) -> [Held; 8] {
    let left = i32::from(middle) - i32::from(half_width);
    let right = i32::from(middle) + i32::from(half_width);
    let (upper, lower) = (i32::from(half_height), -i32::from(half_height));
    let (front, back) = (i32::from(front), i32::from(back));
    [
        at(left, upper, front),
        at(right, upper, front),
        at(left, lower, front),
        at(right, lower, front),
        at(left, upper, back),
        at(right, upper, back),
        at(left, lower, back),
        at(right, lower, back),
    ]
}

fn reached(corners: &[Held; 8]) -> Reached {
    Reached::of(corners.as_slice(), NEAR, 64, 32, 0, TOP)
}

#[test]
fn box_before_the_eye_reaches_its_rectangle(rt: HostRuntime) -> Result<(), Fail> {
    let rect = Rect {
        x0: 24,
        y0: 13,
        x1: 40,
        y1: 19,
    };
    let nearness = 8388608;
    assert_eq!(rt;
        reached(&box_at(0, 45, 30, 200, 300)),
        Reached::At { rect, nearness }
    );
    Ok(())
}

#[test]
fn box_beside_the_screen_is_outside(rt: HostRuntime) -> Result<(), Fail> {
    assert_eq!(rt; reached(&box_at(400, 45, 30, 200, 300)), Reached::Outside);
    assert_eq!(rt; reached(&box_at(-400, 45, 30, 50, 300)), Reached::Outside);
    assert_eq!(rt; reached(&box_at(0, 45, 30, -300, -200)), Reached::Outside);
    Ok(())
}

#[test]
fn box_with_a_corner_before_the_near_distance_is_visible(rt: HostRuntime) -> Result<(), Fail> {
    assert_eq!(rt; reached(&box_at(0, 45, 30, 50, 300)), Reached::Visible);
    Ok(())
}
