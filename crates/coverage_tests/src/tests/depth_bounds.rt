//! Bounds with their numbers written out, and a plain loop over the samples beside the corner.
ghost use Rattle.std.specs.Prelude.{◌<◌};

use crate::tests::numbers::{after, number};
use cull_base::{HELD_TOP, Sample, ScreenTri, Sub, Tile};
use depth_plane::{Plane, SmallPlane};
use std::process::Abort;

fn piece_of(rt: &impl Abort, x: [i32; 3], y: [i32; 3], q: [u32; 3]) -> ScreenTri {
    ScreenTri::new(x, y, q).expect(rt, "a piece")
}

#[test]
fn a_sloping_piece_is_bounded_by_its_plane_and_its_vertices(rt: HostRuntime) {
    let tri = piece_of(&rt, [0, 512, 0], [0, 0, 512], [1000, 200, 1000]);
    let plane = Plane::of(&tri);
    assert_eq!(rt; plane.low(&tri, Sub { column: 0, row: 0 }), 812);
    assert_eq!(rt; plane.high(&tri, Sub { column: 0, row: 0 }), 988);
    assert_eq!(rt; plane.low(&tri, Sub { column: 3, row: 0 }), 212);
    assert_eq!(rt; plane.low(&tri, Sub { column: 4, row: 0 }), 200);
}

#[test]
fn a_small_plane_has_the_bounds_of_the_plane(rt: HostRuntime) {
    let tri = piece_of(&rt, [0, 512, 0], [0, 0, 512], [1000, 200, 1000]);
    let plane = SmallPlane::of(&tri).expect(&rt, "a small plane");
    assert_eq!(rt; plane.bound(Sub { column: 0, row: 0 }, 200), 812);
    assert_eq!(rt; plane.bound(Sub { column: 3, row: 0 }, 200), 212);
    assert_eq!(rt; plane.bound(Sub { column: 4, row: 0 }, 200), 200);
}

// Their doubled areas are 2^31 - 2^16 and 2^31.
#[test]
fn a_small_plane_has_an_area_below_31_bits(rt: HostRuntime) {
    let below = piece_of(&rt, [0, 65_536, 0], [0, 0, 32_767], [7, 7, 7]);
    let above = piece_of(&rt, [0, 65_536, 0], [0, 0, 32_768], [7, 7, 7]);
    let plane = SmallPlane::of(&below).expect(&rt, "a small plane");
    assert_eq!(rt; plane.bound(Sub { column: 0, row: 0 }, 7), 7);
    assert!(rt; SmallPlane::of(&above).is_none());
}

// The numbers of the first test 256 times as great: more than 16 bits hold.
#[test]
fn a_sloping_piece_of_the_wide_grade_is_bounded_as_finely(rt: HostRuntime) {
    let tri = piece_of(&rt, [0, 512, 0], [0, 0, 512], [256_000, 51_200, 256_000]);
    assert_eq!(rt; bounds(&tri, 0, 0), (208_000, 252_800));
    assert_eq!(rt; bounds(&tri, 3, 0).0, 54_400);
    assert_eq!(rt; bounds(&tri, 4, 0).0, 51_200);
}

#[test]
fn nearness_goes_to_the_top_that_pieces_hold(rt: HostRuntime) {
    let (x, y) = ([0, 16, 0], [0, 0, 16]);
    assert!(rt; ScreenTri::new(x, y, [0, 16_777_215, 0]).is_some());
    assert!(rt; ScreenTri::new(x, y, [0, 16_777_216, 0]).is_none());
}

// The depth goes from 0 at x = -400,000,000 to 1001 at 400,000,000, so it is 500.5 at x = 0 and hardly rises there.
#[test]
fn numerators_beyond_64_bits_are_divided_too(rt: HostRuntime) {
    let far = 400_000_000;
    let tri = piece_of(&rt, [-far, far, far], [-far, -far, far], [0, 1001, 1001]);
    let plane = Plane::of(&tri);
    let sub = Sub { column: 0, row: 0 };
    assert_eq!(rt; plane.low(&tri, sub), 500);
    assert_eq!(rt; plane.high(&tri, sub), 501);
    assert_eq!(rt; plane.floors(Tile { column: 0, row: 0 }), [500; 8]);
}

// The same with 16,777,201 in place of 1001: it is 8,388,600.5 at x = 0, and rises by one in 47 or 48 sixteenths.
#[test]
fn numerators_of_the_wide_grade_beyond_64_bits_are_divided_too(rt: HostRuntime) {
    let far = 400_000_000;
    let nearest = 16_777_201;
    let tri = piece_of(
        &rt,
        [-far, far, far],
        [-far, -far, far],
        [0, nearest, nearest],
    );
    assert_eq!(rt; bounds(&tri, 0, 0), (8_388_600, 8_388_604));
    assert_eq!(rt;
        floors(&tri, 0, 0),
        [
            8_388_600, 8_388_603, 8_388_606, 8_388_608, 8_388_600, 8_388_603, 8_388_606, 8_388_608
        ]
    );
}

fn floors(tri: &ScreenTri, column: u16, row: u16) -> [u32; 8]
    requires column { column < 64 }
    requires row { row < 256 }
{
    Plane::of(tri).floors(Tile { column, row })
}

// The depth is 812.5 over the last samples of the first column of subtiles, and 200 less over each one's further right.
#[test]
fn floors_go_on_below_the_least_nearness_down_to_zero(rt: HostRuntime) {
    let tri = piece_of(&rt, [0, 512, 0], [0, 0, 512], [1000, 200, 1000]);
    assert_eq!(rt;
        floors(&tri, 0, 0),
        [812, 612, 412, 212, 812, 612, 412, 212]
    );
    assert_eq!(rt; floors(&tri, 1, 0), [12, 0, 0, 0, 12, 0, 0, 0]);
    let plane = Plane::of(&tri);
    assert_eq!(rt; plane.low(&tri, Sub { column: 1, row: 1 }), 612);
    assert_eq!(rt; plane.low(&tri, Sub { column: 4, row: 1 }), 200);
}

// The least depth over the first subtile is 768 and 63/64; it falls by 199.75 a column and by 50 a row.
#[test]
fn what_is_left_of_two_quotients_is_carried(rt: HostRuntime) {
    let tri = piece_of(&rt, [0, 512, 0], [0, 0, 512], [1000, 201, 600]);
    assert_eq!(rt;
        floors(&tri, 0, 0),
        [768, 569, 369, 169, 718, 519, 319, 119]
    );
}

// The doubled area is 1, and the depth 1,000,000x - 1,001,000y: too steep for lanes.
#[test]
fn a_steep_piece_has_floors_too(rt: HostRuntime) {
    let tri = piece_of(&rt, [0, 1000, 1001], [0, 999, 1000], [0, 1000, 0]);
    let top = HELD_TOP;
    assert_eq!(rt;
        floors(&tri, 0, 0),
        [0, top, top, top, 0, 15_880_000, top, top]
    );
    assert_eq!(rt; bounds(&tri, 0, 1).0, 0);
    assert_eq!(rt; bounds(&tri, 1, 1).0, 15_880_000);
}

// The doubled area is 2^32, too great for lanes, and the depth 60,000 - 50,000x/65,536.
#[test]
fn a_great_piece_has_floors_too(rt: HostRuntime) {
    let side = 65_536;
    let tri = piece_of(&rt, [0, side, 0], [0, 0, side], [60_000, 10_000, 60_000]);
    assert_eq!(rt;
        floors(&tri, 0, 0),
        [
            59_908, 59_810, 59_713, 59_615, 59_908, 59_810, 59_713, 59_615
        ]
    );
    assert_eq!(rt; bounds(&tri, 3, 1).0, 59_615);
}

fn bounds(tri: &ScreenTri, column: u16, row: u16) -> (u32, u32)
    requires column { column < 256 }
    requires row { row < 512 }
{
    let plane = Plane::of(tri);
    let sub = Sub { column, row };
    (plane.low(tri, sub), plane.high(tri, sub))
}

// The depth is 1000 - 50x: 600 at the first sample, where x is 8, and -5000 at the last in its row.
#[test]
fn the_vertices_bound_a_piece_of_one_pixel(rt: HostRuntime) {
    let falling = piece_of(&rt, [0, 16, 0], [0, 0, 16], [1000, 200, 1000]);
    assert_eq!(rt; bounds(&falling, 0, 0), (200, 600));
    assert_eq!(rt; bounds(&falling, 1, 0), (200, 0));
    assert_eq!(rt; bounds(&falling, 255, 511), (200, 0));
    assert_eq!(rt; bounds(&falling, 0, 511), (200, 600));
}

// The depth is half the top times x/8: from half the top at x = 8 on, past the top from x = 24 on.
#[test]
fn a_plane_past_the_top_is_cut_to_it(rt: HostRuntime) {
    let rising = piece_of(&rt, [0, 16, 0], [0, 0, 16], [0, HELD_TOP, 0]);
    assert_eq!(rt; bounds(&rising, 0, 0), (HELD_TOP / 2, HELD_TOP));
    assert_eq!(rt; bounds(&rising, 1, 0), (HELD_TOP, HELD_TOP));
    assert_eq!(rt; bounds(&rising, 255, 511), (HELD_TOP, HELD_TOP));
}

// The depth is the top less half the top times y/8: half the top at y = 8, below 0 from y = 24 on.
#[test]
fn a_plane_below_zero_is_cut_to_it(rt: HostRuntime) {
    let falling = piece_of(&rt, [0, 16, 0], [0, 0, 16], [HELD_TOP, HELD_TOP, 0]);
    assert_eq!(rt; bounds(&falling, 0, 0), (0, HELD_TOP / 2 + 1));
    assert_eq!(rt; bounds(&falling, 0, 1), (0, 0));
    assert_eq!(rt; bounds(&falling, 255, 511), (0, 0));
}

// The sloping piece has 987.5 at the first sample: its whole quotient is that of 987, and the remainder decides.
#[test]
fn nearer_is_strict_and_sees_remainders(rt: HostRuntime) {
    let x = [0, 512, 0];
    let y = [0, 0, 512];
    let sloping = Plane::of(&piece_of(&rt, x, y, [1000, 200, 1000]));
    let below = Plane::of(&piece_of(&rt, x, y, [987; 3]));
    let above = Plane::of(&piece_of(&rt, x, y, [988; 3]));
    let sample = Sample { px: 0, py: 0 };
    assert!(rt; sloping.nearer(&below, sample));
    assert!(rt; !below.nearer(&sloping, sample));
    assert!(rt; above.nearer(&sloping, sample));
    assert!(rt; !sloping.nearer(&above, sample));
    assert!(rt; !sloping.nearer(&sloping, sample));
}

// Three coordinates from -4,000 on.
fn coordinates(state: u64) -> [i32; 3] {
    let second = after(state);
    [
        number(state, 40_000) as i32 - 4000,
        number(second, 40_000) as i32 - 4000,
        number(after(second), 40_000) as i32 - 4000,
    ]
}

fn edge_value(ax: i32, ay: i32, bx: i32, by: i32, x: i64, y: i64) -> i64 {
    let across = i64::from(bx).wrapping_sub(i64::from(ax));
    let down = i64::from(by).wrapping_sub(i64::from(ay));
    let right = across.wrapping_mul(y.wrapping_sub(i64::from(ay)));
    right.wrapping_sub(down.wrapping_mul(x.wrapping_sub(i64::from(ax))))
}

fn numerator(x: &[i32; 3], y: &[i32; 3], q: &[u32; 3], px: i64, py: i64) -> i64 {
    let a = i64::from(q[0]).wrapping_mul(edge_value(x[1], y[1], x[2], y[2], px, py));
    let b = i64::from(q[1]).wrapping_mul(edge_value(x[2], y[2], x[0], y[0], px, py));
    let c = i64::from(q[2]).wrapping_mul(edge_value(x[0], y[0], x[1], y[1], px, py));
    a.wrapping_add(b).wrapping_add(c)
}

// The least and the greatest numerator, sample by sample.
fn extremes(x: &[i32; 3], y: &[i32; 3], q: &[u32; 3], sub: Sub) -> (i64, i64) {
    let mut least = i64::MAX;
    let mut greatest = i64::MIN;
    for k in 0..32u32 {
        let px = 16 * (8 * i64::from(sub.column) + i64::from(k % 8)) + 8;
        let py = 16 * (4 * i64::from(sub.row) + i64::from(k / 8)) + 8;
        let n = numerator(x, y, q, px, py);
        least = least.min(n);
        greatest = greatest.max(n);
    }
    (least, greatest)
}

fn plain_bounds(x: &[i32; 3], y: &[i32; 3], q: &[u32; 3], sub: Sub) -> (i64, i64) {
    let area = edge_value(x[0], y[0], x[1], y[1], i64::from(x[2]), i64::from(y[2]));
    let (least, greatest) = extremes(x, y, q, sub);
    if area <= 0 {
        return (0, 0);
    }
    let floor = least.div_euclid(area);
    let whole = greatest.div_euclid(area);
    let ceiling = if greatest.rem_euclid(area) == 0 {
        whole
    } else {
        whole.saturating_add(1)
    };
    let least_nearness = i64::from(q[0].min(q[1]).min(q[2]));
    let greatest_nearness = i64::from(q[0].max(q[1]).max(q[2]));
    (
        floor.max(least_nearness).clamp(0, i64::from(HELD_TOP)),
        ceiling.min(greatest_nearness).clamp(0, i64::from(HELD_TOP)),
    )
}

#[test]
fn the_corner_agrees_with_all_samples(rt: HostRuntime) {
    let mut state = 7u64;
    let mut pieces = 0u32;
    let top = u64::from(HELD_TOP) + 1;
    for i in 0..800u32 {
        state = after(after(state));
        let x = coordinates(state);
        let y = coordinates(after(after(after(state))));
        let q = [
            number(after(state), top) as u32,
            number(state, top) as u32,
            number(after(after(state)), top) as u32,
        ];
        if let Some(tri) = ScreenTri::new(x, y, q) {
            pieces = pieces.wrapping_add(1);
            let plane = Plane::of(&tri);
            let sub = Sub {
                column: number(state, 256) as u16,
                row: number(after(state), 512) as u16,
            };
            let (low, high) = plain_bounds(&x, &y, &q, sub);
            assert_eq!(rt; i64::from(plane.low(&tri, sub)), low, "low at {i}");
            assert_eq!(rt; i64::from(plane.high(&tri, sub)), high, "high at {i}");
        }
    }
    assert!(rt; pieces > 300, "{pieces} pieces");
}
