//! Masks with their numbers written out, and a plain loop over the samples beside the lanes.
ghost use Rattle.std.specs.Prelude.{◌<◌, ◌^◌, ◌≤ℤ◌, pos, negsuc};

use crate::tests::numbers::{after, number};
use cull_base::{ScreenTri, Side, Sub, Tile};
use edge_lanes::{Edges, RowEdges, SmallEdges, shared_edge};
use std::process::Abort;

// The greatest coordinate of a piece.
const GUARD: i32 = 536_870_911;

// Three coordinates from `low` on, within a span, so many times as large.
fn coordinates(state: u64, low: i32, span: u64, scale: i32) -> [i32; 3]
    requires span { 0 < span }
    requires small { span < 2 ^ 20 }
    requires low_from { negsuc (2 ^ 20) ≤ℤ low }
    requires low_to { low ≤ℤ pos (2 ^ 20) }
{
    let second = after(state);
    [
        scale.wrapping_mul(low + number(state, span) as i32),
        scale.wrapping_mul(low + number(second, span) as i32),
        scale.wrapping_mul(low + number(after(second), span) as i32),
    ]
}

fn value(ax: i64, ay: i64, bx: i64, by: i64, x: i64, y: i64) -> i64 {
    let right = bx.wrapping_sub(ax).wrapping_mul(y.wrapping_sub(ay));
    let down = by.wrapping_sub(ay).wrapping_mul(x.wrapping_sub(ax));
    right.wrapping_sub(down)
}

fn counts(ax: i32, ay: i32, bx: i32, by: i32, side: Side, x: i64, y: i64) -> bool {
    let v = value(
        i64::from(ax),
        i64::from(ay),
        i64::from(bx),
        i64::from(by),
        x,
        y,
    );
    v > 0 || (v == 0 && (side == Side::Object || by < ay || (by == ay && ax < bx)))
}

// Sample by sample.
fn plain_mask(x: &[i32; 3], y: &[i32; 3], side: Side, sub: Sub) -> u32 {
    let mut mask = 0u32;
    for k in 0..32u32 {
        let px = 16 * (8 * i64::from(sub.column) + i64::from(k % 8)) + 8;
        let py = 16 * (4 * i64::from(sub.row) + i64::from(k / 8)) + 8;
        if counts(x[0], y[0], x[1], y[1], side, px, py)
            && counts(x[1], y[1], x[2], y[2], side, px, py)
            && counts(x[2], y[2], x[0], y[0], side, px, py)
        {
            mask |= 1 << k;
        }
    }
    mask
}

// The subtile, among those of the screen, that lies nearest to a place.
fn sub_near(x: i32, y: i32) -> Sub
    ensures column { result.column < 256 }
    ensures row { result.row < 512 }
{
    Sub {
        column: x.clamp(0, 32767) as u16 / 128,
        row: y.clamp(0, 32767) as u16 / 64,
    }
}

fn edges_at(rt: &impl Abort, x: [i32; 3], y: [i32; 3], side: Side) -> Edges {
    Edges::of(&ScreenTri::new(x, y, [0; 3]).expect(rt, "a piece"), side)
}

// A diagonal: a sample on it belongs to one occluder's piece, and an object's pieces both touch it.
#[test]
fn a_sample_on_a_shared_diagonal_belongs_to_one_piece(rt: HostRuntime) {
    let sub = Sub { column: 0, row: 0 };
    for (side, upper, lower) in [(Side::Occluder, 0x203, 0x100), (Side::Object, 0x203, 0x301)] {
        assert_eq!(rt;
            edges_at(&rt, [0, 32, 32], [0, 0, 32], side).mask(sub),
            upper
        );
        assert_eq!(rt;
            edges_at(&rt, [0, 32, 0], [0, 32, 32], side).mask(sub),
            lower
        );
    }
    shared_edge();
}

#[test]
fn a_tile_inside_is_whole_and_one_beside_is_empty(rt: HostRuntime) {
    let edges = edges_at(
        &rt,
        [-GUARD, GUARD, GUARD],
        [-GUARD, -GUARD, GUARD],
        Side::Occluder,
    );
    assert_eq!(rt;
        edges.tile_masks(Tile { column: 63, row: 0 }),
        [u32::MAX; 8]
    );
    assert_eq!(rt;
        edges.tile_masks(Tile {
            column: 0,
            row: 255
        }),
        [0; 8]
    );
}

// A piece of twelve pixels each way: its samples are those left of its right edge and at or right of the diagonal.
#[test]
fn a_tile_has_the_subtiles_that_no_edge_rejects(rt: HostRuntime) {
    let edges = edges_at(&rt, [0, 192, 192], [0, 0, 192], Side::Occluder);
    let upper = edges.at_tile(Tile { column: 0, row: 0 });
    assert_eq!(rt; upper.candidates(), 0x33);
    assert_eq!(rt; upper.mask(0), 0xF8FC_FEFF);
    assert_eq!(rt; upper.mask(1), 0x0F0F_0F0F);
    assert_eq!(rt; upper.mask(2), 0);
    assert_eq!(rt; upper.mask(4), 0x80C0_E0F0);
    assert_eq!(rt; upper.mask(5), 0x0F0F_0F0F);
    let beside = edges.at_tile(Tile { column: 1, row: 0 });
    assert_eq!(rt; beside.candidates(), 0);
    // below the diagonal's end and right of the right edge no edge rejects a subtile whole, but no sample is inside
    let lower = edges.at_tile(Tile { column: 0, row: 1 });
    assert_eq!(rt; lower.candidates(), 0x22);
    assert_eq!(rt; lower.mask(1), 0x080C_0E0F);
    assert_eq!(rt; lower.mask(5), 0);
}

// A diagonal from one corner to another: its first piece has the samples where x is at least y, its second the others.
fn diagonal_masks(rt: &impl Abort, from: i32, to: i32) -> [u32; 2] {
    let first = edges_at(rt, [from, to, to], [from, from, to], Side::Occluder);
    let second = edges_at(rt, [from, to, from], [from, to, to], Side::Occluder);
    let sub = Sub { column: 4, row: 8 };
    [first.mask(sub), second.mask(sub)]
}

// Of sides just narrow, just wide, and as wide as there are: the steps of the last are too wide for 32 bits.
#[test]
fn a_diagonal_crosses_a_subtile(rt: HostRuntime) {
    let halves = [0xF8FC_FEFF, 0x0703_0100];
    assert_eq!(rt; diagonal_masks(&rt, -524_288, 524_287), halves);
    assert_eq!(rt; diagonal_masks(&rt, -524_288, 524_288), halves);
    assert_eq!(rt; diagonal_masks(&rt, -GUARD, GUARD), halves);
}

// Its values there are too far from 0 for 32 bits.
#[test]
fn a_narrow_piece_far_beside_the_screen_is_empty(rt: HostRuntime) {
    let tile = Tile { column: 0, row: 0 };
    let right = [GUARD - 1000, GUARD, GUARD];
    let left = [-GUARD, 1000 - GUARD, 1000 - GUARD];
    for x in [left, right] {
        let edges = edges_at(&rt, x, [0, 0, 1000], Side::Object);
        assert_eq!(rt; edges.at_tile(tile).candidates(), 0);
        assert_eq!(rt; edges.tile_masks(tile), [0; 8]);
    }
    let above = [-GUARD, -GUARD, 1000 - GUARD];
    let edges = edges_at(&rt, [0, 1000, 1000], above, Side::Object);
    assert_eq!(rt; edges.at_tile(tile).candidates(), 0);
    assert_eq!(rt; edges.tile_masks(tile), [0; 8]);
}

// From (-500,000, -500,000) to (500,000, 500,000): each edge is far from the screen but the diagonal.
#[test]
fn a_narrow_piece_around_the_screen_is_whole_on_one_side(rt: HostRuntime) {
    let far = 500_000;
    let edges = edges_at(&rt, [-far, far, far], [-far, -far, far], Side::Occluder);
    let right = edges.at_tile(Tile { column: 63, row: 0 });
    assert_eq!(rt; right.candidates(), 0xFF);
    assert_eq!(rt; right.mask(7), u32::MAX);
    let below = edges.at_tile(Tile {
        column: 0,
        row: 255,
    });
    assert_eq!(rt; below.candidates(), 0);
    assert_eq!(rt; below.mask(0), 0);
}

// The masks of a tile, by the edges over its row.
fn row_masks(rt: &impl Abort, x: [i32; 3], y: [i32; 3], row: u32, column: u32) -> [u32; 8]
    requires row { row < 256 }
    requires column { column < 64 }
{
    let edges = RowEdges::of(&ScreenTri::new(x, y, [0; 3]).expect(rt, "a piece"));
    edges.view().over_row(row).masks(column)
}

// The diagonal of a square goes through a sample in each row: the piece above it covers that sample, the one below it
// doesn't. The reciprocal of a height below 2^16 is computed by 32 bits, of one from there on by 64.
#[test]
fn a_diagonal_through_samples_is_exact_at_each_height(rt: HostRuntime) {
    let full = u32::MAX;
    let above = [0xF8FC_FEFF, full, full, full, 0x80C0_E0F0, full, full, full];
    let below = [0x0703_0100, 0, 0, 0, 0x7F3F_1F0F, 0, 0, 0];
    for size in [65_535, 65_536] {
        assert_eq!(rt; row_masks(&rt, [0, size, size], [0, 0, size], 0, 0), above);
        assert_eq!(rt;
            row_masks(&rt, [0, size, size], [0, 0, size], 252, 63),
            above
        );
        assert_eq!(rt; row_masks(&rt, [0, size, 0], [0, size, size], 0, 0), below);
        assert_eq!(rt;
            row_masks(&rt, [0, size, 0], [0, size, size], 252, 63),
            below
        );
    }
}

// An edge that crosses rows of samples 4,063 columns apart, from column 2,031 to column 62,969, and below the piece
// past the last column that 16 bits hold.
#[test]
fn a_flat_edge_crosses_far_beside_the_screen(rt: HostRuntime) {
    let full = u32::MAX;
    let far = 1_040_000;
    let (x, y) = ([0, far, 0], [0, 256, 256]);
    let first = [
        full,
        0xFFFF_FF7F,
        0xFFFF_FF00,
        0xFFFF_FF00,
        full,
        full,
        full,
        full,
    ];
    assert_eq!(rt; row_masks(&rt, x, y, 0, 63), first);
    assert_eq!(rt; row_masks(&rt, x, y, 1, 63), [full; 8]);
    assert_eq!(rt; row_masks(&rt, x, y, 2, 63), [0; 8]);
    let (x, y) = ([0, far, far], [0, 0, 256]);
    assert_eq!(rt;
        row_masks(&rt, x, y, 0, 63),
        [0, 0x80, 0xFF, 0xFF, 0, 0, 0, 0]
    );
    assert_eq!(rt; row_masks(&rt, x, y, 1, 63), [0; 8]);
}

// Sides of 1,023 sixteenths of a pixel take lanes of 16 bits, and of 1,024 no longer.
#[test]
fn small_edges_are_less_than_64_pixels_long(rt: HostRuntime) {
    let longest = ScreenTri::new([0, 1023, 1023], [0, 0, 1023], [0; 3]).expect(&rt, "a piece");
    let edges = SmallEdges::of(&longest).expect(&rt, "small edges");
    for (column, row, wanted) in [
        (0, 0, 0xF8FC_FEFF),
        (0, 1, 0x80C0_E0F0),
        (4, 7, u32::MAX),
        (7, 14, 0xF8FC_FEFF),
        (0, 511, 0),
        (255, 0, 0),
        (255, 511, 0),
    ] {
        assert_eq!(rt; edges.mask(Sub { column, row }), wanted);
    }
    for (x, y) in [
        ([0, 1024, 1024], [0, 0, 1023]),
        ([0, 1023, 1023], [0, 0, 1024]),
    ] {
        let longer = ScreenTri::new(x, y, [0; 3]).expect(&rt, "a piece");
        assert!(rt; SmallEdges::of(&longer).is_none());
    }
}

// Whether lanes and samples agree at a piece, in the subtile nearest to a place and in its tile.
fn agree(tri: &ScreenTri, x: &[i32; 3], y: &[i32; 3], side: Side, sub: Sub) -> bool
    requires column { sub.column < 256 }
    requires row { sub.row < 512 }
{
    let edges = Edges::of(tri, side);
    let plain = plain_mask(x, y, side, sub);
    let masks = edges.tile_masks(Tile {
        column: sub.column / 4,
        row: sub.row / 2,
    });
    edges.mask(sub) == plain && masks[(sub.row % 2 * 4 + sub.column % 4) as usize] == plain
}

// Whether the spans of a row agree with samples.
fn row_agrees(tri: &ScreenTri, x: &[i32; 3], y: &[i32; 3], sub: Sub) -> bool
    requires column { sub.column < 256 }
    requires row { sub.row < 512 }
{
    let edges = RowEdges::of(tri);
    let over = edges.view().over_row(u32::from(sub.row / 2));
    let column = u32::from(sub.column / 4);
    let mask = over.masks(column)[(sub.row % 2 * 4 + sub.column % 4) as usize];
    let is_ahead = over.ahead(column) % 2 == 1 && over.ahead_among(column, 1) % 2 == 1;
    mask == plain_mask(x, y, Side::Occluder, sub) && (mask == 0 || is_ahead)
}

// The two pieces of a square of two pixels, and what they leave in the tiles of the first row: a diagonal, level edges
// and upright ones.
#[test]
fn a_row_has_the_spans_of_a_square(rt: HostRuntime) {
    let first = RowEdges::of(&ScreenTri::new([0, 32, 32], [0, 0, 32], [0; 3]).expect(
        &rt, "a piece",
    ));
    let second = RowEdges::of(&ScreenTri::new([0, 32, 0], [0, 32, 32], [0; 3]).expect(
        &rt, "a piece",
    ));
    let (upper, lower) = (first.view().over_row(0), second.view().over_row(0));
    assert_eq!(rt; upper.masks(0), [0x203, 0, 0, 0, 0, 0, 0, 0]);
    assert_eq!(rt; lower.masks(0), [0x100, 0, 0, 0, 0, 0, 0, 0]);
    assert_eq!(rt; upper.ahead(0), 1);
    assert_eq!(rt; upper.ahead(1), 0);
    assert_eq!(rt; upper.ahead_among(0, 1) % 2, 1);
    assert_eq!(rt; upper.ahead_among(1, 2), 0);
    assert_eq!(rt; first.view().over_row(1).ahead_among(0, 1), 0);
    assert_eq!(rt; upper.masks(63), [0; 8]);
    assert_eq!(rt; first.view().over_row(1).masks(0), [0; 8]);
}

// One edge is level, or hardly slanted, or nearly upright, at the first and at the last rows of the greatest screen.
#[test]
fn rows_agree_where_edges_are_level_flat_or_far(rt: HostRuntime) {
    let far = 524_000;
    for (x, y) in [
        ([0, 1600, 800], [200, 200, 1000]),
        ([800, 1600, 0], [200, 1000, 1000]),
        ([-far, far, 0], [8, 9, 600]),
        ([-far, far, 0], [32_000, 32_001, 32_700]),
        ([16_000, 16_001, 15_000], [-far, far, 0]),
        ([16_000, 16_001, 15_000], [-1000, 32_767, 32_767]),
        ([GUARD - 1000, GUARD, 0], [0, 0, 1000]),
        ([-far, far, far], [-far, -far, far]),
    ] {
        let tri = ScreenTri::new(x, y, [0; 3]).expect(&rt, "a piece");
        for column in [0, 1, 7, 100, 125, 255] {
            for row in [0, 3, 12, 500, 511] {
                assert!(rt;
                    row_agrees(&tri, &x, &y, Sub { column, row }),
                    "{column}, {row}"
                );
            }
        }
    }
}

#[test]
fn lanes_agree_with_single_samples(rt: HostRuntime) {
    let mut state = 1u64;
    let mut pieces = 0u32;
    for i in 0..1200u32 {
        state = after(after(state));
        let (low, span, scale) = match i % 6 {
            0 => (-20_000, 60_000, 1),
            1 => (-500, 1000, 1),
            2 => (1600, 17, 1),
            3 => (0, 2000, 1),
            4 => (-524_288, 1_048_575, 1),
            _ => (-500_000, 1_000_000, 1000),
        };
        let x = coordinates(state, low, span, scale);
        let y = coordinates(after(after(after(state))), low, span, scale);
        if let Some(tri) = ScreenTri::new(x, y, [0; 3]) {
            pieces = pieces.wrapping_add(1);
            for k in 0..3 {
                let sub = sub_near(x[k], y[k]);
                let beside = sub_near(x[k], y[(k + 1) % 3]);
                assert!(rt; agree(&tri, &x, &y, Side::Occluder, sub), "covered at {i}");
                assert!(rt; agree(&tri, &x, &y, Side::Object, sub), "touched at {i}");
                assert!(rt; row_agrees(&tri, &x, &y, sub), "spans at {i}");
                assert!(rt; row_agrees(&tri, &x, &y, beside), "spans beside {i}");
                assert!(rt;
                    agree(&tri, &x, &y, Side::Occluder, beside),
                    "covered beside {i}"
                );
                assert!(rt;
                    agree(&tri, &x, &y, Side::Object, beside),
                    "touched beside {i}"
                );
            }
        }
    }
    assert!(rt; pieces > 300, "{pieces} pieces");
}
