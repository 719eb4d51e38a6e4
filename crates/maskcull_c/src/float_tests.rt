//! Meshes and boxes of floats: what a quad hides, what is beside the screen, and what is refused.
use super::*;
use crate::tests::FOUR_TILES;
use cull_base::ScreenTri;
use masked_update::TileState;
use std::test::Fail;

const ONE: u32 = 0x3f80_0000;

const TWO: u32 = 0x4000_0000;

const FOUR: u32 = 0x4080_0000;

const FIVE: u32 = 0x40a0_0000;

const FORTY: u32 = 0x4220_0000;

const MINUS_ONE: u32 = 0xbf80_0000;

const MINUS_FOUR: u32 = 0xc080_0000;

const NO_NUMBER: u32 = 0x7fc0_0000;

// x, y and the distance z from the eye; near is 1, and a pixel counts as a whole.
const VIEW: View = View {
    rows: [ONE, 0, 0, 0, 0, ONE, 0, 0, 0, 0, ONE, 0],
    near_distance: ONE,
    reach: 8,
    share: 0,
    stride: 3,
    width: 64,
    height: 16,
};

// A quad at distance 2, twice as wide and as high as the screen.
const WALL: [u32; 12] = [
    MINUS_FOUR, FOUR, TWO, FOUR, FOUR, TWO, FOUR, MINUS_FOUR, TWO, MINUS_FOUR, MINUS_FOUR, TWO,
];

const HALVES: [Triangle; 2] = [Triangle { a: 0, b: 1, c: 2 }, Triangle { a: 0, b: 2, c: 3 }];

const UNWRITTEN: PieceRoom = PieceRoom {
    x: [0; 3],
    y: [0; 3],
    q: [0; 3],
};

const NO_POINT: Scratch = Scratch {
    held: [0; 3],
    state: [7; 2],
};

// Sets the wall up and draws it. How many pieces it has.
fn draw_wall(tiles: &mut [TileState], view: &View) -> Result<usize, &'static str> {
    let mut room = [UNWRITTEN; 14];
    let mut scratch = [NO_POINT; 4];
    let mut count = 0;
    if maskcull_set_up_floats(
        &FOUR_TILES,
        view,
        &WALL,
        &HALVES,
        &mut scratch,
        &mut room,
        &mut count,
    ) != DONE
    {
        return Err("a mesh");
    }
    for written in room.iter().take(count) {
        let tri = ScreenTri::new(written.x, written.y, written.q).ok_or("a piece")?;
        if maskcull_draw_pieces(&FOUR_TILES, tiles, 0, &[ListedPiece::of(&tri)]) != DONE {
            return Err("a piece");
        }
    }
    Ok(count)
}

#[test]
fn a_box_behind_a_wall_is_occluded(rt: HostRuntime) -> Result<(), Fail> {
    let mut tiles = [TileState::empty(); 4];
    assert_eq!(rt; draw_wall(&mut tiles, &VIEW)?, 2);
    hidden_in_picture();
    nearer_than_all();
    let behind = Bounds {
        low: [MINUS_ONE, MINUS_ONE, FOUR],
        high: [ONE, ONE, FIVE],
    };
    let before = Bounds {
        low: [MINUS_ONE, MINUS_ONE, ONE],
        ..behind
    };
    let beside = Bounds {
        low: [FORTY, MINUS_ONE, FOUR],
        high: [FORTY, ONE, FIVE],
    };
    assert_eq!(rt;
        maskcull_test_box_floats(&FOUR_TILES, &tiles, &VIEW, &behind),
        OCCLUDED
    );
    assert_eq!(rt;
        maskcull_test_box_floats(&FOUR_TILES, &tiles, &VIEW, &before),
        VISIBLE
    );
    assert_eq!(rt;
        maskcull_test_box_floats(&FOUR_TILES, &tiles, &VIEW, &beside),
        OUTSIDE
    );
    assert_eq!(rt;
        maskcull_test_box_floats(&FOUR_TILES, &tiles[..3], &VIEW, &beside),
        BAD_TILES
    );
    Ok(())
}

#[test]
fn a_mesh_with_a_triangle_before_a_wall_is_visible(rt: HostRuntime) -> Result<(), Fail> {
    let mut tiles = [TileState::empty(); 4];
    assert_eq!(rt; draw_wall(&mut tiles, &VIEW)?, 2);
    let positions = [
        MINUS_ONE, ONE, FOUR, ONE, ONE, FIVE, 0, MINUS_ONE, FOUR, 0, 0, ONE, NO_NUMBER, 0, FOUR,
    ];
    let behind = Triangle { a: 0, b: 1, c: 2 };
    let before = Triangle { a: 0, b: 1, c: 3 };
    let unknown = Triangle { a: 0, b: 1, c: 4 };
    let test = |triangles: &[Triangle]| maskcull_test_mesh_floats(
        &FOUR_TILES,
        &tiles,
        &VIEW,
        &positions,
        triangles,
    );
    assert_eq!(rt; test(&[behind]), OCCLUDED);
    assert_eq!(rt; test(&[behind, before]), VISIBLE);
    assert_eq!(rt; test(&[behind, unknown]), VISIBLE);
    assert_eq!(rt; test(&[]), OUTSIDE);
    assert_eq!(rt; test(&[Triangle { a: 0, b: 1, c: 5 }]), BAD_INDEX);
    Ok(())
}

#[test]
fn a_near_distance_that_is_no_number_draws_nothing(rt: HostRuntime) -> Result<(), Fail> {
    let mut tiles = [TileState::empty(); 4];
    let view = View {
        near_distance: NO_NUMBER,
        ..VIEW
    };
    assert_eq!(rt; draw_wall(&mut tiles, &view)?, 0);
    let wrong = View { stride: 2, ..VIEW };
    let all = Bounds {
        low: [0; 3],
        high: [ONE; 3],
    };
    assert_eq!(rt;
        maskcull_test_box_floats(&FOUR_TILES, &tiles, &view, &all),
        VISIBLE
    );
    assert_eq!(rt;
        maskcull_test_box_floats(&FOUR_TILES, &tiles, &wrong, &all),
        BAD_SETUP
    );
    Ok(())
}
