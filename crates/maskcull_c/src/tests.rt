//! A quad over the whole screen, refusals, rows of tiles drawn one after another or with lists of their own, counts.
use super::*;
use masked_update::{SubTile, TileState};
use std::process::Abort;
use std::test::Fail;

/// One tile.
pub const SETUP: Setup = Setup {
    width: 32,
    height: 8,
    near: 1,
    winding: 0,
};

/// Two tiles side by side, in two rows.
pub const FOUR_TILES: Setup = Setup {
    width: 64,
    height: 16,
    near: 1,
    winding: 0,
};

/// The corners of the screen at distance 2, and a point farther off.
pub const VERTICES: [Vertex; 5] = [
    Vertex { x: -2, y: 2, w: 2 },
    Vertex { x: 2, y: 2, w: 2 },
    Vertex { x: 2, y: -2, w: 2 },
    Vertex { x: -2, y: -2, w: 2 },
    Vertex { x: 1, y: -3, w: 4 },
];

pub const QUAD: [Triangle; 2] = [Triangle { a: 0, b: 1, c: 2 }, Triangle { a: 0, b: 2, c: 3 }];

// The corners of the screen at distance 4.
const FARTHER: [Vertex; 4] = [
    Vertex { x: -4, y: 4, w: 4 },
    Vertex { x: 4, y: 4, w: 4 },
    Vertex { x: 4, y: -4, w: 4 },
    Vertex { x: -4, y: -4, w: 4 },
];

const SLANTED: [Triangle; 2] = [Triangle { a: 0, b: 1, c: 4 }, Triangle { a: 0, b: 2, c: 3 }];

/// The layers of a subtile.
pub fn held(tiles: &[TileState], tile: usize, subtile: u32) -> (u32, u32, u32) {
    let state = maskcull_subtile(tiles, tile, subtile);
    (state.reference, state.working, state.mask)
}

/// A screen's four tiles hold the same as others.
pub fn assert_alike(rt: &impl Abort, tiles: &[TileState], others: &[TileState]) {
    for tile in 0..4 {
        for subtile in 0..8 {
            let (one, other) = (held(tiles, tile, subtile), held(others, tile, subtile));
            assert_eq!(rt; one, other, "tile {tile}, subtile {subtile}");
        }
    }
}

/// A rectangle of pixels.
pub fn area(x0: i32, y0: i32, x1: i32, y1: i32) -> Area {
    Area { x0, y0, x1, y1 }
}

#[test]
fn a_quad_over_the_screen_hides_what_is_behind_it(rt: HostRuntime) -> Result<(), Fail> {
    let mut tiles = [TileState::empty(); 1];
    assert_eq!(rt; maskcull_tile_count(32, 8), 1);
    assert_eq!(rt; maskcull_draw(&SETUP, &mut tiles, &VERTICES, &QUAD), DONE);
    for subtile in 0..8 {
        // half of the greatest nearness, rounded down
        assert_eq!(rt; held(&tiles, 0, subtile), (32767, 0, 0), "{subtile}");
    }
    assert_eq!(rt; held(&tiles, 1, 0), (0, 0, 0));
    let screen = area(0, 0, 32, 8);
    assert_eq!(rt; maskcull_test(&SETUP, &tiles, &screen, 3), OCCLUDED);
    assert_eq!(rt; maskcull_test(&SETUP, &tiles, &screen, 2), VISIBLE);
    maskcull_clear(&mut tiles);
    assert_eq!(rt; maskcull_test(&SETUP, &tiles, &screen, 3), VISIBLE);
    for subtile in 0..8 {
        assert_eq!(rt; held(&tiles, 0, subtile), (0, 0, 0), "subtile {subtile}");
    }
    Ok(())
}

/// A setup of these numbers.
pub fn setup(width: u32, height: u32, near: u32, winding: u32) -> Setup {
    Setup {
        width,
        height,
        near,
        winding,
    }
}

#[test]
fn a_refusal_leaves_the_tiles(rt: HostRuntime) -> Result<(), Fail> {
    let mut tiles = [TileState::empty(); 1];
    // the upper right half of the screen
    assert_eq!(rt;
        maskcull_draw(&SETUP, &mut tiles, &VERTICES, &QUAD[..1]),
        DONE
    );
    let beyond = [Triangle { a: 0, b: 2, c: 3 }, Triangle { a: 0, b: 5, c: 3 }];
    let cases = [
        (setup(36, 8, 1, 0), QUAD, BAD_SETUP),
        (setup(32, 2052, 1, 0), QUAD, BAD_SETUP),
        (setup(32, 8, 0, 0), QUAD, BAD_SETUP),
        (setup(32, 8, 1, 3), QUAD, BAD_SETUP),
        (setup(32, 8, 1, 15), QUAD, BAD_SETUP),
        (setup(32, 8, 1, 19), QUAD, BAD_SETUP),
        (setup(32, 8, 1, 32), QUAD, BAD_SETUP),
        (setup(32, 16, 1, 0), QUAD, BAD_TILES),
        (setup(32, 8, 1, 0), beyond, BAD_INDEX),
    ];
    for (setup, triangles, status) in cases {
        assert_eq!(rt;
            maskcull_draw(&setup, &mut tiles, &VERTICES, &triangles),
            status
        );
        assert_eq!(rt; held(&tiles, 0, 3), (32767, 0, 0));
        assert_eq!(rt; held(&tiles, 0, 4), (0, 0, 0));
    }
    assert_eq!(rt;
        maskcull_draw_band(&SETUP, &mut tiles, 1, &VERTICES, &QUAD),
        BAD_TILES
    );
    assert_eq!(rt;
        maskcull_draw_band(&FOUR_TILES, &mut tiles, 0, &VERTICES, &QUAD),
        BAD_TILES
    );
    assert_eq!(rt; held(&tiles, 0, 4), (0, 0, 0));
    Ok(())
}

#[test]
fn rows_of_tiles_make_the_screen(rt: HostRuntime) -> Result<(), Fail> {
    let mut whole = [TileState::empty(); 4];
    assert_eq!(rt;
        maskcull_draw(&FOUR_TILES, &mut whole, &VERTICES, &SLANTED),
        DONE
    );
    let mut rows = [TileState::empty(); 4];
    let (upper, lower) = rows.split_at_mut(2);
    assert_eq!(rt;
        maskcull_draw_band(&FOUR_TILES, lower, 1, &VERTICES, &SLANTED),
        DONE
    );
    assert_eq!(rt;
        maskcull_draw_band(&FOUR_TILES, upper, 0, &VERTICES, &SLANTED),
        DONE
    );
    bands_join();
    assert_alike(&rt, &rows, &whole);
    Ok(())
}

#[test]
fn each_row_hides_by_what_was_drawn_onto_it(rt: HostRuntime) -> Result<(), Fail> {
    let (upper, lower) = (area(0, 0, 64, 8), area(0, 8, 64, 16));
    let mut tiles = [TileState::empty(); 4];
    assert_eq!(rt;
        maskcull_draw(&FOUR_TILES, &mut tiles, &VERTICES, &QUAD),
        DONE
    );
    assert_eq!(rt; maskcull_test(&FOUR_TILES, &tiles, &lower, 3), OCCLUDED);
    let (_, second_row) = tiles.split_at_mut(2);
    maskcull_clear(second_row);
    part_cleared();
    assert_eq!(rt; maskcull_test(&FOUR_TILES, &tiles, &upper, 3), OCCLUDED);
    assert_eq!(rt; maskcull_test(&FOUR_TILES, &tiles, &lower, 5), VISIBLE);
    let (_, second_row) = tiles.split_at_mut(2);
    assert_eq!(rt;
        maskcull_draw_band(&FOUR_TILES, second_row, 1, &FARTHER, &QUAD),
        DONE
    );
    after_is_sound();
    assert_eq!(rt; maskcull_test(&FOUR_TILES, &tiles, &upper, 3), OCCLUDED);
    assert_eq!(rt; maskcull_test(&FOUR_TILES, &tiles, &lower, 3), VISIBLE);
    assert_eq!(rt; maskcull_test(&FOUR_TILES, &tiles, &lower, 5), OCCLUDED);
    // and all rows again
    assert_eq!(rt;
        maskcull_draw(&FOUR_TILES, &mut tiles, &VERTICES, &QUAD),
        DONE
    );
    assert_eq!(rt; maskcull_test(&FOUR_TILES, &tiles, &lower, 3), OCCLUDED);
    Ok(())
}

#[test]
fn a_draw_leaves_the_count(rt: HostRuntime) -> Result<(), Fail> {
    let mut tiles = [TileState::of([SubTile::empty(); 8], 7); 1];
    assert_eq!(rt; maskcull_draw(&SETUP, &mut tiles, &VERTICES, &QUAD), DONE);
    assert_eq!(rt; held(&tiles, 0, 0), (32767, 0, 0));
    assert_eq!(rt;
        maskcull_draw_band(&SETUP, &mut tiles, 0, &VERTICES, &QUAD),
        DONE
    );
    for tile in &tiles {
        assert_eq!(rt; tile.count(), 7);
    }
    maskcull_clear(&mut tiles);
    for tile in &tiles {
        assert_eq!(rt; tile.count(), 0);
    }
    Ok(())
}
