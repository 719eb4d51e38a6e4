//! What stands behind, at and before a piece that fills a screen of 32 by 8 at three times the near distance 1. Its
//! nearness is 65535 / 3 = 21845; at w = 4 an object has 16384, at w = 2 it has 32768.
use super::*;
use crate::tests::{SETUP, area, setup};
use cull_base::{ScreenTri, Size};
use masked_update::TileState;
use std::test::Fail;

fn tiles() -> Result<[TileState; 1], &'static str> {
    let size = Size::new(32, 8).ok_or("a size")?;
    let piece = ScreenTri::new([0, 2048, 0], [0, 0, 2048], [21845; 3]).ok_or("a piece")?;
    let mut tile = TileState::empty();
    tile.take(&piece, size, 0);
    Ok([tile])
}

// The answer to a rectangle.
fn rectangle(x0: i32, y0: i32, x1: i32, y1: i32, w: i32) -> Result<u32, &'static str> {
    Ok(maskcull_test(&SETUP, &tiles()?, &area(x0, y0, x1, y1), w))
}

fn at(x: i32, y: i32, w: i32) -> Vertex {
    Vertex { x, y, w }
}

// The answer to a box between two corners, as the identity camera sees it; the corners come in no order.
fn block(low: [i32; 3], high: [i32; 3]) -> Result<u32, &'static str> {
    let (near, far) = (low[2], high[2]);
    let corners = [
        at(high[0], high[1], far),
        at(high[0], low[1], near),
        at(low[0], high[1], near),
        at(high[0], high[1], near),
        at(low[0], low[1], far),
        at(high[0], low[1], far),
        at(low[0], high[1], far),
        at(low[0], low[1], near),
    ];
    Ok(maskcull_test_box(&SETUP, &tiles()?, &Corners { corners }))
}

const ONE: Triangle = Triangle { a: 0, b: 1, c: 2 };

const NEXT: Triangle = Triangle { a: 0, b: 2, c: 3 };

// The answer to a mesh.
fn mesh(vertices: &[Vertex], triangles: &[Triangle]) -> Result<u32, &'static str> {
    Ok(maskcull_test_mesh(&SETUP, &tiles()?, vertices, triangles))
}

#[test]
fn a_rectangle_is_occluded_only_behind_what_was_drawn(rt: HostRuntime) -> Result<(), Fail> {
    assert_eq!(rt; rectangle(0, 0, 32, 8, 4)?, OCCLUDED);
    assert_eq!(rt; rectangle(-100, -100, 100, 100, 4)?, OCCLUDED);
    assert_eq!(rt; rectangle(0, 0, 32, 8, 3)?, VISIBLE);
    assert_eq!(rt; rectangle(5, 5, 6, 6, 2)?, VISIBLE);
    assert_eq!(rt; rectangle(5, 5, 6, 6, 0)?, VISIBLE);
    Ok(())
}

#[test]
fn a_rectangle_without_a_pixel_in_the_screen_is_outside(rt: HostRuntime) -> Result<(), Fail> {
    assert_eq!(rt; rectangle(32, 0, 40, 8, 4)?, OUTSIDE);
    assert_eq!(rt; rectangle(0, 0, 32, 0, 4)?, OUTSIDE);
    assert_eq!(rt; rectangle(-8, 0, 0, 8, 0)?, OUTSIDE);
    Ok(())
}

#[test]
fn a_box_is_as_near_as_its_nearest_corner(rt: HostRuntime) -> Result<(), Fail> {
    assert_eq!(rt; block([-1, -1, 4], [1, 1, 8])?, OCCLUDED);
    assert_eq!(rt; block([-1, -1, 3], [1, 1, 8])?, VISIBLE);
    assert_eq!(rt; block([-1, -1, 0], [1, 1, 8])?, VISIBLE);
    assert_eq!(rt; block([-1, -1, -8], [1, 1, 0])?, OUTSIDE);
    assert_eq!(rt; block([20, -1, 4], [21, 1, 8])?, OUTSIDE);
    Ok(())
}

#[test]
fn a_mesh_is_occluded_where_each_of_its_triangles_is(rt: HostRuntime) -> Result<(), Fail> {
    let four = [at(-4, 4, 4), at(4, 4, 4), at(4, -4, 4), at(-1, -1, 1)];
    assert_eq!(rt; mesh(&four, &[ONE])?, OCCLUDED);
    assert_eq!(rt; mesh(&four, &[ONE, NEXT])?, VISIBLE);
    let equal = [at(-3, 3, 3), at(3, 3, 3), at(3, -3, 3)];
    assert_eq!(rt; mesh(&equal, &[ONE])?, VISIBLE);
    let past_guard = [at(-4, 4, 4), at(16385, 4, 4), at(-4, -16384, 4)];
    assert_eq!(rt; mesh(&past_guard, &[ONE])?, VISIBLE);
    Ok(())
}

#[test]
fn a_mesh_that_nothing_shows_is_outside(rt: HostRuntime) -> Result<(), Fail> {
    let behind = [at(-4, 4, 0), at(4, 4, 0), at(4, -4, -1)];
    assert_eq!(rt; mesh(&behind, &[ONE])?, OUTSIDE);
    assert_eq!(rt; mesh(&behind, &[])?, OUTSIDE);
    let beside = [at(12, 4, 4), at(16, 4, 4), at(16, -4, 4)];
    assert_eq!(rt; mesh(&beside, &[ONE])?, OUTSIDE);
    Ok(())
}

#[test]
fn what_is_asked_wrongly_is_refused(rt: HostRuntime) -> Result<(), Fail> {
    let (screen, tiles) = (area(0, 0, 32, 8), tiles()?);
    let corners = Corners {
        corners: [at(0, 0, 4); 8],
    };
    let three = [at(-4, 4, 4), at(4, 4, 4), at(4, -4, 4)];
    for (width, height, near, status) in [
        (20, 8, 1, BAD_SETUP),
        (32, 8, 0, BAD_SETUP),
        (32, 16, 1, BAD_TILES),
    ] {
        let wrong = setup(width, height, near, 0);
        assert_eq!(rt; maskcull_test(&wrong, &tiles, &screen, 4), status);
        assert_eq!(rt; maskcull_test_box(&wrong, &tiles, &corners), status);
        assert_eq!(rt; maskcull_test_mesh(&wrong, &tiles, &three, &[NEXT]), status);
    }
    assert_eq!(rt; mesh(&three, &[ONE, NEXT])?, BAD_INDEX);
    Ok(())
}

// A wall over the screen at distance 4000, near distance 16: nearness 67108, and 262 in the narrow grade. At 4001 an
// area has 67093, and 263 there; at 4000 it has 67109 and 263.
#[test]
fn an_area_just_behind_a_wall_is_hidden_in_the_wide_grade(rt: HostRuntime) {
    let wall = [
        at(-4000, 4000, 4000),
        at(4000, 4000, 4000),
        at(4000, -4000, 4000),
        at(-4000, -4000, 4000),
    ];
    let screen = area(0, 0, 32, 8);
    for (winding, behind) in [(WIDE, OCCLUDED), (WIDE + 2, OCCLUDED), (0, VISIBLE)] {
        let asked = setup(32, 8, 16, winding);
        let mut tiles = [TileState::empty(); 1];
        assert_eq!(rt;
            maskcull_draw(&asked, &mut tiles, &wall, &[ONE, NEXT]),
            DONE
        );
        assert_eq!(rt; maskcull_test(&asked, &tiles, &screen, 4001), behind);
        assert_eq!(rt; maskcull_test(&asked, &tiles, &screen, 4000), VISIBLE);
        let beyond = [
            at(-4001, 4001, 4001),
            at(4001, 4001, 4001),
            at(4001, -4001, 4001),
            at(-4001, -4001, 4001),
        ];
        assert_eq!(rt;
            maskcull_test_mesh(&asked, &tiles, &beyond, &[ONE, NEXT]),
            behind
        );
    }
}
