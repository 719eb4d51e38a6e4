//! Triangles that are set up once and drawn piece by piece, room for pieces, and pictures of what tiles hold.
use super::*;
use crate::tests::{FOUR_TILES, QUAD, SETUP, VERTICES, assert_alike, held, setup};
use cull_base::ScreenTri;
use masked_update::TileState;
use std::test::Fail;

// Room that nothing was written to.
const UNWRITTEN: PieceRoom = PieceRoom {
    x: [-7; 3],
    y: [7; 3],
    q: [77; 3],
};

fn numbers(room: &PieceRoom) -> ([i32; 3], [i32; 3], [u32; 3]) {
    (room.x, room.y, room.q)
}

#[test]
fn a_quad_has_two_pieces_and_the_room_behind_them_is_left(rt: HostRuntime) -> Result<(), Fail> {
    let mut room = [UNWRITTEN; 5];
    let mut count = 99;
    assert_eq!(rt;
        maskcull_set_up(&SETUP, &VERTICES, &QUAD, &mut room, &mut count),
        DONE
    );
    assert_eq!(rt; count, 2);
    // the corners in sixteenths of a pixel, clockwise; half of the greatest nearness, rounded down
    assert_eq!(rt; numbers(&room[0]), ([0, 512, 512], [0, 0, 128], [32767; 3]));
    assert_eq!(rt; numbers(&room[1]), ([0, 512, 0], [0, 128, 128], [32767; 3]));
    for left in &room[2..] {
        assert_eq!(rt; numbers(left), numbers(&UNWRITTEN));
    }
    Ok(())
}

#[test]
fn a_refused_set_up_writes_nothing(rt: HostRuntime) -> Result<(), Fail> {
    let mut room = [UNWRITTEN; 4];
    let mut count = 99;
    let wrong = Setup { near: 0, ..SETUP };
    let beyond = [Triangle { a: 0, b: 1, c: 2 }, Triangle { a: 0, b: 5, c: 3 }];
    assert_eq!(rt;
        maskcull_set_up(&wrong, &VERTICES, &QUAD, &mut room, &mut count),
        BAD_SETUP
    );
    assert_eq!(rt;
        maskcull_set_up(&SETUP, &VERTICES, &QUAD, &mut room[..3], &mut count),
        BAD_ROOM
    );
    assert_eq!(rt;
        maskcull_set_up(&SETUP, &VERTICES, &beyond, &mut room, &mut count),
        BAD_INDEX
    );
    assert_eq!(rt; count, 99);
    for left in &room {
        assert_eq!(rt; numbers(left), numbers(&UNWRITTEN));
    }
    Ok(())
}

// A middle and eight points around it, the last of which is behind the near plane.
const POINTS: [Vertex; 9] = [
    Vertex { x: 0, y: 0, w: 3 },
    Vertex { x: -4, y: 4, w: 4 },
    Vertex { x: 0, y: 2, w: 2 },
    Vertex { x: 6, y: 6, w: 6 },
    Vertex { x: 3, y: 0, w: 3 },
    Vertex { x: 2, y: -2, w: 2 },
    Vertex { x: 0, y: -5, w: 5 },
    Vertex { x: -4, y: -4, w: 4 },
    Vertex { x: -3, y: 0, w: -1 },
];

const FAN: [Triangle; 8] = [
    Triangle { a: 0, b: 1, c: 2 },
    Triangle { a: 0, b: 2, c: 3 },
    Triangle { a: 0, b: 3, c: 4 },
    Triangle { a: 0, b: 4, c: 5 },
    Triangle { a: 0, b: 5, c: 6 },
    Triangle { a: 0, b: 6, c: 7 },
    Triangle { a: 0, b: 7, c: 8 },
    Triangle { a: 0, b: 8, c: 1 },
];

// Draws a piece as C hands it back.
fn draw_one(
    tiles: &mut [TileState],
    first_row: u32,
    room: &PieceRoom,
) -> Result<u32, &'static str> {
    let tri = ScreenTri::new(room.x, room.y, room.q).ok_or("a piece")?;
    Ok(maskcull_draw_pieces(&FOUR_TILES, tiles, first_row, &[ListedPiece::of(&tri)]))
}

// Sets triangles up in slices of so many, and draws piece by piece. How many pieces there were.
fn draw_in_slices(tiles: &mut [TileState], most: usize) -> Result<usize, &'static str> {
    let mut room = [UNWRITTEN; 16];
    let mut pieces: usize = 0;
    let mut left: &[Triangle] = &FAN;
    for _ in 0..FAN.len() {
        let (slice, others) = left.split_at(most.min(left.len()));
        let mut count = 0;
        if maskcull_set_up(&FOUR_TILES, &POINTS, slice, &mut room, &mut count) != DONE {
            return Err("a slice");
        }
        for written in room.iter().take(count) {
            if draw_one(tiles, 0, written)? != DONE {
                return Err("a piece");
            }
        }
        pieces = pieces.saturating_add(count);
        left = others;
    }
    Ok(pieces)
}

#[test]
fn slices_drawn_piece_by_piece_are_one_draw(rt: HostRuntime) -> Result<(), Fail> {
    let mut whole = [TileState::empty(); 4];
    assert_eq!(rt; maskcull_draw(&FOUR_TILES, &mut whole, &POINTS, &FAN), DONE);
    slices_join();
    for most in [1, 7, 8] {
        let mut tiles = [TileState::empty(); 4];
        // the near plane cuts the last two triangles, which have two pieces each
        assert_eq!(rt; draw_in_slices(&mut tiles, most)?, 10);
        assert_alike(&rt, &tiles, &whole);
    }
    Ok(())
}

#[test]
fn pieces_are_drawn_onto_rows_of_the_screen(rt: HostRuntime) -> Result<(), Fail> {
    let mut room = [UNWRITTEN; 4];
    let mut count = 0;
    let mut tiles = [TileState::empty(); 2];
    assert_eq!(rt;
        maskcull_set_up(&FOUR_TILES, &VERTICES, &QUAD, &mut room, &mut count),
        DONE
    );
    for piece in &room[..2] {
        assert_eq!(rt; draw_one(&mut tiles, 2, piece)?, BAD_TILES);
        assert_eq!(rt; draw_one(&mut tiles[..1], 0, piece)?, BAD_TILES);
    }
    let wrong = Setup {
        winding: 3,
        ..FOUR_TILES
    };
    assert_eq!(rt; maskcull_draw_pieces(&wrong, &mut tiles, 0, &[]), BAD_SETUP);
    assert_eq!(rt; held(&tiles, 1, 7), (0, 0, 0));
    for piece in &room[..2] {
        assert_eq!(rt; draw_one(&mut tiles, 1, piece)?, DONE);
    }
    assert_eq!(rt; held(&tiles, 1, 7), (32767, 0, 0));
    Ok(())
}

// A piece of two pixels each way at the corner of four tiles, and one of sixteen subtiles in two of them.
#[test]
fn small_pieces_and_others_are_drawn_into_the_tiles_that_they_reach(
    rt: HostRuntime,
) -> Result<(), Fail> {
    let mut tiles = [TileState::empty(); 4];
    let small = PieceRoom {
        x: [496, 528, 528],
        y: [112, 112, 144],
        q: [100; 3],
    };
    assert_eq!(rt; draw_one(&mut tiles, 0, &small)?, DONE);
    assert_eq!(rt; held(&tiles, 0, 7), (0, 100, 0x8000_0000));
    assert_eq!(rt; held(&tiles, 1, 4), (0, 100, 0x0100_0000));
    assert_eq!(rt; held(&tiles, 2, 3), (0, 0, 0));
    assert_eq!(rt; held(&tiles, 3, 0), (0, 100, 1));
    let other = PieceRoom {
        x: [0, 1024, 0],
        y: [0, 128, 128],
        q: [300; 3],
    };
    assert_eq!(rt; draw_one(&mut tiles, 0, &other)?, DONE);
    assert_eq!(rt; held(&tiles, 0, 0), (0, 300, 0xFFFF_FF0F));
    // the layer of the small piece is dropped: the other is 200 in front of it
    assert_eq!(rt; held(&tiles, 0, 7), (300, 0, 0));
    assert_eq!(rt; held(&tiles, 1, 4), (0, 300, 0xFFFF_FF0F));
    assert_eq!(rt; held(&tiles, 3, 0), (0, 100, 1));
    Ok(())
}

#[test]
fn a_picture_has_the_bound_at_each_pixel(rt: HostRuntime) -> Result<(), Fail> {
    let mut tiles = [TileState::empty(); 1];
    let mut out = [9; 256];
    // the upper right half of the screen, and what it leaves
    assert_eq!(rt;
        maskcull_draw(&SETUP, &mut tiles, &VERTICES, &QUAD[..1]),
        DONE
    );
    assert_eq!(rt; maskcull_nearness(&SETUP, &tiles, &mut out, 32), DONE);
    for (place, shade) in [
        (1, 0),
        (3, 32767),
        (31, 32767),
        (224, 0),
        (253, 0),
        (254, 32767),
    ] {
        assert_eq!(rt; out[place], shade, "element {place}");
    }
    assert_eq!(rt; maskcull_draw(&SETUP, &mut tiles, &VERTICES, &QUAD), DONE);
    assert_eq!(rt; maskcull_nearness(&SETUP, &tiles, &mut out, 32), DONE);
    for shade in &out {
        assert_eq!(rt; *shade, 32767);
    }
    Ok(())
}

// The corners of the screen at distance 1.
const NEAREST: [Vertex; 4] = [
    Vertex { x: -1, y: 1, w: 1 },
    Vertex { x: 1, y: 1, w: 1 },
    Vertex { x: 1, y: -1, w: 1 },
    Vertex { x: -1, y: -1, w: 1 },
];

// At distance 2 the wide nearness is 8388607, and 16777215 at distance 1: 256 times 32767 and 255 more, and 256 times
// 65535 and 255 more.
#[test]
fn a_wide_picture_has_the_bounds_divided_by_256(rt: HostRuntime) -> Result<(), Fail> {
    let wide = setup(32, 8, 1, WIDE);
    let mut tiles = [TileState::empty(); 1];
    let mut out = [9; 256];
    assert_eq!(rt; maskcull_draw(&wide, &mut tiles, &VERTICES, &QUAD), DONE);
    assert_eq!(rt; held(&tiles, 0, 0), (8388607, 0, 0));
    assert_eq!(rt; maskcull_nearness(&wide, &tiles, &mut out, 32), DONE);
    for shade in &out {
        assert_eq!(rt; *shade, 32767);
    }
    // narrow, what is more than 65535 is cut
    assert_eq!(rt; maskcull_nearness(&SETUP, &tiles, &mut out, 32), DONE);
    for shade in &out {
        assert_eq!(rt; *shade, 65535);
    }
    out[255] = 9;
    assert_eq!(rt; maskcull_draw(&wide, &mut tiles, &NEAREST, &QUAD), DONE);
    assert_eq!(rt; held(&tiles, 0, 7), (16777215, 0, 0));
    assert_eq!(rt; maskcull_nearness(&wide, &tiles, &mut out, 32), DONE);
    for shade in &out {
        assert_eq!(rt; *shade, 65535);
    }
    Ok(())
}

#[test]
fn rows_may_stand_farther_apart_than_the_screen_is_wide(rt: HostRuntime) -> Result<(), Fail> {
    let mut tiles = [TileState::empty(); 1];
    let mut out = [9; 320];
    assert_eq!(rt; maskcull_draw(&SETUP, &mut tiles, &VERTICES, &QUAD), DONE);
    assert_eq!(rt;
        maskcull_nearness(&SETUP, &tiles, &mut out[..311], 40),
        BAD_ROOM
    );
    assert_eq!(rt; maskcull_nearness(&SETUP, &tiles, &mut out, 31), BAD_ROOM);
    assert_eq!(rt; maskcull_nearness(&SETUP, &[], &mut out, 40), BAD_TILES);
    for left in &out {
        assert_eq!(rt; *left, 9);
    }
    assert_eq!(rt;
        maskcull_nearness(&SETUP, &tiles, &mut out[..312], 40),
        DONE
    );
    for y in 0..8 {
        for x in 0..40 {
            assert_eq!(rt;
                out[40 * y + x],
                if x < 32 { 32767 } else { 9 },
                "pixel {x}, {y}"
            );
        }
    }
    Ok(())
}
