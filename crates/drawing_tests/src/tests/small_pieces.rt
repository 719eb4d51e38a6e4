//! Worked pieces of a few subtiles, which are asked one after the other, beside pieces of more.
use cull_base::{FrameList, ScreenTri, Size};
use masked_update::draw_plain;
use std::test::Fail;

// The reference, the working depth and the mask of subtile j of a tile on a screen of 64 by 16 pixels, after one piece.
fn subtile_of(
    rt: &HostRuntime,
    x: [i32; 3],
    y: [i32; 3],
    tile: usize,
    j: u8,
) -> Result<(u32, u32, u32), Fail> {
    let size = Size::new(64, 16).ok_or("a size")?;
    let mut list = FrameList::with_room(rt.alloc(), size, 1)?;
    list.push(ScreenTri::new(x, y, [100; 3]).ok_or("a piece")?);
    let tiles = draw_plain(rt.alloc(), &list)?;
    let state = tiles.get(tile).ok_or("a tile")?;
    let sub = state.sub(j.min(7));
    Ok((sub.reference(), sub.working(), sub.mask()))
}

// Lower left halves: one of eight subtiles covers 4r + 2 columns of row r, one of more covers 8r + 4.
#[test]
fn pieces_of_eight_subtiles_and_of_more_are_drawn(rt: HostRuntime) -> Result<(), Fail> {
    for (x, tile, j, wanted) in [
        ([0, 512, 0], 0, 0, (0, 100, 0xFFFF_3F03)),
        ([0, 512, 0], 0, 1, (0, 100, 0x3F03_0000)),
        ([0, 512, 0], 0, 4, (100, 0, 0)),
        ([0, 512, 0], 1, 4, (0, 0, 0)),
        ([0, 1024, 0], 0, 0, (0, 100, 0xFFFF_FF0F)),
        ([0, 1024, 0], 0, 4, (100, 0, 0)),
        ([0, 1024, 0], 1, 4, (0, 100, 0xFFFF_FF0F)),
    ] {
        assert_eq!(rt; subtile_of(&rt, x, [0, 128, 128], tile, j)?, wanted);
    }
    Ok(())
}

// Sides of 416 sixteenths and of 417: the samples at 408 are covered by both, and those at 424 by neither.
#[test]
fn sides_of_26_pixels_and_a_sixteenth_more_cover_the_same(rt: HostRuntime) -> Result<(), Fail> {
    for side in [416, 417] {
        let (x, y) = ([0, side, side], [0, 0, side]);
        assert_eq!(rt; subtile_of(&rt, x, y, 0, 0)?, (0, 100, 0xF8FC_FEFF));
        assert_eq!(rt; subtile_of(&rt, x, y, 0, 3)?, (0, 100, 0x0303_0303));
        assert_eq!(rt; subtile_of(&rt, x, y, 1, 0)?, (0, 0, 0));
    }
    Ok(())
}

// Eight subtiles side by side, by lanes of 16 bits and by the spans of a row.
#[test]
fn sides_of_64_pixels_and_a_sixteenth_less_cover_the_same(rt: HostRuntime) -> Result<(), Fail> {
    for side in [1023, 1024] {
        let (x, y) = ([0, side, 0], [0, 64, 64]);
        assert_eq!(rt; subtile_of(&rt, x, y, 0, 0)?, (100, 0, 0));
        assert_eq!(rt; subtile_of(&rt, x, y, 0, 1)?, (0, 100, 0xFFFF_FF00));
        assert_eq!(rt; subtile_of(&rt, x, y, 1, 2)?, (0, 100, 0xFF00_0000));
        assert_eq!(rt; subtile_of(&rt, x, y, 1, 3)?, (0, 0, 0));
    }
    Ok(())
}

// Two pieces meet at a corner of four tiles.
#[test]
fn a_small_piece_reaches_four_tiles(rt: HostRuntime) -> Result<(), Fail> {
    let (x, y) = ([496, 528, 528], [112, 112, 144]);
    assert_eq!(rt; subtile_of(&rt, x, y, 0, 7)?, (0, 100, 0x8000_0000));
    assert_eq!(rt; subtile_of(&rt, x, y, 1, 4)?, (0, 100, 0x0100_0000));
    assert_eq!(rt; subtile_of(&rt, x, y, 2, 3)?, (0, 0, 0));
    assert_eq!(rt; subtile_of(&rt, x, y, 3, 0)?, (0, 100, 1));
    Ok(())
}
