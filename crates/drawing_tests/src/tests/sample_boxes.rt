//! Worked pieces of a few sixteenths of a pixel.
use cull_base::{FrameList, ScreenTri, Size};
use masked_update::draw_plain;
use std::test::Fail;

// The reference depth, the working depth and the mask of the first subtile of a screen of one tile after one piece,
// and how many pieces the tile counts.
fn first_subtile(rt: &HostRuntime, x: [i32; 3], y: [i32; 3]) -> Result<(u32, u32, u32, u32), Fail> {
    let size = Size::new(32, 8).ok_or("a size")?;
    let mut list = FrameList::with_room(rt.alloc(), size, 1)?;
    list.push(ScreenTri::new(x, y, [100; 3]).ok_or("a piece")?);
    let tile = draw_plain(rt.alloc(), &list)?[0];
    let sub = tile.sub(0);
    Ok((sub.reference(), sub.working(), sub.mask(), tile.count()))
}

#[test]
fn one_sample_on_the_least_corner_of_the_box_is_covered(rt: HostRuntime) -> Result<(), Fail> {
    assert_eq!(rt;
        first_subtile(&rt, [8, 16, 16], [8, 8, 16])?,
        (0, 100, 1, 1)
    );
    assert_eq!(rt;
        first_subtile(&rt, [24, 32, 32], [40, 40, 48])?,
        (0, 100, 1 << 17, 1)
    );
    Ok(())
}

#[test]
fn one_sample_on_the_greatest_corner_of_the_box_is_not_covered(
    rt: HostRuntime,
) -> Result<(), Fail> {
    assert_eq!(rt; first_subtile(&rt, [0, 8, 8], [0, 0, 8])?, (0, 0, 0, 1));
    Ok(())
}

#[test]
fn a_piece_between_samples_is_counted_and_changes_nothing(rt: HostRuntime) -> Result<(), Fail> {
    assert_eq!(rt; first_subtile(&rt, [0, 7, 7], [0, 0, 7])?, (0, 0, 0, 1));
    assert_eq!(rt; first_subtile(&rt, [9, 23, 23], [9, 9, 23])?, (0, 0, 0, 1));
    Ok(())
}
