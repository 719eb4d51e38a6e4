//! Worked values of bins, batches and parts, from outside.
ghost use Rattle.std.specs.Prelude.{◌≤◌};

use binning::{
    Cut, batch_count, batch_size, bin_batch, bin_of_tile, bin_rect, bin_span, parts_make_tile_lists,
};
use cull_base::{FrameList, Rect, ScreenTri, Size};
use std::alloc::Global;
use std::process::Abort;
use std::test::Fail;

#[test]
fn cut_is_of_one_to_eight(rt: HostRuntime) {
    assert!(rt; Cut::new(0, 1).is_none());
    assert!(rt; Cut::new(1, 0).is_none());
    assert!(rt; Cut::new(9, 1).is_none());
    assert!(rt; Cut::new(8, 9).is_none());
    assert_eq!(rt; Cut::new(1, 1).map_or(0, |cut| cut.bins()), 1);
    assert_eq!(rt; Cut::new(8, 8).map_or(0, |cut| cut.bins()), 64);
    assert_eq!(rt; Cut::new(5, 3).map_or(0, |cut| cut.bins()), 15);
}

#[test]
fn batches_are_at_most_2048(rt: HostRuntime) {
    assert_eq!(rt; batch_size(131_072, 1), 64);
    assert_eq!(rt; batch_count(131_072, 64), 2048);
    assert_eq!(rt; batch_size(0, 64), 64);
    assert_eq!(rt; batch_count(0, 64), 0);
    assert_eq!(rt; batch_size(2049, 1), 2);
    assert_eq!(rt; batch_count(2049, 2), 1025);
    assert_eq!(rt; batch_count(3, 2), 2);
}

fn corners(rect: Rect) -> (i32, i32, i32, i32) {
    (rect.x0, rect.y0, rect.x1, rect.y1)
}

// Two tiles side by side cut into eight columns stand in the first bin and the fifth; the others have none.
#[test]
fn two_tiles_cut_in_eight_leave_six_bins_without_tiles(rt: HostRuntime) -> Result<(), Fail> {
    let size = Size::new(64, 8).ok_or("a size")?;
    let cut = Cut::new(8, 1).ok_or("a cut")?;
    assert_eq!(rt; bin_of_tile(size, &cut, 0), 0);
    assert_eq!(rt; bin_of_tile(size, &cut, 1), 4);
    assert_eq!(rt; corners(bin_rect(size, &cut, 0)), (0, 0, 32, 8));
    assert_eq!(rt; corners(bin_rect(size, &cut, 1)), (0, 0, 0, 0));
    assert_eq!(rt; corners(bin_rect(size, &cut, 3)), (0, 0, 0, 0));
    assert_eq!(rt; corners(bin_rect(size, &cut, 4)), (32, 0, 64, 8));
    assert_eq!(rt; corners(bin_rect(size, &cut, 7)), (0, 0, 0, 0));
    Ok(())
}

// Of one tile cut 8 by 8 the first bin has it, and 63 have none.
#[test]
fn one_tile_is_in_the_first_of_64_bins(rt: HostRuntime) -> Result<(), Fail> {
    let size = Size::new(32, 8).ok_or("a size")?;
    let cut = Cut::new(8, 8).ok_or("a cut")?;
    assert_eq!(rt; bin_of_tile(size, &cut, 0), 0);
    assert_eq!(rt; corners(bin_rect(size, &cut, 0)), (0, 0, 32, 8));
    for bin in 1..64 {
        assert_eq!(rt;
            corners(bin_rect(size, &cut, bin)),
            (0, 0, 0, 0),
            "bin {bin}"
        );
    }
    Ok(())
}

// 1280 by 720 are 40 by 90 tiles; the screen cuts none of them.
#[test]
fn bins_of_a_large_screen_share_its_tiles(rt: HostRuntime) -> Result<(), Fail> {
    let size = Size::new(1280, 720).ok_or("a size")?;
    let cut = Cut::new(4, 4).ok_or("a cut")?;
    let span = bin_span(size, &cut, 6);
    assert_eq!(rt; (span.first_column, span.end_column), (20, 30));
    assert_eq!(rt; (span.first_row, span.end_row), (23, 45));
    assert_eq!(rt; corners(bin_rect(size, &cut, 6)), (640, 184, 960, 360));
    assert_eq!(rt; bin_of_tile(size, &cut, 23 * 40 + 20), 6);
    assert_eq!(rt; bin_of_tile(size, &cut, 22 * 40 + 29), 2);
    Ok(())
}

// Pieces with these corners, five at most.
fn listed(
    rt: &HostRuntime,
    size: (u16, u16),
    pieces: &[([i32; 3], [i32; 3])],
) -> Result<FrameList, Fail> {
    let size = Size::new(size.0, size.1).ok_or("a size")?;
    let mut list = FrameList::with_room(rt.alloc(), size, 5)?;
    for (x, y) in pieces {
        let piece = ScreenTri::new(*x, *y, [9; 3]).ok_or("a piece")?;
        if list.len() < 5 {
            list.push(piece);
        }
    }
    Ok(list)
}

// The members of a batch, from one number to before another, are in the parts of two bins side by side.
fn assert_parts(
    rt: &impl Abort,
    alloc: Global,
    list: &FrameList,
    batch: u32,
    numbers: (u32, u32),
    wanted: [&[u32]; 2],
) -> Result<(), Fail>
    requires { numbers.0 ≤ numbers.1 }
{
    if list.len() < numbers.1 {
        return Err(Fail::new("so many members"));
    }
    let cut = Cut::new(2, 1).ok_or("a cut")?;
    let parts = bin_batch(alloc, list, batch, numbers.0, numbers.1, &cut)?;
    assert_eq!(rt; parts.len(), 2);
    for bin in 0..2u32 {
        let part = &parts[bin as usize];
        assert_eq!(rt; (part.bin(), part.batch()), (bin, batch));
        assert_eq!(rt; part.indices(), wanted[bin as usize]);
    }
    Ok(())
}

// With boxes in x from 0 to 10, from 20 to 40 and from 33 to 50: the second lies over both bins. The last batch has none.
#[test]
fn each_part_has_the_pieces_that_meet_its_bin(rt: HostRuntime) -> Result<(), Fail> {
    let y = [0, 0, 127];
    let pieces = [
        ([0, 159, 159], y),
        ([320, 639, 639], y),
        ([528, 799, 799], y),
    ];
    let list = listed(&rt, (64, 8), &pieces)?;
    assert_parts(&rt, rt.alloc(), &list, 0, (0, 3), [&[0, 1], &[1, 2]])?;
    assert_parts(&rt, rt.alloc(), &list, 1, (2, 3), [&[], &[2]])?;
    assert_parts(&rt, rt.alloc(), &list, 0, (0, 0), [&[], &[]])?;
    parts_make_tile_lists();
    Ok(())
}

// Of a screen that cuts its last tiles to 8 by 4 pixels: three pieces a pixel off to the right, to the left and below,
// one that ends on the first pixel, and one that begins on the last.
#[test]
fn pieces_a_pixel_off_the_screen_are_in_no_part(rt: HostRuntime) -> Result<(), Fail> {
    let pieces = [
        ([640, 799, 799], [0, 0, 63]),
        ([-160, -1, -1], [0, 0, 63]),
        ([0, 639, 639], [64, 64, 127]),
        ([-160, 0, 0], [-63, -63, 0]),
        ([639, 799, 799], [63, 63, 127]),
    ];
    let list = listed(&rt, (40, 4), &pieces)?;
    assert_parts(&rt, rt.alloc(), &list, 0, (0, 5), [&[3], &[4]])
}
