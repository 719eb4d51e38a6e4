//! Worked values of the update, from outside.
ghost use Rattle.std.specs.Prelude.{◌≡◌, ◌≤◌, IfOk};
ghost use Rattle.cull_base.specs.Span.{IsSpan};
ghost use Rattle.cull_base.specs.declared.nearness.TheConstants.{HELD_TOP};

use cull_base::{FrameList, HELD_TOP, Memory, ScreenTri, Size, Tile, TileSpan};
use masked_update::{
    Canvas, PieceDepths, PieceForm, PieceSetup, PlainView, SubTile, TileState, TileView,
    draw_plain, drawn_window, lower_cut, missing_members, next_member,
};
use std::alloc::Global;
use std::process::Abort;
use std::test::Fail;

const EVERY_SAMPLE: u32 = 0xFFFF_FFFF;

// The reference depth, the working depth and the mask.
fn layers(sub: &SubTile) -> (u32, u32, u32) {
    (sub.reference(), sub.working(), sub.mask())
}

fn after_two(first: (u32, u32), second: (u32, u32)) -> (u32, u32, u32)
    requires first { first.0 ≤ HELD_TOP }
    requires second { second.0 ≤ HELD_TOP }
{
    let mut sub = SubTile::empty();
    sub.merge(first.0, first.1);
    sub.merge(second.0, second.1);
    layers(&sub)
}

#[test]
fn working_layer_is_dropped_at_201_and_kept_at_200(rt: HostRuntime) {
    let left_half = (100, 0x0F0F_0F0F);
    assert_eq!(rt; after_two(left_half, (201, 0x10)), (0, 201, 0x10));
    assert_eq!(rt; after_two(left_half, (200, 0x10)), (0, 100, 0x0F0F_0F1F));
}

#[test]
fn depths_go_to_the_top_that_subtiles_hold(rt: HostRuntime) {
    let mut sub = SubTile::empty();
    sub.merge(16_777_215, EVERY_SAMPLE);
    assert_eq!(rt; layers(&sub), (16_777_215, 0, 0));
    let left_half = (8_388_607, 0x0F0F_0F0F);
    assert_eq!(rt;
        after_two(left_half, (16_777_215, 0x10)),
        (0, 16_777_215, 0x10)
    );
    assert_eq!(rt;
        after_two(left_half, (16_777_214, 0x10)),
        (0, 8_388_607, 0x0F0F_0F1F)
    );
}

#[test]
fn equal_bound_changes_nothing_and_101_fills_the_reference(rt: HostRuntime) {
    let known = (100, EVERY_SAMPLE);
    assert_eq!(rt; after_two(known, (100, EVERY_SAMPLE)), (100, 0, 0));
    assert_eq!(rt; after_two(known, (101, EVERY_SAMPLE)), (101, 0, 0));
}

#[test]
fn working_layer_falls_to_the_lesser_bound(rt: HostRuntime) {
    assert_eq!(rt; after_two((100, 0xFF), (60, 0xFF00)), (0, 60, 0xFFFF));
}

#[test]
fn equal_nearness_is_not_hidden(rt: HostRuntime) {
    let mut sub = SubTile::empty();
    sub.merge(100, EVERY_SAMPLE);
    sub.merge(150, 0xFF);
    assert!(rt; sub.hides(0xFF, 149));
    assert!(rt; !sub.hides(0xFF, 150));
    assert!(rt; sub.hides(EVERY_SAMPLE, 99));
    assert!(rt; !sub.hides(0x1FF, 100));
    assert!(rt; sub.hides(0, HELD_TOP));
}

// The two halves of a quad over the whole screen of 32 by 8 pixels.
fn quad(rt: &HostRuntime) -> Result<FrameList, Fail> {
    let size = Size::new(32, 8).ok_or("a size")?;
    let mut list = FrameList::with_room(rt.alloc(), size, 2)?;
    list.push(ScreenTri::new([0, 512, 512], [0, 0, 128], [32767; 3]).ok_or("a piece")?);
    list.push(ScreenTri::new([0, 512, 0], [0, 128, 128], [32767; 3]).ok_or("a piece")?);
    Ok(list)
}

// The subtiles of a tile from one on hold these layers.
fn assert_from(rt: &impl Abort, tile: &TileState, first: u8, wanted: (u32, u32, u32)) {
    for j in first..8 {
        assert_eq!(rt; layers(&tile.sub(j)), wanted, "subtile {j}");
    }
}

#[test]
fn two_halves_of_a_quad_fill_each_reference(rt: HostRuntime) -> Result<(), Fail> {
    let states = draw_plain(rt.alloc(), &quad(&rt)?)?;
    assert_eq!(rt; states.len(), 1);
    let tile = states[0];
    assert_eq!(rt; tile.count(), 2);
    assert_from(&rt, &tile, 0, (32767, 0, 0));
    next_member();
    lower_cut();
    Ok(())
}

// A piece that reaches to the limits of coordinates, two halves of four pixels by four, and one of middle size.
#[test]
fn pieces_of_every_size_meet_in_one_tile(rt: HostRuntime) -> Result<(), Fail> {
    let size = Size::new(32, 8).ok_or("a size")?;
    let mut list = FrameList::with_room(rt.alloc(), size, 4)?;
    let (low, high) = (-0x1000_0000, 0x1FFF_FFFF);
    list.push(ScreenTri::new([low, high, low], [low, low, high], [1000; 3]).ok_or("a piece")?);
    list.push(ScreenTri::new([0, 64, 64], [0, 0, 64], [2000; 3]).ok_or("a piece")?);
    list.push(ScreenTri::new([0, 64, 0], [0, 64, 64], [2000; 3]).ok_or("a piece")?);
    let drawn = draw_plain(rt.alloc(), &list)?[0];
    assert_eq!(rt; layers(&drawn.sub(0)), (1000, 2000, 0x0F0F_0F0F));
    assert_eq!(rt; layers(&drawn.sub(7)), (1000, 0, 0));
    let (low, high) = (-0x10_0000, 0x20_0000);
    list.push(ScreenTri::new([low, high, low], [low, low, high], [1500; 3]).ok_or("a piece")?);
    let drawn = draw_plain(rt.alloc(), &list)?[0];
    assert_eq!(rt; drawn.count(), 4);
    assert_from(&rt, &drawn, 0, (1500, 0, 0));
    Ok(())
}

#[test]
fn subtiles_off_the_screen_stay_empty(rt: HostRuntime) -> Result<(), Fail> {
    let size = Size::new(8, 4).ok_or("a size")?;
    let piece = ScreenTri::new([0, 4096, 0], [0, 0, 4096], [1000; 3]).ok_or("a piece")?;
    let mut tile = TileState::empty();
    tile.take(&piece, size, 0);
    assert_eq!(rt; tile.count(), 1);
    assert_eq!(rt; layers(&tile.sub(0)), (1000, 0, 0));
    assert_from(&rt, &tile, 1, (0, 0, 0));
    Ok(())
}

#[test]
fn piece_is_taken_whether_it_is_set_up_or_not(rt: HostRuntime) -> Result<(), Fail> {
    let size = Size::new(64, 8).ok_or("a size")?;
    let piece = ScreenTri::new([0, 4096, 0], [0, 0, 4096], [1000, 1000, 1000]).ok_or("a piece")?;
    let depths = PieceDepths::of(&piece);
    assert_eq!(rt; depths.nearest(), 1000);
    assert_eq!(rt; depths.boxed().x1, 257);
    let place = Tile { column: 1, row: 0 };
    let set_up = PieceSetup::of(&piece);
    let mut first = TileState::empty();
    first.take_set_up(&set_up, size, 0);
    let mut other = TileState::empty();
    other.take_set_up(&set_up, size, 0);
    let mut second = TileState::empty();
    second.take_form(PieceForm::Bare(&piece), size, place);
    for tile in [first, other, second] {
        assert_eq!(rt; tile.count(), 1);
        assert_eq!(rt; layers(&tile.sub(7)), (1000, 0, 0));
    }
    // one that is no nearer is counted alone
    second.take_form(PieceForm::Bare(&piece), size, place);
    assert_eq!(rt; second.count(), 2);
    assert_eq!(rt; layers(&second.sub(7)), (1000, 0, 0));
    Ok(())
}

// A subtile with a reference, and a working layer at these samples.
fn layered(reference: u32, working: (u32, u32)) -> SubTile
    requires reference { reference ≤ HELD_TOP }
    requires working { working.0 ≤ HELD_TOP }
{
    let mut sub = SubTile::empty();
    sub.merge(reference, EVERY_SAMPLE);
    sub.merge(working.0, working.1);
    sub
}

// A piece of twenty columns of pixels: it covers two subtiles of a row whole, the next to its half, and not the last.
#[test]
fn each_subtile_of_a_tile_takes_its_own_step(rt: HostRuntime) -> Result<(), Fail> {
    let (left, right) = (0x0F0F_0F0F, 0xF0F0_F0F0);
    let mut tile = TileState::of(
        [
            SubTile::empty(),
            layered(200, (0, 0)),
            SubTile::empty(),
            SubTile::empty(),
            layered(150, (0, 0)),
            layered(100, (130, left)),
            layered(100, (120, right)),
            layered(100, (130, right)),
        ],
        0,
    );
    let size = Size::new(32, 8).ok_or("a size")?;
    let piece = ScreenTri::new([-3200, 320, 320], [0, -1024, 1024], [150; 3]).ok_or("a piece")?;
    tile.take(&piece, size, 0);
    assert_eq!(rt; layers(&tile.sub(0)), (150, 0, 0), "filled at once");
    assert_eq!(rt; layers(&tile.sub(1)), (200, 0, 0), "the piece is behind");
    assert_eq!(rt; layers(&tile.sub(2)), (0, 150, left), "to its half");
    assert_eq!(rt; layers(&tile.sub(3)), (0, 0, 0), "not covered");
    assert_eq!(rt; layers(&tile.sub(4)), (150, 0, 0), "as near");
    assert_eq!(rt;
        layers(&tile.sub(5)),
        (130, 0, 0),
        "filled by the lesser bound"
    );
    assert_eq!(rt;
        layers(&tile.sub(6)),
        (100, 150, left),
        "the working layer is dropped"
    );
    assert_eq!(rt; layers(&tile.sub(7)), (100, 130, right), "not covered");
    Ok(())
}

// One piece over the tile, and then one behind it.
#[test]
fn piece_behind_each_reference_is_counted(rt: HostRuntime) -> Result<(), Fail> {
    let size = Size::new(32, 8).ok_or("a size")?;
    let mut list = FrameList::with_room(rt.alloc(), size, 2)?;
    list.push(ScreenTri::new([0, 4096, 0], [0, 0, 4096], [500; 3]).ok_or("a piece")?);
    list.push(ScreenTri::new([0, 512, 0], [0, 0, 128], [500, 400, 300]).ok_or("a piece")?);
    let states = draw_plain(rt.alloc(), &list)?;
    let tile = states[0];
    assert_eq!(rt; tile.count(), 2);
    assert_from(&rt, &tile, 0, (500, 0, 0));
    Ok(())
}

// A canvas of a window after the whole list.
fn window_drawn(alloc: Global, list: &FrameList, window: TileSpan) -> Result<Canvas, Memory>
    requires { IsSpan list.now.list.size window }
    ensures { IfOk result (λ c. c.window ≡ window) }
{
    let mut canvas = Canvas::empty(alloc, window)?;
    for index in 0..list.len() {
        canvas.draw_member(list, index);
    }
    Ok(canvas)
}

// Two columns and two rows of tiles: a piece over all of them, one in the second tile, and one behind the first.
#[test]
fn two_windows_have_the_tiles_of_the_screen(rt: HostRuntime) -> Result<(), Fail> {
    let size = Size::new(64, 16).ok_or("a size")?;
    let mut list = FrameList::with_room(rt.alloc(), size, 3)?;
    list.push(ScreenTri::new([0, 8192, 0], [0, 0, 8192], [500; 3]).ok_or("a piece")?);
    list.push(ScreenTri::new([528, 1000, 1000], [0, 0, 112], [600; 3]).ok_or("a piece")?);
    list.push(ScreenTri::new([0, 8192, 0], [0, 0, 8192], [400; 3]).ok_or("a piece")?);
    let states = draw_plain(rt.alloc(), &list)?;
    assert_eq!(rt; states.len(), 4);
    let whole = TileSpan::whole(list.size());
    assert_eq!(rt; whole.end_column, 2);
    assert_eq!(rt; whole.end_row, 2);
    for column in 0..2u16 {
        let window = TileSpan {
            first_column: u32::from(column),
            end_column: u32::from(column) + 1,
            ..whole
        };
        let canvas = window_drawn(rt.alloc(), &list, window)?;
        for row in 0..2u16 {
            let tile = canvas.tile(Tile { column, row });
            let plain = states[usize::from(row * 2 + column)];
            let second = column == 1 && row == 0;
            assert_eq!(rt; plain.count(), if second { 3 } else { 2 });
            for j in 0..8 {
                assert_eq!(rt; layers(&tile.sub(j)), layers(&plain.sub(j)));
            }
        }
        assert_eq!(rt; canvas.into_tiles().len(), 2);
    }
    missing_members();
    drawn_window();
    Ok(())
}

// The count of a tile that the view holds.
fn count_of<V: TileView>(view: &V, tile: u32) -> Option<u32> {
    if view.holds(tile) {
        Some(view.state(tile).count())
    } else {
        None
    }
}

#[test]
fn plain_view_holds_the_tiles_of_its_slice(rt: HostRuntime) {
    let tiles = [
        TileState::of([SubTile::empty(); 8], 3),
        TileState::of([SubTile::empty(); 8], 5),
    ];
    let view = PlainView::new(&tiles);
    assert_eq!(rt; count_of(&view, 0), Some(3));
    assert_eq!(rt; count_of(&view, 1), Some(5));
    assert_eq!(rt; count_of(&view, 2), None);
}
