//! A picture of a view's tiles, row by row.
ghost use Rattle.std.specs.Prelude.{◌≡◌, ℕ, ◌++◌, ◌+◌, ◌*◌, ◌<◌, ◌≤◌, true, length};
ghost use Rattle.cull_base.specs.Grade.{top_of};
ghost use Rattle.cull_base.specs.Screen.{IsSize, tile_columns_of, tile_count_of};
ghost use Rattle.cull_base.specs.Stream.{Writes};
ghost use Rattle.masked_update.specs.Views.{state_in};
ghost use Rattle.depth_image.specs.Picture.{AreUpTo, head_text, picture_text, pixel_lines, row_lines};
ghost use Rattle.depth_image.specs.Samples.{subs_of_tile};

use crate::lines::{Rows, WHITE, push_samples};
use cull_base::{Grade, Sink, SinkError, Size};
use masked_update::TileView;
use text_lines::Text;

// So many pixels go out at once, or as many rows as have so many. A line has two bytes at least, and so they have 4 KB.
const LEAST_PIXELS: u16 = 2048;

/// The tiles of a view of a screen, whose numbers are made by a grade. Conditions: the view holds every tile, and the
/// bound at no pixel of the screen is above the grade's top.
#[derive(Drop)]
struct Shown<'a, V: TileView> {
    size: Size,
    grade: Grade,
    view: &'a V,
    ghost holds: { (t : ℕ) → t < tile_count_of size → V.held view.now t ≡ true },
    ghost within: { AreUpTo (top_of grade) size (state_in size (V.tile_of view.now)) },
}

// The lines before the pixels.
#[tactic(auto, unfolding(crate::specs::Picture::head_text))]
fn head(size: Size) -> Rows
    ensures value { result ≡ head_text size }
    ensures short { length result ≤ 80 }
{
    let mut text = Text::begin(b"P2");
    text.end();
    text.push_number(u64::from(size.width()));
    text.number(u64::from(size.height()));
    text.end();
    text.push_number(u64::from(WHITE));
    text.end();
    text
}

// How many rows go out at once.
fn rows_at_once(size: Size) -> u16
    ensures some { 1 ≤ result }
    ensures few { result * size.width ≤ 4096 }
{
    LEAST_PIXELS.div_ceil(size.width())
}

// How many subtiles of a tile stand side by side on the screen. Condition: the screen has the column of tiles.
fn subs_of_tile(size: Size, column: u32) -> u32
    requires { column < tile_columns_of size }
    ensures value { result ≡ subs_of_tile size column }
    ensures few { result ≤ 4 }
    ensures within { 32 * column + 8 * result ≤ size.width }
    ensures sized { IsSize size.width size.height }
{
    let width = u32::from(size.width());
    let left = width / 8 - 4 * column;
    left.min(4)
}

// Appends the lines of a tile's pixels in a row of pixels. Conditions: the screen has the row and the column of tiles,
// and there is room.
fn push_tile<V: TileView>(text: &mut Rows, shown: &Shown<V>, y: u16, column: u32)
    requires row { y < shown.now.size.height }
    requires column { column < tile_columns_of shown.now.size }
    requires room { length text.old + 48 * subs_of_tile shown.now.size column ≤ 24656 }
    ensures value { let states = state_in shown.now.size (V.tile_of shown.now.view.now) in
        text.new ≡ text.old
        ++ pixel_lines shown.now.grade states y (32 * column) (8 * subs_of_tile shown.now.size column) }
    ensures room { length text.new ≤ length text.old + 48 * subs_of_tile shown.now.size column }
    ensures sized { IsSize shown.now.size.width shown.now.size.height }
{
    let size = shown.size;
    let columns = size.tile_columns();
    let row = u32::from(y);
    let number = row / 8 * columns + column;
    let tile = shown.view.state(number);
    let subs = subs_of_tile(size, column);
    for k in 0..subs {
        let place = (4 * (row / 4 % 2) + k) as u8;
        let sub = tile.sub(place);
        push_samples(text, &sub, shown.grade, row % 4);
    }
}

// Appends the lines of a row of pixels: each tile is asked for once. Conditions: the screen has the row, and there is
// room.
fn push_row<V: TileView>(text: &mut Rows, shown: &Shown<V>, y: u16)
    requires row { y < shown.now.size.height }
    requires room { length text.old + 6 * shown.now.size.width ≤ 24656 }
    ensures value { let states = state_in shown.now.size (V.tile_of shown.now.view.now) in
        text.new ≡ text.old ++ pixel_lines shown.now.grade states y 0 shown.now.size.width }
    ensures room { length text.new ≤ length text.old + 6 * shown.now.size.width }
{
    for column in 0..shown.size.tile_columns() {
        push_tile(text, shown, y, column);
    }
}

// Appends the lines of some rows of pixels. Conditions: the screen has the rows, and there is room.
fn push_rows<V: TileView>(text: &mut Rows, shown: &Shown<V>, first: u16, count: u16)
    requires rows { first + count ≤ shown.now.size.height }
    requires room { length text.old + 6 * (count * shown.now.size.width) ≤ 24656 }
    ensures { let states = state_in shown.now.size (V.tile_of shown.now.view.now) in
        text.new ≡ text.old ++ row_lines shown.now.size.width shown.now.grade states first count }
{
    // an accessor tells what is held of a size
    let _height = shown.size.height();
    for k in 0..count {
        push_row(text, shown, first + k);
    }
}

/// Writes a picture of a view's tiles, a plain grey map of the screen: `P2`, the width and the height, `65535`, and
/// then a line for each pixel, rows from the top and pixels from the left. Its number is the bound at the pixel's
/// sample, of a wide grade without the lower eight bits; 0 where nothing is known. Failed and Memory are the sink's;
/// after an error the beginning of the picture was appended, which may end within a line. Nothing is allocated.
/// Conditions: the view holds every tile of the screen, and no bound is above the grade's top.
pub fn write_picture<W: Sink, V: TileView>(
    sink: &mut W,
    size: Size,
    grade: Grade,
    view: &V,
) -> Result<(), SinkError>
    requires holds { (t : ℕ) → t < tile_count_of size → V.held view.now t ≡ true }
    requires within { AreUpTo (top_of grade) size (state_in size (V.tile_of view.now)) }
    ensures { Writes (W.says sink.old) (W.says sink.new) result
        (picture_text size grade (state_in size (V.tile_of view.now))) }
{
    let shown = Shown { size, grade, view };
    let height = size.height();
    let rows = rows_at_once(size);
    let mut text = head(size);
    let pieces = height / rows;
    for piece in 0..pieces {
        let start = rows * piece;
        push_rows(&mut text, &shown, start, rows);
        text.write_to(sink)?;
        text.clear();
    }
    let done = rows * pieces;
    let left = height - done;
    push_rows(&mut text, &shown, done, left);
    text.write_to(sink)
}
