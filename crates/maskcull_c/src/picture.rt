//! What tiles hold, as a picture: the bound at each pixel of the screen, in 16 bits.
ghost use Rattle.std.specs.Prelude.{◌≡◌, ◌≢◌, ℕ, ◌+◌, ◌*◌, ◌<◌, ◌≤◌, ◌↔◌, IsTrue, length};
ghost use Rattle.cull_base.specs.State.{bound_at};
ghost use Rattle.maskcull_c.specs.Given.{IsSetup, grade_of, size_of};
ghost use Rattle.maskcull_c.specs.Picture.{AreDrawn, HasPicture, IsBeside, IsRow, bound_of_pixel, element, shade_of, shade_of_pixel};
ghost use Rattle.maskcull_c.specs.Tiles.{AreAll};
ghost use Rattle.maskcull_c.specs.declared.status.TheConstants.{DONE, BAD_SETUP, BAD_TILES, BAD_ROOM};

use crate::ask::are_all;
use crate::given::Setup;
use crate::status::{BAD_ROOM, BAD_SETUP, BAD_TILES, DONE};
use cull_base::{Grade, Size};
use masked_update::{SubTile, TileState};

// A bound as an element of a picture: in the wide grade divided by 256. So what is drawn in the setup's grade fits 16
// bits, and what is still greater is cut.
#[inline(always)]
fn shade(bound: u32, grade: Grade) -> u16
    ensures { result ≡ shade_of grade bound }
{
    let scaled = match grade {
        Grade::Narrow => bound,
        Grade::Wide => bound / 256,
    };
    scaled.min(0xFFFF) as u16
}

// The bound at a sample of a subtile. Condition: it has the sample.
#[inline(always)]
fn bound_at(sub: &SubTile, sample: u32) -> u32
    requires { sample < 32 }
    ensures { result ≡ bound_at sub.now sample }
{
    if (sub.mask() >> sample) & 1 == 1 {
        sub.working()
    } else {
        sub.reference()
    }
}

// The bound at a pixel. Conditions: it is in the screen, and the tiles are all of the screen's.
#[inline(always)]
fn bound_of_pixel(tiles: &[TileState], size: Size, x: u16, y: u16) -> u32
    requires all { AreAll size tiles.now }
    requires inside { (x < size.width) × (y < size.height) }
    ensures { result ≡ bound_of_pixel size tiles.now x y }
{
    let column = x / 8;
    let row = y / 4;
    let number = (row / 2) as usize * size.tile_columns() as usize + (column / 4) as usize;
    let sub = tiles[number].sub((4 * (row % 2) + column % 4) as u8);
    bound_at(&sub, (8 * (y % 4) + x % 8) as u32)
}

// Draws one row of pixels from one place on.
fn draw_row(out: &mut [u16], start: usize, tiles: &[TileState], size: Size, y: u16, grade: Grade)
    requires all { AreAll size tiles.now }
    requires row { y < size.height }
    requires room { start + size.width ≤ length out.old }
    ensures { IsRow start size.width (λ x. shade_of_pixel grade size tiles.now x y) out.old out.new }
{
    for x in 0..size.width() {
        out[start + x as usize] = shade(bound_of_pixel(tiles, size, x, y), grade);
    }
}

// Draws all rows, which begin so far apart.
fn draw_rows(out: &mut [u16], stride: usize, tiles: &[TileState], size: Size, grade: Grade)
    requires all { AreAll size tiles.now }
    requires room { HasPicture size stride out.old }
    ensures { AreDrawn size.width stride size.height (shade_of_pixel grade size tiles.now) out.old out.new }
{
    for y in 0..size.height() {
        draw_row(out, y as usize * stride, tiles, size, y, grade);
    }
}

// Whether rows that begin so far apart have room for the screen.
fn has_picture(out: &[u16], stride: usize, size: Size) -> bool
    ensures { IsTrue result ↔ HasPicture size stride out.now }
{
    let width = size.width() as usize;
    let rows_before = size.height() as usize - 1;
    if stride < width || out.len() < width {
        return false;
    }
    rows_before <= (out.len() - width) / stride
}

/// Writes the bound at each pixel of the screen, row by row: that of pixel (x, y) stands at y * row_stride + x, and no
/// other element is written. In the wide grade it is divided by 256, and more than 65535 is written as 65535. 0 where
/// all is written, else why nothing is.
#[unsafe(no_mangle)]
pub extern "C" fn maskcull_nearness(
    setup: &Setup,
    tiles: &[TileState],
    out: &mut [u16],
    row_stride: usize,
) -> u32
    ensures picture { result ≡ DONE → (x y : ℕ) → x < setup.now.width → y < setup.now.height
        → element out.new (y * row_stride + x)
        ≡ shade_of (grade_of setup.now) (bound_of_pixel (size_of setup.now) tiles.now x y) }
    ensures beside { (i : ℕ) → IsBeside (size_of setup.now) row_stride i → element out.new i ≡ element out.old i }
    ensures accepted { IsSetup setup.now → AreAll (size_of setup.now) tiles.now
        → HasPicture (size_of setup.now) row_stride out.old → result ≡ DONE }
    ensures bad_setup { result ≡ BAD_SETUP → IsSetup setup.now → ⊥ }
    ensures bad_tiles { result ≡ BAD_TILES → AreAll (size_of setup.now) tiles.now → ⊥ }
    ensures bad_room { result ≡ BAD_ROOM → HasPicture (size_of setup.now) row_stride out.old → ⊥ }
    ensures refuses_setup { (IsSetup setup.now → ⊥) → result ≡ BAD_SETUP }
    ensures refuses_tiles { IsSetup setup.now → (AreAll (size_of setup.now) tiles.now → ⊥) → result ≡ BAD_TILES }
    ensures refuses_room { IsSetup setup.now → AreAll (size_of setup.now) tiles.now
        → (HasPicture (size_of setup.now) row_stride out.old → ⊥) → result ≡ BAD_ROOM }
    ensures most { result ≤ BAD_ROOM }
    ensures refused { result ≢ DONE → out.new ≡ out.old }
{
    let Some(checked) = setup.checked() else {
        return BAD_SETUP;
    };
    if !are_all(tiles, checked.size) {
        return BAD_TILES;
    }
    if !has_picture(out, row_stride, checked.size) {
        return BAD_ROOM;
    }
    draw_rows(out, row_stride, tiles, checked.size, checked.grade);
    DONE
}
