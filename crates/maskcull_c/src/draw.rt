//! Occluder triangles, drawn after all that were drawn before.
ghost use Rattle.std.specs.Prelude.{◌≡◌, ◌≢◌, ℕ, ◌<◌, ◌≤◌, ◌⊎◌, length, map, MatchOption};
ghost use Rattle.std.specs.List.{All};
ghost use Rattle.cull_base.specs.Grade.{top_of};
ghost use Rattle.masked_update.specs.TileOf.{tile_at};
ghost use Rattle.snap_setup.specs.Pieces.{list_of_clips};
ghost use Rattle.maskcull_c.specs.Bands.{Adds, AreMerged, IsBand, first_in};
ghost use Rattle.maskcull_c.specs.Given.{IsAmong, IsSetup, clip_of, pieces_drawn, size_of, tri_of};
ghost use Rattle.maskcull_c.specs.Tiles.{AreAll, AreRows, row_start};
ghost use Rattle.maskcull_c.specs.declared.status.TheConstants.{DONE, BAD_SETUP, BAD_TILES, BAD_INDEX};

use crate::band::draw_piece;
use crate::given::{Checked, Setup, Triangle, Vertex, are_among, clips_of};
use crate::status::{BAD_INDEX, BAD_SETUP, BAD_TILES, DONE};
use cull_base::{Side, Size, TileSpan};
use masked_update::TileState;
use snap_setup::{Pieces, set_up};

// Draws pieces onto the tiles of a window, one after another.
#[inline(always)]
fn draw_pieces(tiles: &mut [TileState], window: TileSpan, pieces: &Pieces, size: Size)
    requires { IsBand size window tiles.old }
    ensures { AreMerged size (first_in size window) pieces.now tiles.old tiles.new }
{
    for k in 0..pieces.len() {
        draw_piece(tiles, window, &pieces.get(k), size);
    }
}

// Draws triangles onto the tiles of a window, one after another.
fn draw_triangles(
    tiles: &mut [TileState],
    window: TileSpan,
    vertices: &[Vertex],
    triangles: &[Triangle],
    checked: &Checked,
)
    requires band { IsBand checked.now.size window tiles.old }
    requires near_least { 1 ≤ checked.now.near }
    requires near_most { checked.now.near ≤ 1024 }
    requires indices { All (IsAmong (length vertices.now)) triangles.now }
    ensures { let c = checked.now in AreMerged c.size (first_in c.size window)
        (list_of_clips (map clip_of vertices.now) (map tri_of triangles.now) (top_of c.grade) c.near c.size c.winding)
        tiles.old tiles.new }
{
    let (near, size) = (checked.near, checked.size);
    let (winding, grade) = (checked.winding, checked.grade);
    for triangle in triangles {
        let clips = clips_of(vertices, triangle);
        let pieces = set_up(&clips, near, size, winding, Side::Occluder, grade);
        draw_pieces(tiles, window, &pieces, size);
    }
}

// Draws triangles onto the tiles of a window if each names vertices that are there.
fn draw_onto(
    checked: &Checked,
    tiles: &mut [TileState],
    window: TileSpan,
    vertices: &[Vertex],
    triangles: &[Triangle],
) -> u32
    requires band { IsBand checked.now.size window tiles.old }
    requires near_least { 1 ≤ checked.now.near }
    requires near_most { checked.now.near ≤ 1024 }
    ensures merged { result ≡ DONE → AreMerged checked.now.size (first_in checked.now.size window)
        (list_of_clips (map clip_of vertices.now) (map tri_of triangles.now) (top_of checked.now.grade)
        checked.now.near checked.now.size checked.now.winding) tiles.old tiles.new }
    ensures counts { (t : ℕ) → t < length tiles.old
        → (tile_at tiles.new t).count ≡ (tile_at tiles.old t).count }
    ensures accepted { All (IsAmong (length vertices.now)) triangles.now → result ≡ DONE }
    ensures bad_index { result ≡ BAD_INDEX → All (IsAmong (length vertices.now)) triangles.now → ⊥ }
    ensures refuses_index { (All (IsAmong (length vertices.now)) triangles.now → ⊥) → result ≡ BAD_INDEX }
    ensures either { (result ≡ DONE) ⊎ ((result ≡ BAD_INDEX) × (tiles.new ≡ tiles.old)) }
{
    if !are_among(triangles, vertices.len()) {
        return BAD_INDEX;
    }
    draw_triangles(tiles, window, vertices, triangles, checked);
    DONE
}

// The window that tiles from a row of the screen's tiles on fill. None where they aren't whole rows in the screen.
pub(crate) fn window_from(size: Size, first_row: u32, tiles: &[TileState]) -> Option<TileSpan>
    ensures { MatchOption result (AreRows size first_row tiles.now → ⊥)
        (λ w. IsBand size w tiles.now × (w.first_row ≡ first_row)) }
{
    let columns = size.tile_columns();
    let rows = tiles.len() / columns as usize;
    let end_row = first_row as usize + rows;
    if tiles.len() % columns as usize != 0 || end_row > size.tile_rows() as usize {
        return None;
    }
    Some(TileSpan {
        first_column: 0,
        end_column: columns,
        first_row,
        end_row: end_row as u32,
    })
}

/// Draws triangles onto all tiles of the screen: 0 where all was drawn, else why nothing was.
#[unsafe(no_mangle)]
pub extern "C" fn maskcull_draw(
    setup: &Setup,
    tiles: &mut [TileState],
    vertices: &[Vertex],
    triangles: &[Triangle],
) -> u32
    ensures drawn { result ≡ DONE → Adds (size_of setup.now) 0
        (pieces_drawn setup.now vertices.now triangles.now) tiles.old tiles.new }
    ensures merged { result ≡ DONE → AreMerged (size_of setup.now) 0
        (pieces_drawn setup.now vertices.now triangles.now) tiles.old tiles.new }
    ensures counts { (t : ℕ) → t < length tiles.old
        → (tile_at tiles.new t).count ≡ (tile_at tiles.old t).count }
    ensures accepted { IsSetup setup.now → AreAll (size_of setup.now) tiles.old
        → All (IsAmong (length vertices.now)) triangles.now → result ≡ DONE }
    ensures bad_setup { result ≡ BAD_SETUP → IsSetup setup.now → ⊥ }
    ensures bad_tiles { result ≡ BAD_TILES → AreAll (size_of setup.now) tiles.old → ⊥ }
    ensures bad_index { result ≡ BAD_INDEX → All (IsAmong (length vertices.now)) triangles.now → ⊥ }
    ensures refuses_setup { (IsSetup setup.now → ⊥) → result ≡ BAD_SETUP }
    ensures refuses_tiles { IsSetup setup.now → (AreAll (size_of setup.now) tiles.old → ⊥) → result ≡ BAD_TILES }
    ensures refuses_index { IsSetup setup.now → AreAll (size_of setup.now) tiles.old
        → (All (IsAmong (length vertices.now)) triangles.now → ⊥) → result ≡ BAD_INDEX }
    ensures most { result ≤ BAD_INDEX }
    ensures refused { result ≢ DONE → tiles.new ≡ tiles.old }
{
    let Some(checked) = setup.checked() else {
        return BAD_SETUP;
    };
    if tiles.len() != checked.size.tile_count() as usize {
        return BAD_TILES;
    }
    let window = TileSpan::whole(checked.size);
    draw_onto(&checked, tiles, window, vertices, triangles)
}

/// The same onto some rows of the screen's tiles, from row first_row on. Calls on tiles that don't overlap may run at the
/// same time, and what they draw together is what one call draws (`bands_join`).
#[unsafe(no_mangle)]
pub extern "C" fn maskcull_draw_band(
    setup: &Setup,
    tiles: &mut [TileState],
    first_row: u32,
    vertices: &[Vertex],
    triangles: &[Triangle],
) -> u32
    ensures drawn { result ≡ DONE → Adds (size_of setup.now) (row_start (size_of setup.now) first_row)
        (pieces_drawn setup.now vertices.now triangles.now) tiles.old tiles.new }
    ensures merged { result ≡ DONE → AreMerged (size_of setup.now) (row_start (size_of setup.now) first_row)
        (pieces_drawn setup.now vertices.now triangles.now) tiles.old tiles.new }
    ensures counts { (t : ℕ) → t < length tiles.old
        → (tile_at tiles.new t).count ≡ (tile_at tiles.old t).count }
    ensures accepted { IsSetup setup.now → AreRows (size_of setup.now) first_row tiles.old
        → All (IsAmong (length vertices.now)) triangles.now → result ≡ DONE }
    ensures bad_setup { result ≡ BAD_SETUP → IsSetup setup.now → ⊥ }
    ensures bad_tiles { result ≡ BAD_TILES → AreRows (size_of setup.now) first_row tiles.old → ⊥ }
    ensures bad_index { result ≡ BAD_INDEX → All (IsAmong (length vertices.now)) triangles.now → ⊥ }
    ensures refuses_setup { (IsSetup setup.now → ⊥) → result ≡ BAD_SETUP }
    ensures refuses_tiles { IsSetup setup.now → (AreRows (size_of setup.now) first_row tiles.old → ⊥)
        → result ≡ BAD_TILES }
    ensures refuses_index { IsSetup setup.now → AreRows (size_of setup.now) first_row tiles.old
        → (All (IsAmong (length vertices.now)) triangles.now → ⊥) → result ≡ BAD_INDEX }
    ensures most { result ≤ BAD_INDEX }
    ensures refused { result ≢ DONE → tiles.new ≡ tiles.old }
{
    let Some(checked) = setup.checked() else {
        return BAD_SETUP;
    };
    let Some(window) = window_from(checked.size, first_row, tiles) else {
        return BAD_TILES;
    };
    draw_onto(&checked, tiles, window, vertices, triangles)
}
