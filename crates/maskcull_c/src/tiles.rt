//! Tiles in the caller's memory: how many there are, empty ones, and what is held of a subtile.
ghost use Rattle.std.specs.Prelude.{◌≡◌, ℕ, ◌<◌, length, replicate, []};
ghost use Rattle.cull_base.specs.Screen.{Dimensions, IsSize, dimensions, tile_count_of};
ghost use Rattle.cull_base.specs.State.{samples_of};
ghost use Rattle.masked_update.specs.TileOf.{empty_tile, sub_at, tile_at};
ghost use Rattle.maskcull_c.specs.Tiles.{IsAfter};

use crate::given::size_from;
use masked_update::TileState;

/// What is held of a subtile: a reference depth, a working depth, and the samples that the working depth holds for,
/// sample (column c, row r) in bit 8r + c. Depths are nearness.
#[derive(Clone, Copy)]
#[repr(C)]
pub struct SubtileState {
    pub reference: u32,
    pub working: u32,
    pub mask: u32,
}

/// How many tiles a screen has, 0 where there is no such screen: the width is a multiple of 8 from 8 to 2048, the height
/// one of 4 from 4 to 2048.
#[unsafe(no_mangle)]
pub extern "C" fn maskcull_tile_count(width: u32, height: u32) -> u32
    ensures count { IsSize width height → result ≡ tile_count_of (dimensions width height) }
    ensures none { (IsSize width height → ⊥) → result ≡ 0 }
{
    match size_from(width, height) {
        Some(size) => size.tile_count(),
        None => 0,
    }
}

/// Empties tiles: nothing is drawn on them.
#[unsafe(no_mangle)]
pub extern "C" fn maskcull_clear(tiles: &mut [TileState])
    ensures empty { tiles.new ≡ replicate (length tiles.old) empty_tile }
    ensures fresh { (size : Dimensions) (first : ℕ) → IsAfter size first (λ t. []) tiles.new }
{
    tiles.fill(TileState::empty());
}

/// What is held of a subtile of a tile, which has them in two rows of four; nothing where there is none.
#[unsafe(no_mangle)]
pub extern "C" fn maskcull_subtile(tiles: &[TileState], tile: usize, subtile: u32) -> SubtileState
    ensures reference { tile < length tiles.now → subtile < 8
        → result.reference ≡ (sub_at (tile_at tiles.now tile) subtile).reference }
    ensures working { tile < length tiles.now → subtile < 8
        → result.working ≡ (sub_at (tile_at tiles.now tile) subtile).working }
    ensures mask { tile < length tiles.now → subtile < 8
        → samples_of result.mask ≡ (sub_at (tile_at tiles.now tile) subtile).samples }
    ensures none { (tile < length tiles.now → subtile < 8 → ⊥)
        → result ≡ record { reference = 0; working = 0; mask = 0 } }
{
    if tile >= tiles.len() || subtile >= 8 {
        return SubtileState {
            reference: 0,
            working: 0,
            mask: 0,
        };
    }
    let held = tiles[tile].sub(subtile as u8);
    SubtileState {
        reference: held.reference(),
        working: held.working(),
        mask: held.mask(),
    }
}
