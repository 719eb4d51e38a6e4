//! The tiles in which coordinates lie along one axis of the screen, in sixteenths of a pixel.
ghost use Rattle.std.specs.Prelude.{◌≡◌, ◌≤◌};
ghost use Rattle.binning.specs.Tiles.{past_zero, misses, first_tile_of, last_tile_of};

use cull_base::Extent;

/// A tile's width, and its height.
pub(crate) const TILE_WIDTH: u32 = 32 * 16;

pub(crate) const TILE_HEIGHT: u32 = 8 * 16;

// How far a coordinate lies past 0, and 0 where it lies before.
#[inline(always)]
fn past_zero(place: i32) -> u32
    ensures { result ≡ past_zero place }
{
    place.max(0) as u32
}

/// Whether an extent lies wholly before the first or after the last of so many pixels.
#[inline(always)]
pub(crate) fn misses(extent: Extent, pixels: u16) -> bool
    ensures { result ≡ misses extent.least extent.greatest pixels }
{
    extent.greatest < 0 || i32::from(pixels) * 16 <= extent.least
}

/// The tile of the least coordinate of an extent, and the first where it lies before all. Condition: a tile has a side.
#[inline(always)]
pub(crate) fn first_tile(extent: Extent, side: u32) -> u32
    requires { 1 ≤ side }
    ensures { result ≡ first_tile_of extent.least side }
{
    past_zero(extent.least) / side
}

/// The tile of the greatest coordinate of an extent, and the last that so many pixels reach where it lies past them.
/// Conditions: there is a pixel, and a tile has a side.
#[inline(always)]
pub(crate) fn last_tile(extent: Extent, pixels: u16, side: u32) -> u32
    requires pixels { 1 ≤ pixels }
    requires side { 1 ≤ side }
    ensures { result ≡ last_tile_of extent.greatest pixels side }
{
    past_zero(extent.greatest).min(u32::from(pixels) * 16 - 1) / side
}
