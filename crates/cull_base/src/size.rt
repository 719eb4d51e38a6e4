//! The size of a screen, and the tiles and subtiles that it is divided into.
ghost use Rattle.std.specs.Prelude.{◌≡◌, ℕ, ◌<◌, ◌≤◌, MatchOption, IsSome};

use crate::place::{Sub, Tile};
use crate::rect::Rect;
use std::marker::Model;

/// The width of a tile in pixels, and its height.
pub(crate) const TILE_WIDTH: u16 = 32;

pub(crate) const TILE_HEIGHT: u16 = 8;

/// The size of a screen in pixels: whole subtiles, at most 2048 each way.
#[derive(Clone, Copy, Debug, PartialEq, Eq)]
pub struct Size {
    width: u16,
    height: u16,
}

impl Model for Size {
    ghost use Rattle.cull_base.specs.Screen.{Dimensions, IsSize};

    ghost Value = { Dimensions };

    ghost view = { λ s. record { width = s.width; height = s.height } };

    ghost invariant = { λ s. IsSize s.width s.height };

    ghost inverse = { λ v. record { width = v.width; height = v.height } };
}

impl Size {
    ghost use Rattle.cull_base.specs.Screen.{IsSize, dimensions, screen_of, is_on_screen};
    ghost use Rattle.cull_base.specs.Screen.{tile_columns_of, tile_rows_of, tile_count_of};
    ghost use Rattle.cull_base.specs.Screen.{tile_place, tile_rect_of, tile_sub};

    /// A screen of so many pixels. None exactly where the width is no multiple of 8 from 8 to 2048, or the height none of
    /// 4 from 4 to 2048.
    pub fn new(width: u16, height: u16) -> Option<Size>
        ensures value { MatchOption result (IsSize width height → ⊥) (λ s. s ≡ dimensions width height) }
        ensures given { IsSize width height → IsSome result }
        ensures valid { IsSome result → IsSize width height }
    {
        if width % 8 == 0
            && 8 <= width
            && width <= 2048
            && height % 4 == 0
            && 4 <= height
            && height <= 2048
        {
            Some(Size { width, height })
        } else {
            None
        }
    }

    /// The width in pixels.
    pub fn width(&self) -> u16
        ensures value { result ≡ self.now.width }
        ensures valid { IsSize self.now.width self.now.height }
    {
        // what is held of both is known where both are read
        let _height = self.height;
        self.width
    }

    /// The height in pixels.
    pub fn height(&self) -> u16
        ensures value { result ≡ self.now.height }
        ensures valid { IsSize self.now.width self.now.height }
    {
        // as above
        let _width = self.width;
        self.height
    }

    /// All pixels of the screen.
    pub fn screen(&self) -> Rect
        ensures { result ≡ screen_of self.now }
    {
        Rect {
            x0: 0,
            y0: 0,
            x1: i32::from(self.width),
            y1: i32::from(self.height),
        }
    }

    /// How many tiles stand side by side, the last maybe cut.
    pub fn tile_columns(&self) -> u32
        ensures value { result ≡ tile_columns_of self.now }
        ensures some { 0 < result }
        ensures small { result ≤ 64 }
    {
        u32::from(self.width.div_ceil(TILE_WIDTH))
    }

    /// How many tiles stand below one another, the last maybe cut.
    pub fn tile_rows(&self) -> u32
        ensures value { result ≡ tile_rows_of self.now }
        ensures some { 0 < result }
        ensures small { result ≤ 256 }
    {
        u32::from(self.height.div_ceil(TILE_HEIGHT))
    }

    /// How many tiles there are.
    pub fn tile_count(&self) -> u32
        ensures value { result ≡ tile_count_of self.now }
        ensures small { result ≤ 16384 }
    {
        self.tile_columns() * self.tile_rows()
    }

    /// The place of a tile, numbered row by row from the top left. Condition: it is below the count.
    pub fn tile_at(&self, tile: u32) -> Tile
        requires { tile < tile_count_of self.now }
        ensures value { result ≡ tile_place self.now tile }
        ensures column { result.column < tile_columns_of self.now }
        ensures row { result.row < tile_rows_of self.now }
        ensures within { (result.column < 64) × (result.row < 256) }
    {
        // as above
        let _height = self.height;
        let columns = self.tile_columns();
        Tile {
            column: (tile % columns) as u16,
            row: (tile / columns) as u16,
        }
    }

    /// The tile's pixels on the screen. Condition: the tile is below the count.
    pub fn tile_rect(&self, tile: u32) -> Rect
        requires { tile < tile_count_of self.now }
        ensures { result ≡ tile_rect_of self.now tile }
    {
        let place = self.tile_at(tile);
        let x = place.column * TILE_WIDTH;
        let y = place.row * TILE_HEIGHT;
        Rect {
            x0: i32::from(x),
            y0: i32::from(y),
            x1: i32::from(self.width.min(x + TILE_WIDTH)),
            y1: i32::from(self.height.min(y + TILE_HEIGHT)),
        }
    }

    /// Subtile j of a tile: four columns, two rows. Condition: the tile is below the count, j below 8.
    pub fn sub_of(&self, tile: u32, j: u8) -> Sub
        requires tile { tile < tile_count_of self.now }
        requires j { j < 8 }
        ensures value { result ≡ tile_sub self.now tile j }
        ensures column { result.column < 256 }
        ensures row { result.row < 512 }
    {
        let place = self.tile_at(tile);
        Sub {
            column: place.column * 4 + u16::from(j) % 4,
            row: place.row * 2 + u16::from(j) / 4,
        }
    }

    /// Whether a subtile lies on the screen. The screen's edges cut no subtile.
    pub fn on_screen(&self, sub: Sub) -> bool
        ensures { result ≡ is_on_screen self.now sub }
    {
        u32::from(sub.column) * 8 < u32::from(self.width)
            && u32::from(sub.row) * 4 < u32::from(self.height)
    }
}
