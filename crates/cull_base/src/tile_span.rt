//! The tiles that a rectangle reaches, computed from it and not searched for.
ghost use Rattle.std.specs.Prelude.{◌≡◌, ◌≤◌, ◌&&◌};
ghost use Rattle.cull_base.specs.Screen.{IsSize};

use crate::arithmetic::pixel_of;
use crate::place::Tile;
use crate::rect::Rect;
use crate::size;
use crate::size::Size;

const TILE_WIDTH: u32 = size::TILE_WIDTH as u32;

const TILE_HEIGHT: u32 = size::TILE_HEIGHT as u32;

/// Columns and rows of tiles, each from a first to before an end.
#[derive(Clone, Copy)]
pub struct TileSpan {
    pub first_column: u32,
    pub end_column: u32,
    pub first_row: u32,
    pub end_row: u32,
}

impl TileSpan {
    ghost use Rattle.cull_base.specs.Span.{IsSpan, IsPartOf, HasTilesOf, has_tile, whole_span};
    ghost use Rattle.cull_base.specs.Span.{columns_in, rows_in, row_start_in};
    ghost use Rattle.cull_base.specs.declared.place.Tile.{Tile};

    /// The tiles whose pixels on the screen meet a rectangle.
    pub fn of(rect: &Rect, size: Size) -> TileSpan
        ensures tiles { HasTilesOf result size rect.now }
        ensures span { IsSpan size result }
        ensures sized { IsSize size.width size.height }
    {
        // an accessor tells what is held of a size
        let _width = size.width();
        let reached = rect.cut(&size.screen());
        TileSpan {
            first_column: pixel_of(reached.x0) / TILE_WIDTH,
            end_column: pixel_of(reached.x1).div_ceil(TILE_WIDTH),
            first_row: pixel_of(reached.y0) / TILE_HEIGHT,
            end_row: pixel_of(reached.y1).div_ceil(TILE_HEIGHT),
        }
    }

    /// All tiles of a screen.
    pub fn whole(size: Size) -> TileSpan
        ensures value { result ≡ whole_span size }
        ensures span { IsSpan size result }
        ensures sized { IsSize size.width size.height }
    {
        // an accessor tells what is held of a size
        let _width = size.width();
        TileSpan {
            first_column: 0,
            end_column: size.tile_columns(),
            first_row: 0,
            end_row: size.tile_rows(),
        }
    }

    /// The tiles in both. Condition: no first of the other is past its end.
    pub fn cut(&self, other: &TileSpan) -> TileSpan
        requires columns { other.now.first_column ≤ other.now.end_column }
        requires rows { other.now.first_row ≤ other.now.end_row }
        ensures tiles { (place : Tile)
            → has_tile result place ≡ (has_tile self.now place && has_tile other.now place) }
        ensures part { IsPartOf other.now result }
    {
        let first_column = self
            .first_column
            .clamp(other.first_column, other.end_column);
        let first_row = self.first_row.clamp(other.first_row, other.end_row);
        TileSpan {
            first_column,
            end_column: self.end_column.clamp(first_column, other.end_column),
            first_row,
            end_row: self.end_row.clamp(first_row, other.end_row),
        }
    }

    /// Whether the tile at a place stands in the span.
    pub fn has(&self, place: Tile) -> bool
        ensures { result ≡ has_tile self.now place }
    {
        let column = u32::from(place.column);
        let row = u32::from(place.row);
        self.first_row <= row
            && row < self.end_row
            && self.first_column <= column
            && column < self.end_column
    }

    /// How many tiles stand side by side.
    pub fn columns(&self) -> u32
        ensures { result ≡ columns_in self.now }
    {
        self.end_column.saturating_sub(self.first_column)
    }

    /// How many tiles stand below one another.
    pub fn rows(&self) -> u32
        ensures { result ≡ rows_in self.now }
    {
        self.end_row.saturating_sub(self.first_row)
    }

    /// The number of a row's first tile among the span's tiles, row by row from the top left.
    pub fn row_start(&self, row: u32) -> usize
        ensures { result ≡ row_start_in self.now row }
    {
        row.saturating_sub(self.first_row) as usize * self.columns() as usize
    }
}
