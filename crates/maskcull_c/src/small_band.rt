//! A piece of a few pixels is drawn into the tiles of a window that its box reaches.
ghost use Rattle.std.specs.Prelude.{◌<◌, ◌≤◌};
ghost use Rattle.cull_base.specs.Screen.{IsSize};
ghost use Rattle.cull_base.specs.Span.{IsPartOf, IsSpan, has_tile};
ghost use Rattle.masked_update.specs.Canvas.{IsCanvas};
ghost use Rattle.masked_update.specs.Samples.{HoldsSampled};
ghost use Rattle.masked_update.specs.Walk.{MergedWhere, is_in_row};
ghost use Rattle.maskcull_c.specs.Bands.{band_of};

use cull_base::{Tile, TileSpan};
use masked_update::{SmallPiece, SubBox, TileState};

// Merges a small piece into the tiles of one row, in the columns of a span.
#[inline(always)]
fn merge_small_in_row(
    tiles: &mut [TileState],
    window: TileSpan,
    piece: &SmallPiece,
    reached: &SubBox,
    span: TileSpan,
    row: u32,
)
    requires whole { IsCanvas (band_of window tiles.old) }
    requires part { IsPartOf window span }
    requires reached { HoldsSampled piece.now reached.now }
    requires span { IsSpan reached.now.size span }
    requires row { (span.first_row ≤ row) × (row < span.end_row) }
    requires small { row < 256 }
    ensures { MergedWhere (is_in_row span row) reached.now.size piece.now
        (band_of window tiles.old) (band_of window tiles.new) }
{
    let start = window.row_start(row);
    // an accessor tells how many columns there may be
    let _columns = reached.size.tile_columns();
    for column in span.first_column..span.end_column {
        let number = start + (column - window.first_column) as usize;
        let place = Tile {
            column: column as u16,
            row: row as u16,
        };
        tiles[number].merge_small(piece, reached, place);
    }
}

/// Merges a small piece into the tiles of a span. Conditions: the tiles are the window's, row by row, the span's are of
/// the window and of the screen, and what is reached on it holds each sample that the piece covers.
pub(crate) fn merge_small_in_span(
    tiles: &mut [TileState],
    window: TileSpan,
    piece: &SmallPiece,
    reached: &SubBox,
    span: TileSpan,
)
    requires whole { IsCanvas (band_of window tiles.old) }
    requires part { IsPartOf window span }
    requires reached { HoldsSampled piece.now reached.now }
    requires span { IsSpan reached.now.size span }
    requires sized { IsSize reached.now.size.width reached.now.size.height }
    ensures { MergedWhere (has_tile span) reached.now.size piece.now
        (band_of window tiles.old) (band_of window tiles.new) }
{
    // a copy: what is computed of it is known to stay while tiles are written
    let here = *reached;
    for row in span.first_row..span.end_row {
        merge_small_in_row(tiles, window, piece, &here, span, row);
    }
}
