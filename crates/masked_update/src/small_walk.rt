//! A small piece is merged into the tiles of a canvas.
ghost use Rattle.std.specs.Prelude.{◌≡◌, ◌<◌, ◌≤◌};
ghost use Rattle.cull_base.specs.Screen.{IsSize};
ghost use Rattle.cull_base.specs.Span.{IsPartOf, IsSpan, has_tile};
ghost use Rattle.masked_update.specs.Samples.{HoldsSampled};
ghost use Rattle.masked_update.specs.Walk.{MergedWhere, is_in_row};

use crate::canvas::Canvas;
use crate::small_piece::SmallPiece;
use crate::sub_span::SubBox;
use cull_base::{Tile, TileSpan};

// Merges a small piece into the tiles of one row, in the columns of a span.
#[inline(always)]
fn merge_small_in_row(
    canvas: &mut Canvas,
    piece: &SmallPiece,
    reached: &SubBox,
    span: TileSpan,
    row: u32,
)
    requires part { IsPartOf canvas.old.window span }
    requires reached { HoldsSampled piece.now reached.now }
    requires span { IsSpan reached.now.size span }
    requires row { (span.first_row ≤ row) × (row < span.end_row) }
    requires small { row < 256 }
    ensures { MergedWhere (is_in_row span row) reached.now.size piece.now canvas.old canvas.new }
{
    let window = canvas.window();
    let start = window.row_start(row);
    // an accessor tells how many columns there may be
    let _columns = reached.size.tile_columns();
    for column in span.first_column..span.end_column {
        let place = Tile {
            column: column as u16,
            row: row as u16,
        };
        canvas.merge_small(
            start + (column - window.first_column) as usize,
            piece,
            reached,
            place,
        );
    }
}

/// Merges a small piece into the tiles of a span. Conditions: the span's tiles are of the window and of the screen, and
/// what is reached on it holds each sample that the piece covers.
#[inline(always)]
pub fn merge_small_in_span(
    canvas: &mut Canvas,
    piece: &SmallPiece,
    reached: &SubBox,
    span: TileSpan,
)
    requires part { IsPartOf canvas.old.window span }
    requires reached { HoldsSampled piece.now reached.now }
    requires span { IsSpan reached.now.size span }
    requires sized { IsSize reached.now.size.width reached.now.size.height }
    ensures { MergedWhere (has_tile span) reached.now.size piece.now canvas.old canvas.new }
{
    // an accessor tells what is held of a canvas
    let _window = canvas.window();
    // a copy: what is computed of it is known to stay while tiles are written
    let here = *reached;
    for row in span.first_row..span.end_row {
        merge_small_in_row(canvas, piece, &here, span, row);
    }
}
