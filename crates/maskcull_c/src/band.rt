//! A piece is drawn into the tiles of a window that its box reaches.
ghost use Rattle.std.specs.Prelude.{◌≡◌, ◌<◌, ◌≤◌, true, length};
ghost use Rattle.cull_base.specs.Piece.{IsPiece};
ghost use Rattle.cull_base.specs.Screen.{IsSize};
ghost use Rattle.cull_base.specs.Span.{IsPartOf, IsSpan, has_tile};
ghost use Rattle.edge_lanes.specs.Near.{AreNearOf};
ghost use Rattle.masked_update.specs.Canvas.{IsCanvas, MergedMet};
ghost use Rattle.masked_update.specs.Least.{NoneBelow};
ghost use Rattle.masked_update.specs.Merged.{AreEdgesOf};
ghost use Rattle.masked_update.specs.Samples.{HoldsSampled};
ghost use Rattle.masked_update.specs.Walk.{MergedWhere, NoneBelowWhere, is_in_row};
ghost use Rattle.maskcull_c.specs.Bands.{band_of};

use crate::small_band::merge_small_in_span;
use cull_base::{ScreenTri, Side, Size, Tile, TileSpan};
use edge_lanes::{Edges, EdgesView, NearEdges};
use masked_update::{PieceDepths, SmallPiece, SubBox, TileState, sampled};

// Whether a piece that is nowhere nearer changes nothing in a tile.
#[inline(always)]
fn is_behind(tile: &TileState, nearest: u32) -> bool
    ensures { result ≡ true → NoneBelow nearest tile.now }
{
    // an accessor tells how many subtiles a tile has
    let _first = tile.sub(0);
    nearest <= tile.least_reference()
}

// Whether a piece stands behind all tiles of one row, in the columns of a span.
#[inline(always)]
fn is_behind_in_row(
    tiles: &[TileState],
    window: TileSpan,
    span: TileSpan,
    row: u32,
    nearest: u32,
) -> bool
    requires whole { IsCanvas (band_of window tiles.now) }
    requires part { IsPartOf window span }
    requires row { (span.first_row ≤ row) × (row < span.end_row) }
    ensures { result ≡ true → NoneBelowWhere nearest (is_in_row span row) (band_of window tiles.now) }
{
    let start = window.row_start(row);
    for column in span.first_column..span.end_column {
        let number = start + (column - window.first_column) as usize;
        if !is_behind(&tiles[number], nearest) {
            return false;
        }
    }
    true
}

// Whether it stands behind all tiles of a span.
#[inline(always)]
fn is_behind_in_span(tiles: &[TileState], window: TileSpan, span: TileSpan, nearest: u32) -> bool
    requires whole { IsCanvas (band_of window tiles.now) }
    requires part { IsPartOf window span }
    ensures { result ≡ true → NoneBelowWhere nearest (has_tile span) (band_of window tiles.now) }
{
    for row in span.first_row..span.end_row {
        if !is_behind_in_row(tiles, window, span, row, nearest) {
            return false;
        }
    }
    true
}

// Merges a piece into the tiles of one row, in the columns of a span. Its edges over the row are computed once.
#[inline(always)]
fn merge_in_row(
    tiles: &mut [TileState],
    window: TileSpan,
    piece: &PieceDepths,
    edges: EdgesView,
    reached: &SubBox,
    span: TileSpan,
    row: u32,
)
    requires whole { IsCanvas (band_of window tiles.old) }
    requires part { IsPartOf window span }
    requires edges { AreEdgesOf edges piece.now }
    requires reached { HoldsSampled piece.now reached.now }
    requires span { IsSpan reached.now.size span }
    requires row { (span.first_row ≤ row) × (row < span.end_row) }
    requires small { row < 256 }
    ensures { MergedWhere (is_in_row span row) reached.now.size piece.now
        (band_of window tiles.old) (band_of window tiles.new) }
{
    let start = window.row_start(row);
    // an accessor tells how many columns there may be
    let _columns = reached.size.tile_columns();
    let over = piece.over_row(edges, row);
    for column in span.first_column..span.end_column {
        let number = start + (column - window.first_column) as usize;
        let place = Tile {
            column: column as u16,
            row: row as u16,
        };
        tiles[number].merge_ahead(piece, reached, &over, place);
    }
}

// Merges a piece into the tiles of a span.
fn merge_in_span(
    tiles: &mut [TileState],
    window: TileSpan,
    piece: &PieceDepths,
    edges: EdgesView,
    reached: &SubBox,
    span: TileSpan,
)
    requires whole { IsCanvas (band_of window tiles.old) }
    requires part { IsPartOf window span }
    requires edges { AreEdgesOf edges piece.now }
    requires reached { HoldsSampled piece.now reached.now }
    requires span { IsSpan reached.now.size span }
    requires sized { IsSize reached.now.size.width reached.now.size.height }
    ensures { MergedWhere (has_tile span) reached.now.size piece.now
        (band_of window tiles.old) (band_of window tiles.new) }
{
    // a copy: what is computed of it is known to stay while tiles are written
    let here = *reached;
    for row in span.first_row..span.end_row {
        merge_in_row(tiles, window, piece, edges, &here, span, row);
    }
}

// Sets up what a piece has besides its edges, and merges it into the tiles of a span.
#[inline(always)]
fn merge_by_edges(
    tiles: &mut [TileState],
    window: TileSpan,
    tri: &ScreenTri,
    edges: EdgesView,
    reached: &SubBox,
    span: TileSpan,
)
    requires whole { IsCanvas (band_of window tiles.old) }
    requires part { IsPartOf window span }
    requires edges { AreEdgesOf edges tri.now }
    requires reached { HoldsSampled tri.now reached.now }
    requires span { IsSpan reached.now.size span }
    requires sized { IsSize reached.now.size.width reached.now.size.height }
    ensures { MergedWhere (has_tile span) reached.now.size tri.now
        (band_of window tiles.old) (band_of window tiles.new) }
{
    let piece = PieceDepths::of(tri);
    merge_in_span(tiles, window, &piece, edges, reached, span);
}

// The same for a piece whose edges are near. They stay where they are made: they are large to copy.
#[inline(always)]
fn merge_near(
    tiles: &mut [TileState],
    window: TileSpan,
    tri: &ScreenTri,
    edges: &NearEdges,
    reached: &SubBox,
    span: TileSpan,
)
    requires whole { IsCanvas (band_of window tiles.old) }
    requires part { IsPartOf window span }
    requires edges { AreNearOf edges.now tri.now }
    requires reached { HoldsSampled tri.now reached.now }
    requires span { IsSpan reached.now.size span }
    requires sized { IsSize reached.now.size.width reached.now.size.height }
    ensures { MergedWhere (has_tile span) reached.now.size tri.now
        (band_of window tiles.old) (band_of window tiles.new) }
{
    let crossings = edges.crossings();
    let edges = EdgesView::Crossed(&crossings);
    merge_by_edges(tiles, window, tri, edges, reached, span);
}

// The same for any other piece. Out of line: hardly any piece is such a one.
#[cold]
#[inline(never)]
fn merge_plain(
    tiles: &mut [TileState],
    window: TileSpan,
    tri: &ScreenTri,
    reached: &SubBox,
    span: TileSpan,
)
    requires whole { IsCanvas (band_of window tiles.old) }
    requires part { IsPartOf window span }
    requires reached { HoldsSampled tri.now reached.now }
    requires span { IsSpan reached.now.size span }
    requires sized { IsSize reached.now.size.width reached.now.size.height }
    ensures { MergedWhere (has_tile span) reached.now.size tri.now
        (band_of window tiles.old) (band_of window tiles.new) }
{
    let edges = Edges::of(tri, Side::Occluder);
    merge_by_edges(tiles, window, tri, EdgesView::Plain(&edges), reached, span);
}

// Sets a piece up, and merges it into the tiles of a span.
#[inline(never)]
fn merge_set_up(
    tiles: &mut [TileState],
    window: TileSpan,
    tri: &ScreenTri,
    reached: &SubBox,
    span: TileSpan,
)
    requires whole { IsCanvas (band_of window tiles.old) }
    requires part { IsPartOf window span }
    requires reached { HoldsSampled tri.now reached.now }
    requires span { IsSpan reached.now.size span }
    requires sized { IsSize reached.now.size.width reached.now.size.height }
    ensures { MergedWhere (has_tile span) reached.now.size tri.now
        (band_of window tiles.old) (band_of window tiles.new) }
{
    match NearEdges::of(tri) {
        Some(edges) => merge_near(tiles, window, tri, &edges, reached, span),
        None => merge_plain(tiles, window, tri, reached, span),
    }
}

// Merges a piece into the tiles of a span, a small one subtile by subtile.
#[inline(always)]
fn merge_piece(
    tiles: &mut [TileState],
    window: TileSpan,
    tri: &ScreenTri,
    size: Size,
    span: TileSpan,
)
    requires whole { IsCanvas (band_of window tiles.old) }
    requires part { IsPartOf window span }
    requires span { IsSpan size span }
    requires sized { IsSize size.width size.height }
    ensures { MergedWhere (has_tile span) size tri.now (band_of window tiles.old) (band_of window tiles.new) }
{
    let sampled = sampled(tri);
    let reached = SubBox::of(&sampled, size);
    match SmallPiece::of(tri, &reached) {
        Some(piece) => merge_small_in_span(tiles, window, &piece, &reached, span),
        None => merge_set_up(tiles, window, tri, &reached, span),
    }
}

/// Merges a piece into the tiles of a window that its box reaches. One that stands behind all of them changes nothing
/// and isn't set up. Conditions: the window is of the screen, and the tiles are its tiles, row by row.
pub(crate) fn draw_piece(tiles: &mut [TileState], window: TileSpan, tri: &ScreenTri, size: Size)
    requires whole { IsCanvas (band_of window tiles.old) }
    requires window { IsSpan size window }
    ensures met { MergedMet size tri.now (band_of window tiles.old) (band_of window tiles.new) }
    ensures whole { length tiles.new ≡ length tiles.old }
    ensures piece { IsPiece tri.now }
    ensures sized { IsSize size.width size.height }
{
    let span = TileSpan::of(&tri.boxed(), size).cut(&window);
    if !is_behind_in_span(tiles, window, span, tri.greatest_nearness()) {
        merge_piece(tiles, window, tri, size, span);
    }
}
