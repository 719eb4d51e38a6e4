//! A piece is drawn into the tiles of a canvas that its box reaches.
ghost use Rattle.std.specs.Prelude.{◌≡◌, ℕ, ◌+◌, ◌<◌, ◌≤◌, ◌^◌, false, true, length, IsTrue};
ghost use Rattle.std.specs.Int.{bit_at};
ghost use Rattle.cull_base.specs.Depth.{greatest_nearness};
ghost use Rattle.cull_base.specs.Piece.{IsPiece};
ghost use Rattle.cull_base.specs.Screen.{IsSize, tile_rows_of};
ghost use Rattle.cull_base.specs.Span.{IsPartOf, IsSpan, has_tile, number_in};
ghost use Rattle.edge_lanes.specs.Near.{AreNearOf};
ghost use Rattle.masked_update.specs.Canvas.{CountedMet, IsInWindow, MergedMet, tile_in, tile_on};
ghost use Rattle.masked_update.specs.Inner.{GoesOn};
ghost use Rattle.masked_update.specs.Least.{NoneBelow};
ghost use Rattle.masked_update.specs.Merged.{AreEdgesOf, AreRowOf};
ghost use Rattle.masked_update.specs.Samples.{HoldsSampled};
ghost use Rattle.masked_update.specs.TileOf.{tile_at};
ghost use Rattle.masked_update.specs.Walk.{CountedWhere, MayCount, MergedWhere, NoneBelowWhere, StayWhere};
ghost use Rattle.masked_update.specs.Walk.{is_in_row, is_marked, rows_before};

use crate::canvas::Canvas;
use crate::piece_setup::PieceDepths;
use crate::sample_box::sampled;
use crate::small_piece::SmallPiece;
use crate::small_walk::merge_small_in_span;
use crate::sub_span::{SubBox, goes_on, ones_between};
use cull_base::{ScreenTri, Side, Size, Tile, TileSpan};
use edge_lanes::{Edges, EdgesView, NearEdges, TileRow};

/// So many tiles of a row are tested at once.
const AT_ONCE: u32 = 8;

// The tiles that a piece may change, of so many from a number on: bit i is that of tile number + i.
#[inline(always)]
fn marks_from(canvas: &Canvas, number: usize, count: u32, nearest: u32) -> u32
    requires some { 1 ≤ count }
    requires few { count ≤ 8 }
    requires within { number + count ≤ length canvas.now.tiles }
    ensures among { (i : ℕ) → i < 8 → bit_at result i ≡ 1 → i < count }
    ensures behind { (i : ℕ) → i < count → bit_at result i ≡ 0
        → NoneBelow nearest (tile_at canvas.now.tiles (number + i)) }
    ensures eight { (i : ℕ) → i < count → length (tile_at canvas.now.tiles (number + i)).subs ≡ 8 }
    ensures byte { result < 2 ^ 8 }
{
    if count == 1 {
        canvas.first_may_change(number, nearest)
    } else {
        canvas.may_change(number, nearest) & ones_between(0, count)
    }
}

// The tiles of a row that a piece may change, of so many from a column on: bit i is that of the tile in column + i.
#[inline(always)]
fn marks(canvas: &Canvas, span: TileSpan, row: u32, column: u32, count: u32, nearest: u32) -> u32
    requires part { IsPartOf canvas.now.window span }
    requires row { (span.first_row ≤ row) × (row < span.end_row) }
    requires column { span.first_column ≤ column }
    requires some { 1 ≤ count }
    requires few { count ≤ 8 }
    requires within { column + count ≤ span.end_column }
    ensures among { (i : ℕ) → i < 8 → bit_at result i ≡ 1 → i < count }
    ensures behind { (i : ℕ) → i < count → bit_at result i ≡ 0
        → NoneBelow nearest (tile_on canvas.now (record { column = column + i; row = row })) }
    ensures eight { (i : ℕ) → i < count
        → length (tile_on canvas.now (record { column = column + i; row = row })).subs ≡ 8 }
    ensures byte { result < 2 ^ 8 }
{
    let window = canvas.window();
    let number = window.row_start(row) + (column - window.first_column) as usize;
    marks_from(canvas, number, count, nearest)
}

// Whether a piece stands behind all tiles of one row, in the columns of a span.
#[inline(always)]
fn is_behind_in_row(canvas: &Canvas, span: TileSpan, row: u32, nearest: u32) -> bool
    requires part { IsPartOf canvas.now.window span }
    requires row { (span.first_row ≤ row) × (row < span.end_row) }
    ensures { result ≡ true → NoneBelowWhere nearest (is_in_row span row) canvas.now }
{
    let mut column = span.first_column;
    while column < span.end_column {
        let count = (span.end_column - column).min(AT_ONCE);
        if marks(canvas, span, row, column, count, nearest) != 0 {
            return false;
        }
        column += count;
    }
    true
}

// The first row of a span where a piece may change a tile, or the span's end.
#[inline(always)]
fn first_row_ahead(canvas: &Canvas, span: TileSpan, nearest: u32) -> u32
    requires part { IsPartOf canvas.now.window span }
    ensures from { span.first_row ≤ result }
    ensures behind { NoneBelowWhere nearest (has_tile (rows_before span result)) canvas.now }
{
    let mut row = span.first_row;
    while row < span.end_row && is_behind_in_row(canvas, span, row, nearest) {
        row += 1;
    }
    row
}

// Counts a piece in the tiles of one row, in the columns of a span.
fn count_in_row(canvas: &mut Canvas, span: TileSpan, row: u32)
    requires part { IsPartOf canvas.old.window span }
    requires row { (span.first_row ≤ row) × (row < span.end_row) }
    requires counts { MayCount (is_in_row span row) canvas.old }
    ensures { CountedWhere (is_in_row span row) canvas.old canvas.new }
{
    let window = canvas.window();
    let start = window.row_start(row);
    for column in span.first_column..span.end_column {
        canvas.count(start + (column - window.first_column) as usize);
    }
}

// Counts a piece in the tiles of a span.
fn count_in_span(canvas: &mut Canvas, span: TileSpan)
    requires part { IsPartOf canvas.old.window span }
    requires counts { MayCount (has_tile span) canvas.old }
    ensures { CountedWhere (has_tile span) canvas.old canvas.new }
{
    // an accessor tells what is held of a canvas
    let _window = canvas.window();
    for row in span.first_row..span.end_row {
        count_in_row(canvas, span, row);
    }
}

/// A row of tiles, the number in the canvas of the tile there that stands in a span's first column, and whether no tile of
/// the span stands at the screen's right or lower end.
#[derive(Clone, Copy)]
struct RowAt {
    row: u32,
    number: usize,
    is_inner: bool,
}

// Merges a piece into the tiles of a row that are marked: bit i is that of the tile in the span's column i.
#[inline(always)]
fn merge_marked(
    canvas: &mut Canvas,
    piece: &PieceDepths,
    reached: &SubBox,
    over: &TileRow,
    span: TileSpan,
    at: RowAt,
    bits: u32,
)
    requires part { IsPartOf canvas.old.window span }
    requires reached { HoldsSampled piece.now reached.now }
    requires span { IsSpan reached.now.size span }
    requires row { (span.first_row ≤ at.row) × (at.row < span.end_row) }
    requires small { at.row < 256 }
    requires over { AreRowOf over.now at.row piece.now }
    requires number { at.number ≡ number_in canvas.old.window
        (record { column = span.first_column; row = at.row }) }
    requires inner { at.is_inner ≡ true → GoesOn reached.now.size span.end_column span.end_row }
    requires within { (i : ℕ) → i < 8 → bit_at bits i ≡ 1 → span.first_column + i < span.end_column }
    requires byte { bits < 2 ^ 8 }
    ensures { MergedWhere (is_marked at.row span.first_column bits) reached.now.size piece.now
        canvas.old canvas.new }
{
    // accessors tell what is held of a canvas, and how many columns there may be
    let _window = canvas.window();
    let _columns = reached.size.tile_columns();
    let mut left = bits;
    while left != 0 {
        let j = left.trailing_zeros();
        let place = Tile {
            column: (span.first_column + j) as u16,
            row: at.row as u16,
        };
        let number = at.number + j as usize;
        canvas.merge(number, piece, reached, over, place, at.is_inner);
        left &= left - 1;
    }
}

// Merges a piece into the tiles of one row of a span of at most eight columns. One that it stands behind stays.
#[inline(always)]
fn merge_in_row(
    canvas: &mut Canvas,
    piece: &PieceDepths,
    edges: EdgesView,
    reached: &SubBox,
    span: TileSpan,
    at: RowAt,
    nearest: u32,
)
    requires part { IsPartOf canvas.old.window span }
    requires edges { AreEdgesOf edges piece.now }
    requires reached { HoldsSampled piece.now reached.now }
    requires span { IsSpan reached.now.size span }
    requires row { (span.first_row ≤ at.row) × (at.row < span.end_row) }
    requires small { at.row < 256 }
    requires number { at.number ≡ number_in canvas.old.window
        (record { column = span.first_column; row = at.row }) }
    requires inner { at.is_inner ≡ true → GoesOn reached.now.size span.end_column span.end_row }
    requires some { span.first_column < span.end_column }
    requires few { span.end_column ≤ span.first_column + 8 }
    requires nearest { nearest ≡ greatest_nearness piece.now }
    requires valid { IsPiece piece.now }
    ensures { MergedWhere (is_in_row span at.row) reached.now.size piece.now canvas.old canvas.new }
{
    // accessors tell what is held of a canvas, and how many columns there may be
    let _window = canvas.window();
    let _columns = reached.size.tile_columns();
    let count = span.end_column - span.first_column;
    let marked = marks_from(canvas, at.number, count, nearest);
    if marked != 0 {
        // where the edges leave a tile nothing, it stays
        let over = piece.over_row(edges, at.row);
        let bits = marked & over.ahead_among(span.first_column, count);
        merge_marked(canvas, piece, reached, &over, span, at, bits);
    }
}

// Merges a piece into the tiles of a span of at most eight columns. Out of line, so that the loop only reads what the
// set-up has computed. What a row needs of the piece and of the window is read before it, and known to stay.
#[inline(never)]
fn merge_in_strip(
    canvas: &mut Canvas,
    piece: &PieceDepths,
    edges: EdgesView,
    reached: &SubBox,
    span: TileSpan,
)
    requires part { IsPartOf canvas.old.window span }
    requires edges { AreEdgesOf edges piece.now }
    requires reached { HoldsSampled piece.now reached.now }
    requires span { IsSpan reached.now.size span }
    requires sized { IsSize reached.now.size.width reached.now.size.height }
    requires some { span.first_column < span.end_column }
    requires few { span.end_column ≤ span.first_column + 8 }
    ensures { MergedWhere (has_tile span) reached.now.size piece.now canvas.old canvas.new }
{
    let window = canvas.window();
    let columns = window.columns() as usize;
    let nearest = piece.nearest();
    let is_inner = goes_on(reached.size, span.end_column, span.end_row);
    let start = window.row_start(span.first_row);
    let mut number = start + (span.first_column - window.first_column) as usize;
    for row in span.first_row..span.end_row {
        let at = RowAt {
            row,
            number,
            is_inner,
        };
        merge_in_row(canvas, piece, edges, reached, span, at, nearest);
        number += columns;
    }
}

// Merges a piece into the tiles of a span, so many columns at a time as are tested at once.
#[inline(always)]
fn merge_in_span(
    canvas: &mut Canvas,
    piece: &PieceDepths,
    edges: EdgesView,
    reached: &SubBox,
    span: TileSpan,
)
    requires part { IsPartOf canvas.old.window span }
    requires edges { AreEdgesOf edges piece.now }
    requires reached { HoldsSampled piece.now reached.now }
    requires span { IsSpan reached.now.size span }
    requires sized { IsSize reached.now.size.width reached.now.size.height }
    ensures { MergedWhere (has_tile span) reached.now.size piece.now canvas.old canvas.new }
{
    // an accessor tells what is held of a canvas
    let _window = canvas.window();
    let mut column = span.first_column;
    while column < span.end_column {
        let count = (span.end_column - column).min(AT_ONCE);
        let strip = TileSpan {
            first_column: column,
            end_column: column + count,
            ..span
        };
        merge_in_strip(canvas, piece, edges, reached, strip);
        column += count;
    }
}

// Whether a piece may change a subtile of the tiles of one row, in the columns of a span.
#[inline(always)]
fn is_wanted_in_row(
    canvas: &Canvas,
    tri: &ScreenTri,
    reached: &SubBox,
    span: TileSpan,
    row: u32,
) -> bool
    requires part { IsPartOf canvas.now.window span }
    requires reached { HoldsSampled tri.now reached.now }
    requires span { IsSpan reached.now.size span }
    requires row { (span.first_row ≤ row) × (row < span.end_row) }
    requires small { row < 256 }
    ensures { result ≡ false → StayWhere (is_in_row span row) reached.now.size tri.now canvas.now }
{
    let window = canvas.window();
    let start = window.row_start(row);
    // an accessor tells how many columns there may be
    let _columns = reached.size.tile_columns();
    let mut column = span.first_column;
    while column < span.end_column {
        let place = Tile {
            column: column as u16,
            row: row as u16,
        };
        let number = start + (column - window.first_column) as usize;
        if canvas.wanted(number, tri, reached, place) != 0 {
            return true;
        }
        column += 1;
    }
    false
}

// Whether a piece may change a subtile of the tiles of a span.
#[inline(always)]
fn is_wanted(canvas: &Canvas, tri: &ScreenTri, reached: &SubBox, span: TileSpan) -> bool
    requires part { IsPartOf canvas.now.window span }
    requires reached { HoldsSampled tri.now reached.now }
    requires span { IsSpan reached.now.size span }
    requires sized { IsSize reached.now.size.width reached.now.size.height }
    ensures { result ≡ false → StayWhere (has_tile span) reached.now.size tri.now canvas.now }
{
    let mut row = span.first_row;
    while row < span.end_row {
        if is_wanted_in_row(canvas, tri, reached, span, row) {
            return true;
        }
        row += 1;
    }
    false
}

// Sets up what a piece has besides its edges, and merges it into the tiles of a span.
#[inline(always)]
fn merge_by_edges(
    canvas: &mut Canvas,
    tri: &ScreenTri,
    edges: EdgesView,
    reached: &SubBox,
    span: TileSpan,
)
    requires part { IsPartOf canvas.old.window span }
    requires edges { AreEdgesOf edges tri.now }
    requires reached { HoldsSampled tri.now reached.now }
    requires span { IsSpan reached.now.size span }
    requires sized { IsSize reached.now.size.width reached.now.size.height }
    ensures { MergedWhere (has_tile span) reached.now.size tri.now canvas.old canvas.new }
{
    let piece = PieceDepths::of(tri);
    merge_in_span(canvas, &piece, edges, reached, span);
}

// The same for a piece whose edges are near. They stay where they are made: they are large to copy.
#[inline(always)]
fn merge_near(
    canvas: &mut Canvas,
    tri: &ScreenTri,
    edges: &NearEdges,
    reached: &SubBox,
    span: TileSpan,
)
    requires part { IsPartOf canvas.old.window span }
    requires edges { AreNearOf edges.now tri.now }
    requires reached { HoldsSampled tri.now reached.now }
    requires span { IsSpan reached.now.size span }
    requires sized { IsSize reached.now.size.width reached.now.size.height }
    ensures { MergedWhere (has_tile span) reached.now.size tri.now canvas.old canvas.new }
{
    let crossings = edges.crossings();
    merge_by_edges(canvas, tri, EdgesView::Crossed(&crossings), reached, span);
}

// The same for any other piece. Out of line: hardly any piece is such a one.
#[cold]
#[inline(never)]
fn merge_plain(canvas: &mut Canvas, tri: &ScreenTri, reached: &SubBox, span: TileSpan)
    requires part { IsPartOf canvas.old.window span }
    requires reached { HoldsSampled tri.now reached.now }
    requires span { IsSpan reached.now.size span }
    requires sized { IsSize reached.now.size.width reached.now.size.height }
    ensures { MergedWhere (has_tile span) reached.now.size tri.now canvas.old canvas.new }
{
    let edges = Edges::of(tri, Side::Occluder);
    merge_by_edges(canvas, tri, EdgesView::Plain(&edges), reached, span);
}

// Sets a piece up, and merges it into the tiles of a span. One that changes no subtile there isn't set up.
#[inline(never)]
fn merge_set_up(canvas: &mut Canvas, tri: &ScreenTri, reached: &SubBox, span: TileSpan)
    requires part { IsPartOf canvas.old.window span }
    requires reached { HoldsSampled tri.now reached.now }
    requires span { IsSpan reached.now.size span }
    requires sized { IsSize reached.now.size.width reached.now.size.height }
    ensures { MergedWhere (has_tile span) reached.now.size tri.now canvas.old canvas.new }
{
    // an accessor tells what is held of a canvas
    let _window = canvas.window();
    if !is_wanted(canvas, tri, reached, span) {
        return;
    }
    match NearEdges::of(tri) {
        Some(edges) => merge_near(canvas, tri, &edges, reached, span),
        None => merge_plain(canvas, tri, reached, span),
    }
}

// Whether a span has one tile.
#[inline(always)]
fn is_one(span: TileSpan) -> bool
    requires columns { span.first_column ≤ span.end_column }
    requires rows { span.first_row ≤ span.end_row }
    ensures column { IsTrue result → span.end_column ≡ span.first_column + 1 }
    ensures row { IsTrue result → span.end_row ≡ span.first_row + 1 }
{
    span.end_column - span.first_column == 1 && span.end_row - span.first_row == 1
}

// Merges a piece into the one tile of a span, a small one subtile by subtile. One that changes no subtile isn't set up.
#[inline(always)]
fn merge_in_tile(canvas: &mut Canvas, tri: &ScreenTri, reached: &SubBox, span: TileSpan)
    requires part { IsPartOf canvas.old.window span }
    requires reached { HoldsSampled tri.now reached.now }
    requires span { IsSpan reached.now.size span }
    requires sized { IsSize reached.now.size.width reached.now.size.height }
    requires column { span.end_column ≡ span.first_column + 1 }
    requires row { span.end_row ≡ span.first_row + 1 }
    ensures { MergedWhere (has_tile span) reached.now.size tri.now canvas.old canvas.new }
{
    let window = canvas.window();
    let start = window.row_start(span.first_row);
    let number = start + (span.first_column - window.first_column) as usize;
    // accessors tell how many columns and rows there may be
    let _columns = reached.size.tile_columns();
    let _rows = reached.size.tile_rows();
    let place = Tile {
        column: span.first_column as u16,
        row: span.first_row as u16,
    };
    let wanted = canvas.wanted(number, tri, reached, place);
    if wanted == 0 {
        return;
    }
    match SmallPiece::of(tri, reached) {
        Some(piece) => canvas.merge_among(number, &piece, reached.size, place, wanted),
        None => merge_set_up(canvas, tri, reached, span),
    }
}

// Merges a piece into the tiles of a span, a small one subtile by subtile.
#[inline(always)]
fn merge_in_tiles(canvas: &mut Canvas, tri: &ScreenTri, reached: &SubBox, span: TileSpan)
    requires part { IsPartOf canvas.old.window span }
    requires reached { HoldsSampled tri.now reached.now }
    requires span { IsSpan reached.now.size span }
    requires sized { IsSize reached.now.size.width reached.now.size.height }
    ensures { MergedWhere (has_tile span) reached.now.size tri.now canvas.old canvas.new }
{
    match SmallPiece::of(tri, reached) {
        Some(piece) => merge_small_in_span(canvas, &piece, reached, span),
        None => merge_set_up(canvas, tri, reached, span),
    }
}

// Merges a piece into the tiles of a span.
#[inline(never)]
fn merge_piece(canvas: &mut Canvas, tri: &ScreenTri, reached: &SubBox, span: TileSpan)
    requires part { IsPartOf canvas.old.window span }
    requires reached { HoldsSampled tri.now reached.now }
    requires span { IsSpan reached.now.size span }
    requires sized { IsSize reached.now.size.width reached.now.size.height }
    ensures { MergedWhere (has_tile span) reached.now.size tri.now canvas.old canvas.new }
{
    if is_one(span) {
        merge_in_tile(canvas, tri, reached, span);
    } else {
        merge_in_tiles(canvas, tri, reached, span);
    }
}

// Merges a piece into the tiles of a span. One that stands behind all of them changes nothing and isn't set up.
#[inline(always)]
fn merge_where_ahead(canvas: &mut Canvas, tri: &ScreenTri, reached: &SubBox, span: TileSpan)
    requires part { IsPartOf canvas.old.window span }
    requires reached { HoldsSampled tri.now reached.now }
    requires span { IsSpan reached.now.size span }
    requires sized { IsSize reached.now.size.width reached.now.size.height }
    ensures { MergedWhere (has_tile span) reached.now.size tri.now canvas.old canvas.new }
{
    // an accessor tells what is held of a canvas
    let _window = canvas.window();
    let first_row = first_row_ahead(canvas, span, tri.greatest_nearness());
    if first_row < span.end_row {
        merge_piece(canvas, tri, reached, TileSpan { first_row, ..span });
    }
}

/// Merges a piece into the tiles of the canvas that its box reaches, and counts it nowhere. One that has no sample there,
/// or stands behind all of them, changes nothing and isn't set up. Condition: the window is of the screen.
#[inline(always)]
pub fn draw_piece(canvas: &mut Canvas, tri: &ScreenTri, size: Size)
    requires window { IsSpan size canvas.old.window }
    ensures { MergedMet size tri.now canvas.old canvas.new }
{
    // accessors tell what is held of a canvas, of a size and of a piece
    let _count = canvas.tile_count();
    let _width = size.width();
    let _nearest = tri.greatest_nearness();
    let sampled = sampled(tri);
    let reached = SubBox::of(&sampled, size);
    let window = canvas.window();
    let span = reached.tiles_in(&window);
    let (left, right) = (span.first_column, span.end_column);
    if right <= left {
        return;
    }
    let (top, bottom) = (span.first_row, span.end_row);
    if bottom <= top {
        return;
    }
    merge_where_ahead(canvas, tri, &reached, span);
}

/// Counts a piece in the tiles of the canvas that its box reaches, and merges it nowhere. Conditions: the window is of
/// the screen, and the counts are below 131,072.
pub fn count_piece(canvas: &mut Canvas, tri: &ScreenTri, size: Size)
    requires window { IsSpan size canvas.old.window }
    requires counts { (t : ℕ) → IsInWindow size canvas.old.window t
        → (tile_in size canvas.old t).count < 131072 }
    ensures { CountedMet size tri.now canvas.old canvas.new }
{
    let span = TileSpan::of(&tri.boxed(), size).cut(&canvas.window());
    count_in_span(canvas, span);
}
