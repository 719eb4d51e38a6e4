//! The tiles of a bin as cells, each with its writer, so that others may read them while they are drawn.
ghost use Rattle.std.specs.Prelude.{◌≡◌, ℕ, ◌≤◌, ◌<◌, ◌+◌, true, length, slice_index_or};
ghost use Rattle.cull_base.specs.Piece.{box_of};
ghost use Rattle.cull_base.specs.Rectangle.{meets};
ghost use Rattle.cull_base.specs.Screen.{tile_place, tile_rect_of};
ghost use Rattle.cull_base.specs.Span.{IsPartOf, IsSpan, has_tile, tiles_in};
ghost use Rattle.edge_lanes.specs.Near.{AreNearOf};
ghost use Rattle.masked_update.specs.Forms.{piece_of_form};
ghost use Rattle.masked_update.specs.Merged.{AreEdgesOf};
ghost use Rattle.masked_update.specs.Samples.{HoldsSampled};
ghost use Rattle.tile_cells.specs.Standing.{StandsAt};
ghost use Rattle.tile_queues.specs.CellBins.{HasMet, HasStored, IsMemberForm, Stands, is_passed};

use bin_tiles::Keeper;
use binning::Cut;
use cull_base::{FrameList, ScreenTri, Side, TileSpan};
use edge_lanes::{Edges, EdgesView, NearEdges};
use masked_update::{PieceDepths, PieceForm, SmallPiece, SubBox};
use std::sync::Wait;
use tile_cells::{TileCells, TileWriter};

/// The writers of a window's tiles, row by row.
#[derive(Drop)]
pub(crate) struct CellBin {
    pub(crate) window: TileSpan,
    pub(crate) writers: Vec<TileWriter>,
}

/// The cells, and the handle by which a store may wait.
#[derive(Clone, Copy)]
pub(crate) struct InCells<'a, R> {
    pub(crate) rt: &'a R,
    pub(crate) cells: &'a TileCells,
}

// A member of the list, and the cells that take it.
#[derive(Drop)]
struct Member<'a, R> {
    rt: &'a R,
    cells: &'a TileCells,
    list: &'a FrameList,
    index: u32,
    ghost inside: { index < length list.now.list.members },
}

// Stores a member in the cell of a tile that it meets.
#[inline(always)]
fn store<R: Wait>(writer: &mut TileWriter, member: &Member<R>, form: PieceForm)
    requires form { let list = member.now.list.now.list in
        IsMemberForm list member.now.index (tile_place list.size writer.old.tile).row form }
    requires met { meets (box_of (piece_of_form form))
        (tile_rect_of member.now.list.now.list.size writer.old.tile) ≡ true }
    requires stands { let m = member.now in Stands m.cells.now m.list.now.list m.index writer.old }
    ensures tile { writer.new.tile ≡ writer.old.tile }
    ensures stands { let m = member.now in Stands m.cells.now m.list.now.list (m.index + 1) writer.new }
{
    writer.take_form(member.rt, member.cells, form);
}

// Stores it in the tiles of one row, in the columns of a span.
fn store_in_row<R: Wait>(
    writers: &mut [TileWriter],
    member: &Member<R>,
    form: PieceForm,
    window: TileSpan,
    span: TileSpan,
    row: u32,
)
    requires form { IsMemberForm member.now.list.now.list member.now.index row form }
    requires window { IsSpan member.now.list.now.list.size window }
    requires part { IsPartOf window span }
    requires met { HasMet member.now.list.now.list.size window span (piece_of_form form) }
    requires row { (span.first_row ≤ row) × (row < span.end_row) }
    requires stored { let m = member.now in HasStored (is_passed span row span.first_column)
        m.cells.now m.list.now.list window m.index writers.old }
    ensures { let m = member.now in HasStored (is_passed span row span.end_column)
        m.cells.now m.list.now.list window m.index writers.new }
{
    let start = window.row_start(row);
    for column in span.first_column..span.end_column {
        let number = start + (column - window.first_column) as usize;
        store(&mut writers[number], member, form);
    }
}

// Stores it in the tiles of a span, in one form for all rows.
fn store_in_span<R: Wait>(
    writers: &mut [TileWriter],
    member: &Member<R>,
    form: PieceForm,
    window: TileSpan,
    span: TileSpan,
)
    requires form { (row : ℕ) → IsMemberForm member.now.list.now.list member.now.index row form }
    requires window { IsSpan member.now.list.now.list.size window }
    requires part { IsPartOf window span }
    requires met { HasMet member.now.list.now.list.size window span (piece_of_form form) }
    requires stored { let m = member.now in HasStored (is_passed span span.first_row span.first_column)
        m.cells.now m.list.now.list window m.index writers.old }
    ensures { let m = member.now in
        HasStored (has_tile span) m.cells.now m.list.now.list window m.index writers.new }
{
    for row in span.first_row..span.end_row {
        store_in_row(writers, member, form, window, span, row);
    }
}

// Sets up what a member has besides its edges, and stores it in the tiles of a span. Its edges over a row of tiles are
// computed once.
#[inline(always)]
fn store_by_edges<R: Wait>(
    writers: &mut [TileWriter],
    member: &Member<R>,
    tri: &ScreenTri,
    edges: EdgesView,
    reached: &SubBox,
    window: TileSpan,
    span: TileSpan,
)
    requires is { let m = member.now in slice_index_or m.list.now.list.members m.index tri.now ≡ tri.now }
    requires edges { AreEdgesOf edges tri.now }
    requires reached { HoldsSampled tri.now reached.now }
    requires size { reached.now.size ≡ member.now.list.now.list.size }
    requires window { IsSpan member.now.list.now.list.size window }
    requires part { IsPartOf window span }
    requires met { HasMet member.now.list.now.list.size window span tri.now }
    requires stored { let m = member.now in HasStored (is_passed span span.first_row span.first_column)
        m.cells.now m.list.now.list window m.index writers.old }
    ensures { let m = member.now in
        HasStored (has_tile span) m.cells.now m.list.now.list window m.index writers.new }
{
    // an accessor tells how many rows there may be
    let _rows = reached.size.tile_rows();
    let piece = PieceDepths::of(tri);
    for row in span.first_row..span.end_row {
        let over = piece.over_row(edges, row);
        let form = PieceForm::Row(&piece, reached, &over);
        store_in_row(writers, member, form, window, span, row);
    }
}

// The same for a member whose edges are near. They stay where they are made: they are large to copy.
#[inline(always)]
fn store_near<R: Wait>(
    writers: &mut [TileWriter],
    member: &Member<R>,
    tri: &ScreenTri,
    edges: &NearEdges,
    reached: &SubBox,
    window: TileSpan,
    span: TileSpan,
)
    requires is { let m = member.now in slice_index_or m.list.now.list.members m.index tri.now ≡ tri.now }
    requires edges { AreNearOf edges.now tri.now }
    requires reached { HoldsSampled tri.now reached.now }
    requires size { reached.now.size ≡ member.now.list.now.list.size }
    requires window { IsSpan member.now.list.now.list.size window }
    requires part { IsPartOf window span }
    requires met { HasMet member.now.list.now.list.size window span tri.now }
    requires stored { let m = member.now in HasStored (is_passed span span.first_row span.first_column)
        m.cells.now m.list.now.list window m.index writers.old }
    ensures { let m = member.now in
        HasStored (has_tile span) m.cells.now m.list.now.list window m.index writers.new }
{
    let crossings = edges.crossings();
    store_by_edges(
        writers,
        member,
        tri,
        EdgesView::Crossed(&crossings),
        reached,
        window,
        span,
    );
}

// The same for any other member. Out of line: hardly any is such a one.
#[cold]
#[inline(never)]
fn store_plain<R: Wait>(
    writers: &mut [TileWriter],
    member: &Member<R>,
    tri: &ScreenTri,
    reached: &SubBox,
    window: TileSpan,
    span: TileSpan,
)
    requires is { let m = member.now in slice_index_or m.list.now.list.members m.index tri.now ≡ tri.now }
    requires reached { HoldsSampled tri.now reached.now }
    requires size { reached.now.size ≡ member.now.list.now.list.size }
    requires window { IsSpan member.now.list.now.list.size window }
    requires part { IsPartOf window span }
    requires met { HasMet member.now.list.now.list.size window span tri.now }
    requires stored { let m = member.now in HasStored (is_passed span span.first_row span.first_column)
        m.cells.now m.list.now.list window m.index writers.old }
    ensures { let m = member.now in
        HasStored (has_tile span) m.cells.now m.list.now.list window m.index writers.new }
{
    let edges = Edges::of(tri, Side::Occluder);
    store_by_edges(
        writers,
        member,
        tri,
        EdgesView::Plain(&edges),
        reached,
        window,
        span,
    );
}

// Sets a member up, and stores it in the tiles of a span.
fn store_set_up<R: Wait>(
    writers: &mut [TileWriter],
    member: &Member<R>,
    tri: &ScreenTri,
    reached: &SubBox,
    window: TileSpan,
    span: TileSpan,
)
    requires is { let m = member.now in slice_index_or m.list.now.list.members m.index tri.now ≡ tri.now }
    requires reached { HoldsSampled tri.now reached.now }
    requires size { reached.now.size ≡ member.now.list.now.list.size }
    requires window { IsSpan member.now.list.now.list.size window }
    requires part { IsPartOf window span }
    requires met { HasMet member.now.list.now.list.size window span tri.now }
    requires stored { let m = member.now in HasStored (is_passed span span.first_row span.first_column)
        m.cells.now m.list.now.list window m.index writers.old }
    ensures { let m = member.now in
        HasStored (has_tile span) m.cells.now m.list.now.list window m.index writers.new }
{
    match NearEdges::of(tri) {
        Some(edges) => store_near(writers, member, tri, &edges, reached, window, span),
        None => store_plain(writers, member, tri, reached, window, span),
    }
}

// Whether a piece stands behind all tiles of a span: they take it as it is then, and it needs no setting up. Cells take
// the same by either answer, so no clause says which it is.
#[inline(always)]
fn is_behind(writers: &[TileWriter], window: TileSpan, span: TileSpan, nearest: u32) -> bool
    requires whole { length writers.now ≡ tiles_in window }
    requires part { IsPartOf window span }
{
    for row in span.first_row..span.end_row {
        let start = window.row_start(row);
        for column in span.first_column..span.end_column {
            let number = start + (column - window.first_column) as usize;
            if writers[number].least_reference() < nearest {
                return false;
            }
        }
    }
    true
}

// Stores a member in the tiles of a span, set up once for all of them where it may change one.
fn store_member<R: Wait>(
    writers: &mut [TileWriter],
    member: &Member<R>,
    tri: &ScreenTri,
    window: TileSpan,
    span: TileSpan,
)
    requires is { let m = member.now in slice_index_or m.list.now.list.members m.index tri.now ≡ tri.now }
    requires window { IsSpan member.now.list.now.list.size window }
    requires part { IsPartOf window span }
    requires met { HasMet member.now.list.now.list.size window span tri.now }
    requires stored { let m = member.now in HasStored (is_passed span span.first_row span.first_column)
        m.cells.now m.list.now.list window m.index writers.old }
    ensures { let m = member.now in
        HasStored (has_tile span) m.cells.now m.list.now.list window m.index writers.new }
{
    if is_behind(writers, window, span, tri.greatest_nearness()) {
        store_in_span(writers, member, PieceForm::Bare(tri), window, span);
        return;
    }
    let reached = SubBox::of(&tri.boxed(), member.list.size());
    match SmallPiece::of(tri, &reached) {
        Some(piece) => {
            let form = PieceForm::Small(&piece, &reached);
            store_in_span(writers, member, form, window, span);
        }
        None => store_set_up(writers, member, tri, &reached, window, span),
    }
}

impl<'a, R: Wait> Keeper<InCells<'a, R>> for CellBin {
    ghost use Rattle.tile_queues.specs.CellBins.{AreWritersAt};
    ghost use Rattle.tile_queues.specs.Passing.{writers_pass};

    ghost cells = { λ beside. beside.cells.now };

    ghost stands = { λ k beside list window n. AreWritersAt beside.cells.now list window n k };

    fn draw_member(
        &mut self,
        beside: &InCells<'a, R>,
        list: &FrameList,
        _cut: &Cut,
        _bin: u32,
        index: u32,
    ) {
        let tri = list.get(index);
        let span = TileSpan::of(&tri.boxed(), list.size()).cut(&self.window);
        let member = Member {
            rt: beside.rt,
            cells: beside.cells,
            list,
            index,
        };
        let writers = self.writers.as_mut_slice();
        store_member(writers, &member, tri, self.window, span);
    }

    ghost passes = { λ k beside list window m n. writers_pass beside.cells.now list window m n k };
}
