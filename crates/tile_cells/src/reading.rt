//! A reader takes a snapshot of an area.
ghost use Rattle.std.specs.Prelude.{◌≡◌, ◌<◌};
ghost use Rattle.cull_base.specs.Screen.{tile_place};
ghost use Rattle.cull_base.specs.Span.{IsSpan, has_tile};
ghost use Rattle.tile_cells.specs.Snapshots.{HoldsExactly, ReadMet, ReadWhere, is_in_row};

use crate::cells::TileCells;
use crate::reader::TileReader;
use crate::snapshot::Snapshot;
use cull_base::{Rect, TileSpan};
use std::sync::Wait;

impl TileReader {
    // Reads the tiles of one row, in the columns of a span.
    fn read_row<R: Wait>(
        &mut self,
        rt: &R,
        cells: &TileCells,
        span: TileSpan,
        row: u32,
        into: &mut Snapshot,
    )
        requires of { self.old.cells ≡ cells.now }
        requires size { into.old.size ≡ self.old.list.size }
        requires span { IsSpan into.old.size span }
        requires row { row < span.end_row }
        ensures read { ReadWhere (is_in_row into.old.size span row) self.old self.new into.old into.new }
        ensures span { into.new.span ≡ into.old.span }
    {
        let size = into.size();
        // an accessor tells how many rows there may be
        let _rows = size.tile_rows();
        let start = row * size.tile_columns();
        for column in span.first_column..span.end_column {
            let tile = start + column;
            let state = self.read(rt, cells, tile);
            into.put(tile, state);
        }
    }

    // Reads the tiles of a span.
    fn read_span<R: Wait>(&mut self, rt: &R, cells: &TileCells, span: TileSpan, into: &mut Snapshot)
        requires of { self.old.cells ≡ cells.now }
        requires size { into.old.size ≡ self.old.list.size }
        requires span { IsSpan into.old.size span }
        ensures read { ReadWhere (λ t. has_tile span (tile_place into.old.size t)) self.old self.new into.old into.new }
        ensures span { into.new.span ≡ into.old.span }
    {
        for row in span.first_row..span.end_row {
            self.read_row(rt, cells, span, row, into);
        }
    }

    /// Reads each tile that meets an area once. Afterwards the snapshot holds exactly these. Each is the tile after the
    /// members that this reader has now seen of the tile's list, no fewer than before, whatever its writer stores
    /// meanwhile. Conditions: the reader is of these cells, and the snapshot is of the list's screen size.
    pub fn snapshot<R: Wait>(&mut self, rt: &R, cells: &TileCells, area: Rect, into: &mut Snapshot)
        requires of { self.old.cells ≡ cells.now }
        requires size { into.old.size ≡ self.old.list.size }
        ensures held { HoldsExactly into.new area }
        ensures read { ReadMet area self.old self.new into.old into.new }
    {
        let span = into.turn_to(&area);
        self.read_span(rt, cells, span, into);
    }
}
