//! What reads a frame's tiles while they are drawn.
ghost use Rattle.std.specs.Prelude.{◌≡◌};

use std::sync::Wait;
use std::thread::Threads;
use tile_cells::{TileCells, TileReader};

/// Runs beside the drawing of a frame, with a reader of its tiles.
pub trait Caller: Send {
    ghost use Rattle.cull_base.specs.Tiles.{PieceList};
    ghost use Rattle.tile_cells.specs.Cells.{Reading};
    ghost use Rattle.tile_cells.specs.Standing.{IsReading};
    ghost use Rattle.tile_queues.specs.Callers.{Follows};

    /// What it needs before a frame of this list is drawn.
    ghost ready: { Self → PieceList → Type 0 };

    /// What it has done when the frame of this list is drawn and the reader stands so.
    ghost done: { Self → PieceList → Reading → Type 0 };

    /// What it keeps, by what it was and what it is.
    ghost keeps: { Self → Self → Type 0 } = { λ before after. Unit {0} };

    /// Reads tiles. Conditions: it is ready, and the reader is of these cells. It is done afterwards, and the reader is
    /// the same and has seen no less.
    fn beside<R: Threads + Wait + Sync>(
        &mut self,
        rt: &R,
        cells: &TileCells,
        reader: &mut TileReader,
    )
        requires ready { ready self.old reader.old.list }
        requires reader { IsReading cells.now reader.old.list reader.old }
        ensures done { done self.new reader.old.list reader.new }
        ensures keeps { keeps self.old self.new }
        ensures follows { Follows reader.old reader.new };
}
