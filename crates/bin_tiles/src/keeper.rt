//! A bin's tiles while a list is drawn, in whatever form they are kept.
use binning::Cut;
use cull_base::FrameList;

/// Keeps the tiles of a bin. B is what lies beside them and is needed to draw.
pub trait Keeper<B> {
    ghost use Rattle.std.specs.Prelude.{◌≡◌, ◌<◌, ◌+◌, ℕ, List, length};
    ghost use Rattle.atomic_table.specs.Seated.{TableId};
    ghost use Rattle.cull_base.specs.Span.{IsSpan};
    ghost use Rattle.cull_base.specs.Tiles.{PieceList};
    ghost use Rattle.cull_base.specs.declared.tile_span.TileSpan.{TileSpan};
    ghost use Rattle.masked_update.specs.Canvas.{MissBetween};
    ghost use Rattle.binning.specs.Bins.{bin_span_of};

    /// The cells beside, where tiles lie in cells.
    ghost cells: { B → List TableId };

    /// Its tiles are those of a window, and each took those of the list's first members, of so many, that are its own.
    ghost stands: { Self → B → PieceList → TileSpan → ℕ → Type 0 };

    /// Draws a member of the list. Condition: the tiles are those of the bin and stand at the members before.
    /// Afterwards they stand at this one too.
    fn draw_member(&mut self, beside: &B, list: &FrameList, cut: &Cut, bin: u32, index: u32)
        requires index { index < length list.now.list.members }
        requires window { IsSpan list.now.list.size (bin_span_of list.now.list.size cut.now bin) }
        requires stands { stands self.old beside.now list.now.list (bin_span_of list.now.list.size cut.now bin) index }
        ensures { stands self.new beside.now list.now.list (bin_span_of list.now.list.size cut.now bin) (index + 1) };

    /// Members that miss the window may be passed over.
    ghost passes: { (k : Self) (beside : B) (list : PieceList) (window : TileSpan) (m n : ℕ)
        → MissBetween list window m n → stands k beside list window m → stands k beside list window n };
}
