//! The drawing of a frame list, member by member.
ghost use Rattle.std.specs.Prelude.{◌≡◌, ℕ, ◌+◌, ◌<◌, length, IfOk, OnOk};
ghost use Rattle.cull_base.specs.Screen.{tile_count_of};
ghost use Rattle.cull_base.specs.Span.{IsSpan};
ghost use Rattle.cull_base.specs.Tiles.{ArePieces};
ghost use Rattle.masked_update.specs.Canvas.{CountsAt, StandsAt};
ghost use Rattle.masked_update.specs.Drawn.{AreDrawn};

use crate::canvas::Canvas;
use crate::tile_state::TileState;
use crate::walk::{count_piece, draw_piece};
use cull_base::{FrameList, Memory, TileSpan};
use std::alloc::Global;

impl Canvas {
    /// Draws a member of a list, and counts it nowhere. Conditions: there is such a member, the window is of the list's
    /// screen, and each of its tiles stands at the members before. Afterwards each stands at this one too.
    #[inline(always)]
    pub fn draw_member(&mut self, list: &FrameList, index: u32)
        requires index { index < length list.now.list.members }
        requires window { IsSpan list.now.list.size self.old.window }
        requires stands { StandsAt list.now.list index self.old }
        ensures stands { StandsAt list.now.list (index + 1) self.new }
        ensures counts { (k : ℕ) → CountsAt list.now.list k self.old → CountsAt list.now.list k self.new }
        ensures window { self.new.window ≡ self.old.window }
    {
        draw_piece(self, list.get(index), list.size());
    }

    // Counts a member of a list in the tiles that its box meets, and draws it nowhere. Conditions as for `draw_member`,
    // where each tile counts the members before.
    fn count_member(&mut self, list: &FrameList, index: u32)
        requires index { index < length list.now.list.members }
        requires window { IsSpan list.now.list.size self.old.window }
        requires counts { CountsAt list.now.list index self.old }
        ensures counts { CountsAt list.now.list (index + 1) self.new }
        ensures stands { (k : ℕ) → StandsAt list.now.list k self.old → StandsAt list.now.list k self.new }
        ensures window { self.new.window ≡ self.old.window }
    {
        // an accessor tells how long a list may be
        let _length = list.len();
        count_piece(self, list.get(index), list.size());
    }
}

/// Each tile of the screen after the whole list. A bound that isn't 0 at a sample is reached there by a member that
/// covers the sample. A tile counts the pieces whose box reaches it. Err if out of memory: all of it is taken before
/// anything is drawn. After Ok the caller knows too that each member is a piece.
pub fn draw_plain(alloc: Global, list: &FrameList) -> Result<Vec<TileState>, Memory>
    ensures tiles { IfOk result (λ v. length v.items ≡ tile_count_of list.now.list.size) }
    ensures drawn { IfOk result (λ v. AreDrawn list.now.list v.items) }
    ensures pieces { OnOk result (ArePieces list.now.list.members) }
{
    let mut canvas = Canvas::empty(alloc, TileSpan::whole(list.size()))?;
    for index in 0..list.len() {
        canvas.draw_member(list, index);
        canvas.count_member(list, index);
    }
    Ok(canvas.into_tiles())
}
