//! A whole list drawn into the tiles of one bin, with no parts.
ghost use Rattle.std.specs.Prelude.{◌≡◌, ◌≤◌, ◌<◌, ◌+◌, length};
ghost use Rattle.binning.specs.Bins.{bin_rect_of};
ghost use Rattle.binning.specs.Cut.{bin_count_of};
ghost use Rattle.bin_tiles.specs.Bins.{IsBinAt, drawn_of};

use crate::gate::Gate;
use crate::keeper::Keeper;
use crate::meeting::is_met;
use crate::part::draw_next;
use crate::screen::Screen;
use binning::{batch_count, bin_rect};
use cull_base::Rect;

// Draws a member if it meets the bin, and gives how many the bin has drawn then.
#[inline(always)]
fn draw_where_met<B, K: Keeper<B>, G: Gate>(
    keeper: &mut K,
    screen: &Screen<B, G>,
    bin: u32,
    rect: &Rect,
    index: u32,
    taken: u32,
) -> u32
    requires bin { bin < bin_count_of screen.now.cut.now }
    requires rect { let s = screen.now in rect.now ≡ bin_rect_of s.list.now.list.size s.cut.now bin }
    requires index { index < length screen.now.list.now.list.members }
    requires taken { let s = screen.now in taken ≡ drawn_of s.list.now.list s.cut.now index bin }
    requires stands { let s = screen.now in
        IsBinAt K.stands s.beside.now s.list.now.list s.cut.now index bin keeper.old }
    ensures taken { let s = screen.now in result ≡ drawn_of s.list.now.list s.cut.now (index + 1) bin }
    ensures stands { let s = screen.now in
        IsBinAt K.stands s.beside.now s.list.now.list s.cut.now (index + 1) bin keeper.new }
{
    let (list, cut) = (screen.list, screen.cut);
    // accessors tell what is held of a size, of a cut and of a list
    let (_width, _columns, _len) = (list.size().width(), cut.columns(), list.len());
    if is_met(list.get(index), rect) {
        draw_next(keeper, screen, bin, index, taken);
        taken + 1
    } else {
        taken
    }
}

// Draws those of a batch's members that meet the bin, and gives how many the bin has drawn then.
fn draw_places<B, K: Keeper<B>, G: Gate>(
    keeper: &mut K,
    screen: &Screen<B, G>,
    bin: u32,
    rect: &Rect,
    from: u32,
    to: u32,
    taken: u32,
) -> u32
    requires bin { bin < bin_count_of screen.now.cut.now }
    requires rect { let s = screen.now in rect.now ≡ bin_rect_of s.list.now.list.size s.cut.now bin }
    requires order { from ≤ to }
    requires within { to ≤ length screen.now.list.now.list.members }
    requires taken { let s = screen.now in taken ≡ drawn_of s.list.now.list s.cut.now from bin }
    requires stands { let s = screen.now in
        IsBinAt K.stands s.beside.now s.list.now.list s.cut.now from bin keeper.old }
    ensures taken { let s = screen.now in result ≡ drawn_of s.list.now.list s.cut.now to bin }
    ensures stands { let s = screen.now in
        IsBinAt K.stands s.beside.now s.list.now.list s.cut.now to bin keeper.new }
{
    let mut drawn = taken;
    for index in from..to {
        drawn = draw_where_met(keeper, screen, bin, rect, index, drawn);
    }
    drawn
}

/// Draws the members that meet a bin, in order. The gate is asked before the members of each batch. Conditions: a batch
/// has at least one piece, and no member is drawn.
pub fn draw_unbinned<B, K: Keeper<B>, G: Gate>(
    keeper: &mut K,
    screen: &Screen<B, G>,
    bin: u32,
    size: u32,
)
    requires size { 1 ≤ size }
    requires bin { bin < bin_count_of screen.now.cut.now }
    requires stands { let s = screen.now in
        IsBinAt K.stands s.beside.now s.list.now.list s.cut.now 0 bin keeper.old }
    ensures { let s = screen.now in
        IsBinAt K.stands s.beside.now s.list.now.list s.cut.now (length s.list.now.list.members) bin keeper.new }
{
    let rect = bin_rect(screen.list.size(), screen.cut, bin);
    let len = screen.list.len();
    let (mut from, mut taken) = (0u32, 0u32);
    for batch in 0..batch_count(len, size) {
        screen.gate.submits(batch);
        let to = len.min(from.saturating_add(size));
        taken = draw_places(keeper, screen, bin, &rect, from, to, taken);
        from = to;
    }
}
