//! The part of a batch, drawn into the tiles of its bin.
ghost use Rattle.std.specs.Prelude.{◌≡◌, ◌≤◌, ◌<◌, ◌+◌, length};
ghost use Rattle.binning.specs.Bins.{bin_span_of};
ghost use Rattle.binning.specs.Cut.{bin_count_of};
ghost use Rattle.binning.specs.Parts.{indices_in};
ghost use Rattle.cull_base.specs.Span.{IsSpan};
ghost use Rattle.bin_tiles.specs.Bins.{IsBinAt, drawn_of};

use crate::gate::Gate;
use crate::keeper::Keeper;
use crate::screen::Screen;

/// Asks the gate, then draws a member of the list. Conditions: the bin has drawn so many, which are the members before
/// that meet it, and its tiles stand at this member.
#[inline(always)]
pub(crate) fn draw_next<B, K: Keeper<B>, G: Gate>(
    keeper: &mut K,
    screen: &Screen<B, G>,
    bin: u32,
    index: u32,
    taken: u32,
)
    requires index { index < length screen.now.list.now.list.members }
    requires window { let s = screen.now in
        IsSpan s.list.now.list.size (bin_span_of s.list.now.list.size s.cut.now bin) }
    requires taken { let s = screen.now in taken ≡ drawn_of s.list.now.list s.cut.now index bin }
    requires stands { let s = screen.now in
        IsBinAt K.stands s.beside.now s.list.now.list s.cut.now index bin keeper.old }
    ensures { let s = screen.now in
        IsBinAt K.stands s.beside.now s.list.now.list s.cut.now (index + 1) bin keeper.new }
{
    screen.gate.before(bin, taken);
    keeper.draw_member(screen.beside, screen.list, screen.cut, bin, index);
}

/// Draws the members of a part in order, and gives how many the bin has drawn then. A member between them misses the
/// bin. Conditions: the part has the places from one to before another whose members meet the bin, the bin's tiles
/// stand at the one, and the bin has drawn so many.
pub fn draw_part<B, K: Keeper<B>, G: Gate>(
    keeper: &mut K,
    screen: &Screen<B, G>,
    bin: u32,
    indices: &[u32],
    _from: u32,
    _to: u32,
    taken: u32,
) -> u32
    requires bin { bin < bin_count_of screen.now.cut.now }
    requires order { _from ≤ _to }
    requires within { _to ≤ length screen.now.list.now.list.members }
    requires places { let s = screen.now in indices.now ≡ indices_in s.list.now.list s.cut.now _from _to bin }
    requires taken { let s = screen.now in taken ≡ drawn_of s.list.now.list s.cut.now _from bin }
    requires stands { let s = screen.now in
        IsBinAt K.stands s.beside.now s.list.now.list s.cut.now _from bin keeper.old }
    ensures taken { let s = screen.now in result ≡ drawn_of s.list.now.list s.cut.now _to bin }
    ensures stands { let s = screen.now in
        IsBinAt K.stands s.beside.now s.list.now.list s.cut.now _to bin keeper.new }
{
    // accessors tell what is held of a size and of a cut
    let _width = screen.list.size().width();
    let _columns = screen.cut.columns();
    let mut drawn = taken;
    for index in indices {
        draw_next(keeper, screen, bin, *index, drawn);
        drawn += 1;
    }
    drawn
}
