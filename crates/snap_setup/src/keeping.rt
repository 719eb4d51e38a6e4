//! Which pieces of a frame are kept in its list.
ghost use Rattle.std.specs.Prelude.{◌≡◌, ◌≤◌, ◌+◌, [], ◌∷◌, length, option_to_list};
ghost use Rattle.cull_base.specs.Sampled.{is_sampled};
ghost use Rattle.snap_setup.specs.Keeping.{is_kept, Took};

use cull_base::{FrameList, ScreenTri, Size, samples_between};

/// Which pieces of a frame are kept: each, or those that may cover a sample of the screen.
#[derive(Clone, Copy)]
pub(crate) enum Keeping {
    Each,
    Sampled,
}

// Whether a pixel's middle on the screen stands in a piece's box, or on its edge.
#[inline(always)]
fn is_sampled(piece: &ScreenTri, size: Size) -> bool
    ensures { result ≡ is_sampled size piece.now }
{
    samples_between(&piece.x(), &piece.y()).meets_in_lanes(&size.screen())
}

#[inline(always)]
fn is_kept(keeping: Keeping, piece: &ScreenTri, size: Size) -> bool
    ensures { result ≡ is_kept keeping size piece.now }
{
    match keeping {
        Keeping::Each => true,
        Keeping::Sampled => is_sampled(piece, size),
    }
}

/// Appends a piece to a list where it is kept, and gives how many were taken: 1. Condition: there is room for it.
#[inline(always)]
pub(crate) fn take(piece: ScreenTri, keeping: Keeping, list: &mut FrameList) -> u32
    requires { length list.old.list.members + 1 ≤ list.old.room }
    ensures { Took keeping list.old list.new result (piece ∷ []) }
{
    if is_kept(keeping, &piece, list.size()) {
        list.push(piece);
    }
    1
}

/// As `take`, of a piece that may be none.
#[inline(always)]
pub(crate) fn take_if(piece: Option<ScreenTri>, keeping: Keeping, list: &mut FrameList) -> u32
    requires { length list.old.list.members + 1 ≤ list.old.room }
    ensures { Took keeping list.old list.new result (option_to_list piece) }
{
    match piece {
        Some(piece) => take(piece, keeping, list),
        None => 0,
    }
}
