//! Rectangles that the references of the subtiles hide. No reference falls, so they stay hidden, whatever is drawn
//! later.
ghost use Rattle.std.specs.Prelude.{◌≡◌, ℕ, ◌<◌, ◌≤◌};
ghost use Rattle.cull_base.specs.Tiles.{PieceList};
ghost use Rattle.masked_update.specs.Views.{HoldsMet, state_in};
ghost use Rattle.rect_query.specs.References.{bare_sub, bare_tile};
ghost use Rattle.rect_query.specs.Settled.{ReferenceHolds, is_settled};

use crate::area::{Area, is_area_hiding};
use cull_base::{Rect, Size};
use masked_update::{SubTile, TileState, TileView};

// The tiles of another view without their working layers, which later pieces may drop.
#[derive(Drop)]
struct References<'a, V: TileView> {
    view: &'a V,
}

// Subtile j of a tile without its working layer.
fn bare_sub(state: &TileState, j: u8) -> SubTile
    requires { j < 8 }
    ensures { result ≡ bare_sub state.now j }
{
    let mut bare = SubTile::empty();
    bare.merge(state.sub(j).reference(), 0xFFFF_FFFF);
    bare
}

// A tile without its working layers.
fn bare_tile(state: &TileState) -> TileState
    ensures { result ≡ bare_tile state.now }
{
    let subs = [
        bare_sub(state, 0),
        bare_sub(state, 1),
        bare_sub(state, 2),
        bare_sub(state, 3),
        bare_sub(state, 4),
        bare_sub(state, 5),
        bare_sub(state, 6),
        bare_sub(state, 7),
    ];
    TileState::of(subs, state.count())
}

impl<'a, V: TileView> TileView for References<'a, V> {
    ghost use Rattle.rect_query.specs.References.{bare_tile};

    ghost held = { λ r k. V.held r.view.now k };

    ghost tile_of = { λ r k. bare_tile (V.tile_of r.view.now k) };

    fn holds(&self, tile: u32) -> bool {
        self.view.holds(tile)
    }

    fn state(&self, tile: u32) -> TileState {
        bare_tile(&self.view.state(tile))
    }

    #[inline(always)]
    fn least_reference(&self, tile: u32) -> u32 {
        self.view.least_reference(tile)
    }
}

/// Whether a rectangle has a pixel in the screen and the reference of each such pixel's subtile is strictly nearer than
/// q. Condition: the view holds each tile that the rectangle meets.
pub fn settled_test<V: TileView>(view: &V, size: Size, rect: Rect, q: u32) -> bool
    requires { HoldsMet (V.held view.now) size rect }
    ensures { result ≡ is_settled size (state_in size (V.tile_of view.now)) rect q }
{
    if !rect.meets(&size.screen()) {
        return false;
    }
    is_area_hiding(&References { view }, size, &Area::of(&rect, size), q)
}

/// The law of references: along a tile's list no subtile's reference falls, and no bound of a sample is below it.
pub fn references_never_fall()
    ensures { (list : PieceList) (tile j k l : ℕ) → j < 8 → k ≤ l → ReferenceHolds list tile j k l }
{}
