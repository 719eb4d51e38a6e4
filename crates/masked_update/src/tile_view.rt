//! Tiles as a query sees them, wherever they are held.
ghost use Rattle.std.specs.Prelude.{◌≡◌, ℕ, ◌<◌, ◌≤◌, Bool, true};
ghost use Rattle.cull_base.specs.Fold.{IsLayered};
ghost use Rattle.masked_update.specs.TileOf.{TileOf, sub_at};

use crate::tile_state::TileState;

/// Tiles that can be looked at.
pub trait TileView {
    ghost held: { Self → ℕ → Bool };

    ghost tile_of: { Self → ℕ → TileOf };

    fn holds(&self, tile: u32) -> bool
        ensures { result ≡ held self.now tile };

    /// Condition: the view holds the tile.
    fn state(&self, tile: u32) -> TileState
        requires { held self.now tile ≡ true }
        ensures { result ≡ tile_of self.now tile };

    /// A nearness that no reference of the tile is below. Condition as for `state`.
    fn least_reference(&self, tile: u32) -> u32
        requires { held self.now tile ≡ true }
        ensures least { (j : ℕ) → j < 8 → result ≤ (sub_at (tile_of self.now tile) j).reference }
        ensures layered { (j : ℕ) → j < 8 → IsLayered (sub_at (tile_of self.now tile) j) }
    {
        self.state(tile).least_reference()
    }
}

/// The tiles of a slice, by their places in it.
#[derive(Clone, Copy)]
pub struct PlainView<'a> {
    states: &'a [TileState],
}

impl<'a> PlainView<'a> {
    pub fn new(states: &'a [TileState]) -> PlainView<'a>
        ensures { result.states.now ≡ states.entry.now }
    {
        PlainView { states }
    }
}

impl<'a> TileView for PlainView<'a> {
    ghost use Rattle.masked_update.specs.TileOf.{tile_at};
    ghost use Rattle.std.specs.Prelude.{nat_lt, length};

    ghost held = { λ v k. nat_lt k (length v.states.now) };

    ghost tile_of = { λ v k. tile_at v.states.now k };

    fn holds(&self, tile: u32) -> bool {
        (tile as usize) < self.states.len()
    }

    fn state(&self, tile: u32) -> TileState {
        self.states[tile as usize]
    }

    #[inline(always)]
    fn least_reference(&self, tile: u32) -> u32 {
        self.states[tile as usize].least_reference()
    }
}
