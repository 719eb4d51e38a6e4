//! The rule on bounds: none is nearer than the pieces that it comes of.
ghost use Rattle.std.specs.Prelude.{ℕ, ◌<◌, ◌≤◌, List};
ghost use Rattle.std.specs.List.{Contains};
ghost use Rattle.cull_base.specs.declared.place.Sub.{Sub};
ghost use Rattle.cull_base.specs.Depth.{greatest_nearness};
ghost use Rattle.cull_base.specs.Fold.{IsSound};
ghost use Rattle.cull_base.specs.Piece.{Piece};
ghost use Rattle.cull_base.specs.State.{State, bound_at};
ghost use Rattle.cull_base.specs.Tiles.{ArePieces};

/// Where no piece of a list is nearer than a top, neither is a bound of a state that is sound for the list.
pub fn bounds_within()
    ensures { (u : Sub) (pieces : List Piece) (s : State) (top k : ℕ) → ArePieces pieces
        → ((t : Piece) → Contains pieces t → greatest_nearness t ≤ top) → IsSound u pieces s → k < 32
        → bound_at s k ≤ top }
{}
