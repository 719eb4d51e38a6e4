//! The rule on a tile's list: a tile takes its members one after the other.
ghost use Rattle.std.specs.Prelude.{◌≡◌, ℕ};
ghost use Rattle.cull_base.specs.Piece.{Piece};
ghost use Rattle.cull_base.specs.Tiles.{PieceList};
ghost use Rattle.masked_update.specs.TileOf.{empty_tile};
ghost use Rattle.masked_update.specs.Taken.{standing_at, IsMember, MovesOn};

/// A tile that stands at the first k members of its list and takes the next one stands at k + 1, and an empty tile
/// stands at none.
pub fn next_member()
    ensures none { (tile : ℕ) (list : PieceList) → standing_at tile 0 list ≡ empty_tile }
    ensures next { (tile k : ℕ) (list : PieceList) (x : Piece) → IsMember tile k list x
        → MovesOn tile k list x }
{}
