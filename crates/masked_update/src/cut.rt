//! The rule on the cut of bounds: a lower one keeps what is merged.
ghost use Rattle.std.specs.Prelude.{◌≡◌, ℕ, ◌<◌, ◌≤◌, true};
ghost use Rattle.cull_base.specs.declared.nearness.TheConstants.{HELD_TOP};
ghost use Rattle.cull_base.specs.declared.place.Sub.{Sub};
ghost use Rattle.cull_base.specs.State.{State};
ghost use Rattle.cull_base.specs.Piece.{IsPiece, Piece, covers, sample};
ghost use Rattle.cull_base.specs.Depth.{greatest_nearness, low_of};
ghost use Rattle.cull_base.specs.Fold.{step};
ghost use Rattle.masked_update.specs.Cuts.{step_up_to};

/// Where a piece covers a sample of a subtile, its low bound is at most its greatest nearness. So its step is the same
/// with the bound cut at any top from that nearness to the one that subtiles hold.
pub fn lower_cut()
    ensures bound { (u : Sub) (x : Piece) (k : ℕ) → IsPiece x → k < 32 → covers x (sample u k) ≡ true
        → low_of x u ≤ greatest_nearness x }
    ensures step { (top : ℕ) (u : Sub) (s : State) (x : Piece) → IsPiece x → greatest_nearness x ≤ top
        → top ≤ HELD_TOP → step_up_to top u s x ≡ step u s x }
{}
