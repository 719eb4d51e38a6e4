//! The rules on a window of tiles: members that miss it may be passed over, and the whole list draws it.
ghost use Rattle.std.specs.Prelude.{ℕ, length};
ghost use Rattle.cull_base.specs.Screen.{IsSize};
ghost use Rattle.cull_base.specs.Tiles.{PieceList, ArePieces};
ghost use Rattle.masked_update.specs.Canvas.{CanvasOf, AreDrawnIn, MissBetween, StandsAt};

/// A canvas that stands at the first a members stands at the first b, where the members between miss its window.
pub fn missing_members()
    ensures { (list : PieceList) (a b : ℕ) (c : CanvasOf) → MissBetween list c.window a b
        → StandsAt list a c → StandsAt list b c }
{}

/// The tiles of a canvas that stands at all members of a list are drawn.
pub fn drawn_window()
    ensures { (list : PieceList) (c : CanvasOf) → IsSize list.size.width list.size.height
        → ArePieces list.members → StandsAt list (length list.members) c → AreDrawnIn list c }
{}
