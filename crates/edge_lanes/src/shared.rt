//! The rule on edges: a sample on an edge that two pieces share belongs to one of them.
ghost use Rattle.std.specs.Prelude.{◌≡◌, ◌≢◌, not};
ghost use Rattle.cull_base.specs.Piece.{Piece, Point, is_top_or_left, edge_covers};
ghost use Rattle.edge_lanes.specs.Shared.{HasEdge, NoneInBoth};

/// Of an edge whose ends differ and its reverse exactly one is a top or left edge, so each sample, also one on the
/// edge, counts from exactly one side; and no sample is covered by two pieces on either side of an edge.
pub fn shared_edge()
    ensures direction { (a b : Point) → a ≢ b → is_top_or_left b a ≡ not (is_top_or_left a b) }
    ensures side { (a b p : Point) → a ≢ b → edge_covers b a p ≡ not (edge_covers a b p) }
    ensures pieces { (s t : Piece) (a b : Point) → a ≢ b → HasEdge s a b → HasEdge t b a → NoneInBoth s t }
{}
