//! The edges of an occluder that lie near: nearly all pieces have such edges, and these have spans.
ghost use Rattle.std.specs.Prelude.{◌≡◌, ℕ, ◌<◌, IfSome};
ghost use Rattle.cull_base.specs.Piece.{Piece, covered};
ghost use Rattle.cull_base.specs.declared.place.Sub.{Sub};
ghost use Rattle.edge_lanes.specs.Crossings.{AreNear, crossed_in};

use crate::crossings::Crossings;
use crate::edges::is_narrow;
use crate::narrow_edges::NarrowEdges;
use crate::turned::TurnedEdges;
use cull_base::{ScreenTri, Side};

/// The edges of a piece, turned, none of which is very long, far away or flat.
#[derive(Clone, Copy)]
pub struct NearEdges {
    turned: TurnedEdges,
    ghost near: { AreNear turned },
}

impl NearEdges {
    ghost use Rattle.edge_lanes.specs.Near.{AreNearOf};

    /// None where an edge of the piece isn't near.
    #[inline(always)]
    pub fn of(tri: &ScreenTri) -> Option<NearEdges>
        ensures { IfSome result (λ e. AreNearOf e tri.now) }
    {
        if !is_narrow(tri) {
            return None;
        }
        let turned = TurnedEdges::of(&NarrowEdges::of(tri, Side::Occluder));
        if turned.are_near() {
            Some(NearEdges { turned })
        } else {
            None
        }
    }

    /// Where they cross the rows of samples of a screen of 2048 by 2048 pixels. In line, with all that it calls, so
    /// that they are written where the caller keeps them: they are large to copy.
    #[inline(always)]
    pub fn crossings(&self) -> Crossings
        ensures { (x : Piece) → AreNearOf self.now x → (u : Sub) → u.column < 256 → u.row < 512
            → crossed_in result u ≡ covered x u }
    {
        Crossings::of(&self.turned)
    }
}
