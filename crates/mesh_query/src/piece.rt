//! A piece of a mesh, tested against the tiles that its box reaches.
ghost use Rattle.std.specs.Prelude.{◌≡◌, ℕ, true, ◌+◌, ◌*◌, ◌/◌, ◌%◌, ◌<◌, ◌≤◌};
ghost use Rattle.cull_base.specs.Piece.{IsPiece, box_of, touched};
ghost use Rattle.cull_base.specs.Screen.{IsSize, is_on_screen};
ghost use Rattle.cull_base.specs.Span.{IsSpan, HasTilesOf};
ghost use Rattle.edge_lanes.specs.Inside.{sub_of};
ghost use Rattle.edge_lanes.specs.Tiles.{inside_at};
ghost use Rattle.masked_update.specs.Views.{HoldsMet, state_in};
ghost use Rattle.mesh_query.specs.Asked.{Answers, TouchedIn, InSub, InTile, InRow, states_of};

use crate::edged_tile::EdgedTile;
use cull_base::{Rect, ScreenTri, Side, Size, Sub, Tile, TileSpan};
use depth_plane::Plane;
use edge_lanes::Edges;
use masked_update::{SubTile, TileState, TileView};
use std::marker::Model;

/// A piece of a mesh with what each subtile needs of it: its edges, its plane and its greatest nearness.
#[derive(Drop)]
pub struct MeshPiece {
    tri: ScreenTri,
    edges: Edges,
    plane: Plane,
    nearest: u32,
}

impl Model for MeshPiece {
    ghost use Rattle.cull_base.specs.Piece.{Piece};

    ghost Value = { Piece };

    ghost use Rattle.mesh_query.specs.Setup.{IsSetUp};

    ghost view = { λ s. s.tri };

    ghost invariant = { IsSetUp };
}

impl MeshPiece {
    /// Sets a piece up.
    pub fn of(tri: &ScreenTri) -> MeshPiece
        ensures value { result ≡ tri.now }
        ensures valid { IsPiece tri.now }
    {
        MeshPiece {
            tri: *tri,
            edges: Edges::of(tri, Side::Object),
            plane: Plane::of(tri),
            nearest: tri.greatest_nearness(),
        }
    }

    // Tests against subtile j of a tile. Once a sample is known to be touched, no mask is made where the reference alone
    // hides the piece.
    #[inline(always)]
    fn ask_subtile(
        &self,
        sub_tile: &SubTile,
        size: Size,
        tile: &EdgedTile,
        j: u16,
        known: bool,
    ) -> Option<bool>
        requires sized { IsSize size.width size.height }
        requires j { j < 8 }
        requires on_screen { is_on_screen size (sub_of tile.now.place j) ≡ true }
        requires edges { inside_at tile.now.edges j ≡ touched self.now (sub_of tile.now.place j) }
        ensures { Answers (λ _. sub_tile.now)
            (TouchedIn size self.now (InSub (sub_of tile.now.place j))) known result }
    {
        let reference = sub_tile.reference();
        if known && self.nearest < reference {
            return Some(true);
        }
        let sub = Sub {
            column: 4 * tile.place.column + j % 4,
            row: 2 * tile.place.row + j / 4,
        };
        let high = self.plane.high(&self.tri, sub);
        if known && high < reference {
            return Some(true);
        }
        let mask = tile.edges.mask_beside(tile.whole, u32::from(j));
        if mask == 0 {
            return Some(known);
        }
        if sub_tile.hides(mask, high) {
            return Some(true);
        }
        None
    }

    // Tests against the subtiles of a tile, but for those that an edge rejects whole and those beside the screen.
    fn ask_subtiles(&self, state: &TileState, size: Size, place: Tile, known: bool) -> Option<bool>
        requires sized { IsSize size.width size.height }
        requires column { place.column < 64 }
        requires row { place.row < 256 }
        ensures { Answers (states_of state.now) (TouchedIn size self.now (InTile place)) known result }
    {
        let edges = self.edges.at_tile(place);
        let candidates = edges.candidates();
        let whole = edges.whole();
        let tile = EdgedTile {
            place,
            edges,
            whole,
        };
        let mut touched = known;
        for j in 0..8 {
            let sub = Sub {
                column: 4 * place.column + j % 4,
                row: 2 * place.row + j / 4,
            };
            if (candidates >> j) & 1 == 1 && size.on_screen(sub) {
                let sub_tile = state.sub(j as u8);
                touched = self.ask_subtile(&sub_tile, size, &tile, j, touched)?;
            }
        }
        Some(touched)
    }

    // Tests against a tile. Once a sample is known to be touched, no subtile is looked at where each reference hides the
    // piece.
    #[inline(always)]
    fn ask_tile<V: TileView>(
        &self,
        view: &V,
        tile: u32,
        size: Size,
        place: Tile,
        known: bool,
    ) -> Option<bool>
        requires sized { IsSize size.width size.height }
        requires column { place.column < 64 }
        requires row { place.row < 256 }
        requires holds { V.held view.now tile ≡ true }
        ensures { Answers (states_of (V.tile_of view.now tile))
            (TouchedIn size self.now (InTile place)) known result }
    {
        if known && self.nearest < view.least_reference(tile) {
            return Some(true);
        }
        self.ask_subtiles(&view.state(tile), size, place, known)
    }

    // Tests against the tiles of a row, in the columns of a span.
    fn ask_row<V: TileView>(
        &self,
        view: &V,
        size: Size,
        span: TileSpan,
        row: u32,
        known: bool,
    ) -> Option<bool>
        requires sized { IsSize size.width size.height }
        requires span { IsSpan size span }
        requires valid { IsPiece self.now }
        requires tiles { HasTilesOf span size (box_of self.now) }
        requires first { span.first_row ≤ row }
        requires end { row < span.end_row }
        requires holds { HoldsMet (V.held view.now) size (box_of self.now) }
        ensures { Answers (state_in size (V.tile_of view.now))
            (TouchedIn size self.now (InRow row)) known result }
    {
        let first = row * size.tile_columns();
        let mut touched = known;
        for column in span.first_column..span.end_column {
            let place = Tile {
                column: column as u16,
                row: row as u16,
            };
            touched = self.ask_tile(view, first + column, size, place, touched)?;
        }
        Some(touched)
    }

    /// Tests the piece against the tiles that its box reaches: None where a sample that it touches doesn't hide its high
    /// bound, else whether a sample is known to be touched, by this piece or before. Conditions: `reached` is the piece's
    /// box, and the view holds these tiles.
    pub fn ask<V: TileView>(
        &self,
        view: &V,
        size: Size,
        reached: &Rect,
        known: bool,
    ) -> Option<bool>
        requires valid { IsPiece self.now }
        requires reached { reached.now ≡ box_of self.now }
        requires holds { HoldsMet (V.held view.now) size (box_of self.now) }
        ensures { Answers (state_in size (V.tile_of view.now)) (TouchedIn size self.now (λ px py. Unit {0}))
            known result }
    {
        let span = TileSpan::of(reached, size);
        let mut touched = known;
        for row in span.first_row..span.end_row {
            touched = self.ask_row(view, size, span, row, touched)?;
        }
        Some(touched)
    }
}
