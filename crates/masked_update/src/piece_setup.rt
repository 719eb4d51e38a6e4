//! A piece set up for the tiles that take it: what each subtile needs of it is computed once. The drawing keeps its edges
//! apart, where they are made: they are large to copy.
ghost use Rattle.std.specs.Prelude.{◌≡◌, ℕ, ◌<◌, ◌^◌, false, true, length, slice_index, List};
ghost use Rattle.cull_base.specs.Piece.{IsPiece, box_of, covered};
ghost use Rattle.cull_base.specs.Depth.{greatest_nearness};
ghost use Rattle.cull_base.specs.Screen.{tile_columns_of, tile_rows_of};
ghost use Rattle.cull_base.specs.State.{State, samples_of};
ghost use Rattle.edge_lanes.specs.Inside.{sub_of};
ghost use Rattle.masked_update.specs.Coverage.{IsCoverage, AreWanted};
ghost use Rattle.masked_update.specs.Inner.{IsInner};
ghost use Rattle.masked_update.specs.Merged.{AreEdgesOf, AreRowOf, IsSubBox, merged_by};
ghost use Rattle.masked_update.specs.Samples.{HoldsSampled};

use crate::coverage::{Coverage, masks_among};
use crate::sub_span::SubBox;
use crate::tile_layers::TileLayers;
use cull_base::{Rect, ScreenTri, Size, Tile};
use depth_plane::Plane;
use edge_lanes::{EdgesView, RowEdges, TileRow};
use std::marker::Model;

/// A piece with what each tile needs of it besides its edges: its plane, its greatest and its least nearness.
#[derive(Drop)]
pub struct PieceDepths {
    tri: ScreenTri,
    plane: Plane,
    nearest: u32,
    least: u32,
}

impl Model for PieceDepths {
    ghost use Rattle.cull_base.specs.Piece.{Piece};

    ghost Value = { Piece };

    ghost use Rattle.masked_update.specs.Depths.{HasDepths};

    ghost view = { λ s. s.tri };

    ghost invariant = { HasDepths };
}

/// The same, with its edges.
#[derive(Drop)]
pub struct PieceSetup {
    depths: PieceDepths,
    edges: RowEdges,
}

impl Model for PieceSetup {
    ghost use Rattle.cull_base.specs.Piece.{Piece};

    ghost Value = { Piece };

    ghost use Rattle.masked_update.specs.Setup.{IsSetUp};

    ghost view = { λ s. s.depths };

    ghost invariant = { IsSetUp };
}

impl PieceDepths {
    /// Sets a piece up.
    #[inline(always)]
    pub fn of(tri: &ScreenTri) -> PieceDepths
        ensures value { result ≡ tri.now }
        ensures valid { IsPiece tri.now }
    {
        PieceDepths {
            tri: *tri,
            plane: Plane::of(tri),
            nearest: tri.greatest_nearness(),
            least: tri.least_nearness(),
        }
    }

    /// The pixels that the piece may reach, not cut to the screen.
    pub fn boxed(&self) -> Rect
        ensures value { result ≡ box_of self.now }
        ensures valid { IsPiece self.now }
    {
        self.tri.boxed()
    }

    /// The greatest nearness of its vertices.
    pub fn nearest(&self) -> u32
        ensures value { result ≡ greatest_nearness self.now }
        ensures valid { IsPiece self.now }
    {
        self.nearest
    }

    /// The subtiles of a screen that the piece may reach.
    #[inline(always)]
    pub fn reached_on(&self, size: Size) -> SubBox
        ensures reached { IsSubBox (box_of self.now) result }
        ensures size { result.size ≡ size }
    {
        SubBox::of(&self.boxed(), size)
    }

    /// Its edges over a row of tiles. Conditions: they are the piece's, and the row is below 256.
    #[inline(always)]
    pub fn over_row<'a>(&self, edges: EdgesView<'a>, row: u32) -> TileRow<'a>
        requires edges { AreEdgesOf edges self.now }
        requires row { row < 256 }
        ensures { AreRowOf result row self.now }
    {
        edges.over_row(row)
    }

    // What the piece brings to the wanted subtiles of a tile, by the masks of all that it covers there.
    #[inline(always)]
    fn coverage(&self, masks: [u32; 8], place: Tile, wanted: u32) -> Coverage
        requires column { place.column < 64 }
        requires row { place.row < 256 }
        requires masks { (j : ℕ) → j < 8 → samples_of (slice_index masks j) ≡ covered self.now (sub_of place j) }
        requires byte { wanted < 2 ^ 8 }
        ensures { IsCoverage place self.now wanted result }
    {
        // the masks first: whether all are wanted is then one test for both
        let masks = masks_among(masks, wanted);
        let lows = self.plane.floors(place);
        Coverage { lows, masks }
    }

    // The subtiles of a tile, as bits, that are reached on the screen. The piece covers nothing elsewhere. Out of line:
    // few tiles want it, so what it needs is computed for these alone.
    #[cold]
    #[inline(never)]
    fn subtiles_reached(&self, reached: &SubBox, place: Tile) -> u32
        requires { HoldsSampled self.now reached.now }
        ensures wanted { (subs : List State) → AreWanted reached.now.size place self.now subs result }
        ensures byte { result < 2 ^ 8 }
    {
        reached.in_tile(place).bits()
    }

    // The subtiles of a tile, as bits, that are on the screen; of a tile that may stand at its right or lower end those
    // that are reached.
    #[inline(always)]
    fn subtiles_on_screen(&self, reached: &SubBox, place: Tile, is_inner: bool) -> u32
        requires reached { HoldsSampled self.now reached.now }
        requires inner { is_inner ≡ true → IsInner reached.now.size place }
        ensures wanted { (subs : List State) → AreWanted reached.now.size place self.now subs result }
        ensures byte { result < 2 ^ 8 }
    {
        if is_inner {
            255
        } else {
            self.subtiles_reached(reached, place)
        }
    }

    // The subtiles of a tile, as bits, that the box reaches on the screen and whose reference is below the piece. It
    // changes no other: it covers nothing outside its box, and its bound is nowhere above its greatest nearness.
    #[inline(always)]
    fn subtiles_behind(&self, layers: &TileLayers, reached: &SubBox, place: Tile) -> u32
        requires { IsSubBox (box_of self.now) reached.now }
        ensures wanted { AreWanted reached.now.size place self.now layers.now result }
        ensures eight { length layers.now ≡ 8 }
    {
        reached.in_tile(place).bits() & layers.below(self.nearest)
    }

    /// Merges the piece into a tile's subtiles on the screen. Conditions: the column and the row are below the
    /// screen's, what is reached on it holds each sample that the piece covers, the edges are the piece's over the
    /// tile's row, and a tile that is said to be inner stands neither at the screen's right nor at its lower end.
    #[inline(always)]
    pub(crate) fn merge_over(
        &self,
        layers: &mut TileLayers,
        reached: &SubBox,
        over: &TileRow,
        place: Tile,
        is_inner: bool,
    )
        requires reached { HoldsSampled self.now reached.now }
        requires inner { is_inner ≡ true → IsInner reached.now.size place }
        requires over { AreRowOf over.now place.row self.now }
        requires column { place.column < tile_columns_of reached.now.size }
        requires row { place.row < tile_rows_of reached.now.size }
        ensures { layers.new ≡ merged_by reached.now.size place self.now layers.old }
    {
        // an accessor tells what is held of a size
        let _width = reached.size.width();
        let masks = over.masks(u32::from(place.column));
        let wanted = self.subtiles_on_screen(reached, place, is_inner);
        layers.merge(self.coverage(masks, place, wanted).raised(self.least));
    }

    /// The same where the row's edges aren't at hand, and what is reached is what the piece reaches.
    pub(crate) fn merge_into(
        &self,
        edges: EdgesView,
        layers: &mut TileLayers,
        reached: &SubBox,
        place: Tile,
    )
        requires edges { AreEdgesOf edges self.now }
        requires reached { IsSubBox (box_of self.now) reached.now }
        requires column { place.column < tile_columns_of reached.now.size }
        requires row { place.row < tile_rows_of reached.now.size }
        ensures { layers.new ≡ merged_by reached.now.size place self.now layers.old }
    {
        // accessors tell what is held of a size and of a piece
        let (_width, _nearest) = (reached.size.width(), self.nearest());
        if self.subtiles_behind(layers, reached, place) == 0 {
            return;
        }
        let over = self.over_row(edges, u32::from(place.row));
        self.merge_over(layers, reached, &over, place, reached.is_inner(place));
    }
}

impl PieceSetup {
    /// Sets a piece up.
    pub fn of(tri: &ScreenTri) -> PieceSetup
        ensures value { result ≡ tri.now }
        ensures valid { IsPiece tri.now }
    {
        let depths = PieceDepths::of(tri);
        let edges = RowEdges::of(tri);
        PieceSetup { depths, edges }
    }

    /// The subtiles of a screen that the piece may reach.
    pub fn reached_on(&self, size: Size) -> SubBox
        ensures reached { IsSubBox (box_of self.now) result }
        ensures size { result.size ≡ size }
    {
        self.depths.reached_on(size)
    }

    /// Merges the piece into a tile's subtiles on the screen. Conditions: the column and the row are below the screen's,
    /// and what is reached on it is what the piece reaches.
    pub(crate) fn merge_into(&self, layers: &mut TileLayers, reached: &SubBox, place: Tile)
        requires reached { IsSubBox (box_of self.now) reached.now }
        requires column { place.column < tile_columns_of reached.now.size }
        requires row { place.row < tile_rows_of reached.now.size }
        ensures { layers.new ≡ merged_by reached.now.size place self.now layers.old }
    {
        self.depths
            .merge_into(self.edges.view(), layers, reached, place);
    }
}
