//! A tile with the edges of a piece over it.
ghost use Rattle.std.specs.Prelude.{◌<◌};
ghost use Rattle.edge_lanes.specs.Tiles.{AreWhole, inside_at};

use cull_base::Tile;
use edge_lanes::TileEdges;

/// A tile, the edges of a piece over it, and which of its subtiles lie inside them whole: bit j is set only where each
/// sample of subtile j is inside. Condition: the tile stands on the greatest screen.
#[derive(Drop)]
pub(crate) struct EdgedTile<'a> {
    pub(crate) place: Tile,
    pub(crate) edges: TileEdges<'a>,
    pub(crate) whole: u32,
    ghost column: { place.column < 64 },
    ghost row: { place.row < 256 },
    ghost wholes: { AreWhole (inside_at edges) whole },
}
