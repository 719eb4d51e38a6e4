//! The triangles of a frame that hide what is behind them.
ghost use Rattle.std.specs.Prelude.{◌≤◌, length};
ghost use Rattle.std.specs.List.{All};
ghost use Rattle.cull_base.specs.Batches.{AreBatchesOf};
ghost use Rattle.snap_setup.specs.Pieces.{HasClips};

use cull_base::{Batch, ClipVertex, Grade, Near, Size, Tri};

/// A frame's occluder triangles over its clip vertices, the near distance, the screen, the batches of triangles, which
/// say which side of them is drawn, and how fine nearness is. Conditions: there are at most 65,536 triangles, each
/// index is below the number of clips, and the batches' counts sum to the number of triangles.
#[derive(Drop)]
pub struct Occluders<'a> {
    pub clips: &'a [ClipVertex],
    pub tris: &'a [Tri],
    pub near: Near,
    pub size: Size,
    pub batches: &'a [Batch],
    pub grade: Grade,
    ghost triangles: { length tris.now ≤ 65536 },
    ghost indices: { All (HasClips (length clips.now)) tris.now },
    ghost counted: { AreBatchesOf batches.now (length tris.now) },
}
