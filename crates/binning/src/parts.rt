//! The parts of a batch, and what all parts of a bin come to.
ghost use Rattle.std.specs.Prelude.{◌≡◌, ℕ, ◌+◌, ◌*◌, ◌<◌, ◌≤◌, min, length, map, [], IfOk};
ghost use Rattle.std.specs.List.{range_with_len};
ghost use Rattle.cull_base.specs.Screen.{IsSize, tile_count_of};
ghost use Rattle.cull_base.specs.Tiles.{PieceList};
ghost use Rattle.binning.specs.Cut.{CutOf, IsCut};
ghost use Rattle.binning.specs.Parts.{part, parts_in, ArePartsOfBatch, PartsMakeTileList};

use crate::cut::Cut;
use crate::fill::fill;
use crate::grid::Grid;
use crate::part::BinPart;
use cull_base::{FrameList, Memory};
use std::alloc::Global;

// One empty part for each bin, in order.
fn empty_parts(alloc: Global, batch: u32, bins: u32) -> Result<Vec<BinPart>, Memory>
    ensures { IfOk result (λ v. v.items ≡ map (λ bin. part bin batch []) (range_with_len 0 bins)) }
{
    let parts = (0..bins).map(|bin| BinPart::empty(alloc, bin, batch));
    match parts.collect(alloc) {
        Ok(parts) => Ok(parts),
        Err(_) => Err(Memory),
    }
}

/// One part for each bin, in order, empty ones too: the indices from one to before another whose piece's box meets the
/// bin's rectangle, rising. Condition: from is at most to, and to at most the length. Err if out of memory.
pub fn bin_batch(
    alloc: Global,
    list: &FrameList,
    batch: u32,
    from: u32,
    to: u32,
    cut: &Cut,
) -> Result<Vec<BinPart>, Memory>
    requires order { from ≤ to }
    requires within { to ≤ length list.now.list.members }
    ensures parts { IfOk result (λ v. v.items ≡ parts_in list.now.list cut.now batch from to) }
    ensures defined { IfOk result (λ v. ArePartsOfBatch list.now.list cut.now batch from to v.items) }
{
    let mut parts = empty_parts(alloc, batch, cut.bins())?;
    fill(
        parts.as_mut_slice(),
        &Grid::of(list.size(), cut),
        list,
        from,
        to,
    )?;
    Ok(parts)
}

/// The law of parts: for every cut and size of batches, the members of all parts of a bin, in order and filtered to a
/// tile of the bin, are the tile's list.
pub fn parts_make_tile_lists()
    ensures { (list : PieceList) (cut : CutOf) (size tile : ℕ) → IsSize list.size.width list.size.height
        → IsCut cut.columns cut.rows → 1 ≤ size → tile < tile_count_of list.size
        → PartsMakeTileList list cut size tile }
{}
