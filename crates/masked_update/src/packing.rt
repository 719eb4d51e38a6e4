//! A subtile packed into two numbers: its depths, of 24 bits each, and its mask.
ghost use Rattle.std.specs.Prelude.{◌≡◌, ◌≤◌, IsTrue, ◌↔◌, MatchOption, Some};
ghost use Rattle.cull_base.specs.declared.nearness.TheConstants.{HELD_TOP};
ghost use Rattle.cull_base.specs.State.{State};
ghost use Rattle.masked_update.specs.Packing.{IsSubTile, NonePacks, packed};
ghost use Rattle.masked_update.specs.SubTile.{Layers};

use crate::sub_tile::{ALL_SAMPLES, SubTile};
use cull_base::HELD_TOP;

/// The bits of a depth.
const DEPTH_BITS: u32 = 24;

/// The greatest number of so many bits.
const DEPTH_MASK: u64 = 0xFF_FFFF;

// Whether these layers are those of a subtile: an empty mask has no working depth, another one has a working depth
// above the reference and within the top, and no mask is full.
fn are_layers(reference: u64, working: u64, mask: u32) -> bool
    requires { reference ≤ HELD_TOP }
    ensures { IsTrue result ↔ Layers reference working mask }
{
    if mask == 0 {
        working == 0
    } else {
        reference < working && working <= u64::from(HELD_TOP) && mask != ALL_SAMPLES
    }
}

impl SubTile {
    /// The layers and the mask. The layers have the reference depth in bits 0 to 23, the working depth in bits 24 to 47
    /// and 0 above; sample (column c, row r) of the mask is bit 8r + c.
    pub fn pack(&self) -> (u64, u32)
        ensures value { result ≡ packed self.now }
        ensures possible { IsSubTile self.now }
    {
        let layers = u64::from(self.reference()) | u64::from(self.working()) << DEPTH_BITS;
        (layers, self.mask())
    }

    /// The subtile that packs to these layers and this mask. None exactly where none does: where the layers have a bit
    /// above bit 47, where the mask is full, where it is empty and there is a working depth, and where it isn't empty
    /// and the working depth isn't above the reference.
    pub fn unpack(layers: u64, mask: u32) -> Option<SubTile>
        ensures value { MatchOption result (NonePacks layers mask)
            (λ s. IsSubTile s × (packed s ≡ (layers, mask))) }
        ensures back { (s : State) → IsSubTile s → packed s ≡ (layers, mask) → result ≡ Some s }
    {
        let reference = layers & DEPTH_MASK;
        let working = layers >> DEPTH_BITS;
        if are_layers(reference, working, mask) {
            Some(SubTile::of_layers(reference as u32, working as u32, mask))
        } else {
            None
        }
    }
}
