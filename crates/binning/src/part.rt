//! The part of a batch for one bin.
ghost use Rattle.std.specs.Prelude.{◌≡◌, [], OnOk};

use cull_base::Memory;
use smallvec::SmallVec;
use std::alloc::Global;
use std::marker::Model;

/// So many indices stand in a part itself: most parts of small batches take no memory of their own, which another thread
/// would have to give back.
const ROOM: usize = 16;

/// The room that a part takes when it is full: those of small batches grow once.
const MORE: usize = 48;

/// Of a batch's pieces those that meet a bin, by their indices in the frame list, rising.
#[derive(Drop)]
pub struct BinPart {
    bin: u32,
    batch: u32,
    indices: SmallVec<u32, ROOM, Global>,
}

impl Model for BinPart {
    ghost use Rattle.binning.specs.Parts.{PartOf};

    ghost Value = { PartOf };

    ghost view = { λ p. record { bin = p.bin; batch = p.batch; indices = p.indices.items } };
}

impl BinPart {
    ghost use Rattle.binning.specs.Parts.{part};
    ghost use Rattle.binning.specs.Pushed.{with_index};

    pub(crate) fn empty(alloc: Global, bin: u32, batch: u32) -> BinPart
        ensures { result ≡ part bin batch [] }
    {
        BinPart {
            bin,
            batch,
            indices: SmallVec::new(alloc),
        }
    }

    /// Appends an index. Err if out of memory.
    #[inline(always)]
    pub(crate) fn push(&mut self, index: u32) -> Result<(), Memory>
        ensures { OnOk result (self.new ≡ with_index index self.old) }
    {
        if self.indices.len() == self.indices.capacity() {
            self.indices.reserve(MORE).map_err(|_| Memory)?;
        }
        self.indices.push_reserved(index);
        Ok(())
    }

    pub fn bin(&self) -> u32
        ensures { result ≡ self.now.bin }
    {
        self.bin
    }

    pub fn batch(&self) -> u32
        ensures { result ≡ self.now.batch }
    {
        self.batch
    }

    /// The indices in the frame list, rising.
    pub fn indices(&self) -> &[u32]
        ensures { result.now ≡ self.now.indices }
    {
        self.indices.as_slice()
    }
}
