//! A list that is drawn in batches.
ghost use Rattle.std.specs.Prelude.{◌≡◌, ◌≤◌, length};
ghost use Rattle.binning.specs.Parts.{batch_count_of};

use binning::{Cut, batch_count};
use cull_base::FrameList;

/// A list that is drawn into the bins of a cut screen, in batches of a size. Conditions: a batch has at least one
/// piece, and there are at most 2048 batches.
#[derive(Clone, Copy)]
pub struct Batched<'a> {
    pub list: &'a FrameList,
    pub cut: &'a Cut,
    pub size: u32,
    pub ghost some: { 1 ≤ size },
    pub ghost few: { batch_count_of (length list.now.list.members) size ≤ 2048 },
}

impl<'a> Batched<'a> {
    /// How many batches there are.
    pub fn batches(&self) -> u32
        ensures value { result ≡ batch_count_of (length self.now.list.now.list.members) self.now.size }
        ensures few { result ≤ 2048 }
    {
        batch_count(self.list.len(), self.size)
    }
}
