//! Batches: read as a table, or in version 1 the one that the header tells. The first fault is kept until the end of
//! the input is known, since that of the length comes before it.
ghost use Rattle.std.specs.Prelude.{◌≡◌, ◌+◌, ◌*◌, ◌^◌, ◌<◌, ◌≤◌, nat_lt, None, Some, [], ◌∷◌, true};
ghost use Rattle.std.specs.Prelude.{IfOk, IfErr, IfSome, IfNone, OnOk};
ghost use Rattle.std.specs.Option.{option_or};
ghost use Rattle.scene_reader.specs.Layout.{raw_batch, winding_code};
ghost use Rattle.scene_reader.specs.Header.{AreCounts};
ghost use Rattle.scene_reader.specs.Fault.{fault_if, is_bad_batch, raw_batch_of};
ghost use Rattle.scene_reader.specs.Reading.{TakesBatch, TakesBatchTable, TakesBatches, Fetches, IsWithin};

use crate::error::SceneError;
use crate::header::Header;
use crate::intake::fetch;
use crate::numbers::word_at;
use cull_base::{Batch, Source, Winding};
use std::alloc::{AllocError, Global};

/// Bytes of a batch.
pub const BATCH: u32 = 5;

/// The winding that a code stands for. None where there isn't one.
pub fn winding_of(code: u8) -> Option<Winding>
    ensures made { IfSome result (λ w. winding_code w ≡ code) }
    ensures refused { IfNone result (2 < code) }
{
    match code {
        0 => Some(Winding::Both),
        1 => Some(Winding::DropClockwise),
        2 => Some(Winding::DropCounter),
        _ => None,
    }
}

/// The batches up to the first fault, how many triangles they have, and that fault.
#[derive(Drop)]
pub struct Batches {
    pub items: Vec<Batch>,
    pub counted: u64,
    pub fault: Option<SceneError>,
}

/// The batch number i, behind batches of so many triangles and beside so many in all, or its fault.
fn batch_at(entry: &[u8; 5], i: u32, before: u64, tris: u32) -> Result<Batch, SceneError>
    requires few { tris ≤ 65536 }
    requires before { before ≤ tris }
    ensures value { IfOk result (λ b. raw_batch b ≡ raw_batch_of entry.now) }
    ensures within { IfOk result (λ b. before + b.count ≤ tris) }
    ensures named { IfErr result (λ e. e ≡ SceneError.BadBatch i) }
    ensures refused { IfErr result (λ e. is_bad_batch tris before (raw_batch_of entry.now) ≡ true) }
{
    let count = word_at(entry, 0);
    let Some(winding) = winding_of(entry[4]) else {
        return Err(SceneError::BadBatch(i));
    };
    if u64::from(tris) < before + u64::from(count) {
        return Err(SceneError::BadBatch(i));
    }
    Ok(Batch { count, winding })
}

impl Batches {
    /// Keeps the batch number i, or its fault where there was none before.
    fn keep(&mut self, entry: &[u8; 5], i: u32, tris: u32) -> Result<(), AllocError>
        requires few { tris ≤ 65536 }
        requires within { self.old.counted ≤ tris }
        ensures { OnOk result (TakesBatch tris i (raw_batch_of entry.now) self.old self.new) }
    {
        if self.fault.is_none() {
            match batch_at(entry, i, self.counted, tris) {
                Ok(batch) => {
                    self.counted += u64::from(batch.count);
                    self.items.push(batch)?;
                }
                Err(fault) => self.fault = Some(fault),
            }
        }
        Ok(())
    }

    /// The first fault of so many batches beside so many triangles: that of a batch, or that some are in none.
    #[tactic(auto, using(crate::proofs::ObjectTable::option_or_none))]
    fn whole_fault(&self, count: u32, tris: u32) -> Option<SceneError>
        ensures { result
            ≡ option_or self.now.fault (fault_if (nat_lt self.now.counted tris) (SceneError.BadBatch count)) }
    {
        if self.counted < u64::from(tris) {
            return self.fault.or(Some(SceneError::BadBatch(count)));
        }
        self.fault
    }
}

// A table of batches, beside so many triangles, with its first fault but that some triangles are in none.
fn read_batch_table<S: Source>(
    alloc: Global,
    source: &mut S,
    count: u32,
    tris: u32,
    need: u32,
    taken: u32,
    part: Option<u32>,
) -> Result<Batches, SceneError>
    requires room { taken + 5 * count < 2 ^ 32 }
    requires within { IsWithin part taken }
    requires few { tris ≤ 65536 }
    ensures taken { IfOk result (λ b. TakesBatchTable count tris (S.says source.old) (S.says source.new) b) }
    ensures fetches { Fetches part (5 * count) need taken (S.says source.old) (S.says source.new) result }
{
    let mut batches = Batches {
        items: Vec::with_capacity(alloc, count as usize)?,
        counted: 0,
        fault: None,
    };
    let mut entry = [0; 5];
    for i in 0..count {
        fetch(source, &mut entry, need, taken + BATCH * i, part)?;
        batches.keep(&entry, i, tris)?;
    }
    Ok(batches)
}

// The one batch of version 1.
fn one_batch(alloc: Global, count: u32, winding: Winding) -> Result<Vec<Batch>, AllocError>
    ensures { IfOk result (λ v. v.items ≡ record { count = count; winding = winding } ∷ []) }
{
    let mut batches = Vec::new(alloc);
    batches.push(Batch { count, winding })?;
    Ok(batches)
}

/// The batches of a header's scene, with their first fault. In version 1 nothing is read.
pub fn read_batches<S: Source>(
    alloc: Global,
    source: &mut S,
    header: &Header,
    need: u32,
    taken: u32,
    part: Option<u32>,
) -> Result<Batches, SceneError>
    requires room { taken + 5 * header.now.counts.batches < 2 ^ 32 }
    requires within { IsWithin part taken }
    requires counts { AreCounts header.now.counts }
    requires none { header.now.version ≡ 1 → header.now.counts.batches ≡ 0 }
    requires known { (1 ≤ header.now.version) × (header.now.version ≤ 2) }
    ensures taken { IfOk result (λ b. TakesBatches header.now (S.says source.old) (S.says source.new) b) }
    ensures fetches { Fetches part (5 * header.now.counts.batches) need taken
        (S.says source.old) (S.says source.new) result }
{
    let (count, tris) = (header.counts.batches, header.counts.occluders);
    if header.version == 1 {
        return Ok(Batches {
            items: one_batch(alloc, tris, header.flags.winding)?,
            counted: u64::from(tris),
            fault: None,
        });
    }
    let mut batches = read_batch_table(alloc, source, count, tris, need, taken, part)?;
    batches.fault = batches.whole_fault(count, tris);
    Ok(batches)
}
