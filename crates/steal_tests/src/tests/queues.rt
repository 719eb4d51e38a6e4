//! Batches go through queues to the tasks of two bins.
ghost use Rattle.std.specs.Prelude.{◌≡◌, ◌<◌, ◌+◌, length, IfOk, OnOk};
ghost use Rattle.tile_queues.specs.Owners.{AreTasksOf};
ghost use Rattle.bin_queues.specs.Frames.{over};
ghost use Rattle.bin_queues.specs.QueueParts.{batches_in};
ghost use Rattle.bin_queues.specs.Tasks.{IsSubmitterOf};

use crate::tests::pool::three;
use bin_queues::Batched;
use binning::{BinPart, Cut, batch_size, bin_batch};
use cull_base::Memory;
use std::alloc::Global;
use std::sync::Wait;
use std::sync::atomic::{AtomicU32, Ordering};
use std::test::Fail;
use tile_cells::{TileCells, TileWriter};
use tile_queues::{BinQueues, BinTask, Drained, Gate, Submitter};

// Counts what it is asked.
#[derive(Drop)]
struct CountingGate {
    before: AtomicU32,
    idle: AtomicU32,
}

impl Gate for CountingGate {
    fn before(&self, bin: u32, taken: u32) {
        let _ = (bin, taken);
        self.before.fetch_add(1, Ordering::SeqCst);
    }

    fn idle(&self, bin: u32) {
        let _ = bin;
        self.idle.fetch_add(1, Ordering::SeqCst);
    }
}

// Cells for a list, the queues of its batches with their submitter, and the bins' tasks.
fn open<R: Wait>(
    rt: &R,
    alloc: Global,
    frame: &Batched,
) -> Result<(TileCells, BinQueues, Submitter, Vec<BinTask>), Memory>
    ensures submitter { IfOk result (λ r. IsSubmitterOf r.1 r.2) }
    ensures frame { IfOk result (λ r. r.2.frame ≡ over frame.now r.0) }
    ensures tasks { IfOk result (λ r. AreTasksOf r.1 (over frame.now r.0) r.3.items) }
{
    let (list, cut) = (frame.list, frame.cut);
    let (cells, writers, _readers) = TileCells::make(rt, alloc, list, 0)?;
    let (queues, submitter, tasks) = BinQueues::make(rt, alloc, list, cut, frame.size, writers)?;
    Ok((cells, queues, submitter, tasks))
}

// Whether parts of two bins have these members.
fn have_members(parts: &[BinPart], first: &[u32], second: &[u32]) -> bool {
    parts.len() == 2 && parts[0].indices() == first && parts[1].indices() == second
}

// Bins and submits the next batch. Whether its parts have these members.
fn submit_parts<R: Wait>(
    rt: &R,
    queues: &BinQueues,
    submitter: &mut Submitter,
    frame: &Batched,
    alloc: Global,
    first: &[u32],
    second: &[u32],
) -> Result<bool, Memory>
    requires queues { IsSubmitterOf queues.now submitter.old }
    requires frame { submitter.old.frame ≡ over frame.now submitter.old.frame.cells }
    requires short { submitter.old.batches < batches_in submitter.old.frame }
    ensures { OnOk result (submitter.new ≡ record submitter.old { batches = submitter.old.batches + 1 }) }
{
    let (list, size) = (frame.list, frame.size);
    let batch = submitter.batches();
    let len = list.len();
    let from = len.min(batch.saturating_mul(size));
    let to = len.min((batch + 1).saturating_mul(size));
    let parts = bin_batch(alloc, list, batch, from, to, frame.cut)?;
    let same = have_members(parts.as_slice(), first, second);
    queues.submit(rt, submitter, parts);
    Ok(same)
}

// The same, if a batch is left.
fn submit_next<R: Wait>(
    rt: &R,
    queues: &BinQueues,
    submitter: &mut Submitter,
    frame: &Batched,
    alloc: Global,
    first: &[u32],
    second: &[u32],
) -> Result<bool, Memory>
    requires of { IsSubmitterOf queues.now submitter.old }
    requires frame { submitter.old.frame ≡ over frame.now submitter.old.frame.cells }
    ensures of { OnOk result (IsSubmitterOf queues.now submitter.new) }
    ensures frame { OnOk result (submitter.new.frame ≡ submitter.old.frame) }
{
    if submitter.batches() >= frame.batches() {
        return Ok(false);
    }
    submit_parts(rt, queues, submitter, frame, alloc, first, second)
}

// Drains the queue of a task, and gives how that ended.
fn drain_at<R: Wait, G: Gate>(
    rt: &R,
    queues: &BinQueues,
    tasks: &mut Vec<BinTask>,
    place: usize,
    cells: &TileCells,
    frame: &Batched,
    gate: &G,
) -> Drained
    requires place { place < length tasks.old.items }
    requires tasks { AreTasksOf queues.now (over frame.now cells.now) tasks.old.items }
    ensures { AreTasksOf queues.now (over frame.now cells.now) tasks.new.items }
{
    queues.drain(rt, &mut tasks[place], cells, frame.list, gate)
}

// The same, if there is such a task.
fn drain_one<R: Wait, G: Gate>(
    rt: &R,
    queues: &BinQueues,
    tasks: &mut Vec<BinTask>,
    place: usize,
    cells: &TileCells,
    frame: &Batched,
    gate: &G,
) -> Option<Drained>
    requires { AreTasksOf queues.now (over frame.now cells.now) tasks.old.items }
    ensures { AreTasksOf queues.now (over frame.now cells.now) tasks.new.items }
{
    if place >= tasks.len() {
        return None;
    }
    let drained = drain_at(rt, queues, tasks, place, cells, frame, gate);
    Some(drained)
}

// The writers that the tasks hand back.
fn close(
    queues: BinQueues,
    submitter: Submitter,
    tasks: Vec<BinTask>,
    _cells: &TileCells,
    _frame: &Batched,
) -> Vec<TileWriter>
    requires of { IsSubmitterOf queues submitter }
    requires frame { submitter.frame ≡ over _frame.now _cells.now }
    requires tasks { AreTasksOf queues (over _frame.now _cells.now) tasks.items }
{
    queues.close(submitter, tasks)
}

// Submits both batches of the three pieces. Whether their parts are as they should be.
fn submit_both<R: Wait>(
    rt: &R,
    queues: &BinQueues,
    submitter: &mut Submitter,
    frame: &Batched,
    alloc: Global,
) -> Result<bool, Memory>
    requires of { IsSubmitterOf queues.now submitter.old }
    requires frame { submitter.old.frame ≡ over frame.now submitter.old.frame.cells }
    ensures of { OnOk result (IsSubmitterOf queues.now submitter.new) }
    ensures frame { OnOk result (submitter.new.frame ≡ submitter.old.frame) }
{
    let both = [0, 1];
    let first = submit_next(rt, queues, submitter, frame, alloc, &both, &[1])?;
    let second = submit_next(rt, queues, submitter, frame, alloc, &[], &[2])?;
    Ok(first && second)
}

// Drains the queues of both tasks.
fn drain_both<R: Wait, G: Gate>(
    rt: &R,
    queues: &BinQueues,
    tasks: &mut Vec<BinTask>,
    cells: &TileCells,
    frame: &Batched,
    gate: &G,
) -> [Option<Drained>; 2]
    requires { AreTasksOf queues.now (over frame.now cells.now) tasks.old.items }
    ensures { AreTasksOf queues.now (over frame.now cells.now) tasks.new.items }
{
    let left = drain_one(rt, queues, tasks, 0, cells, frame, gate);
    let right = drain_one(rt, queues, tasks, 1, cells, frame, gate);
    [left, right]
}

#[test]
fn both_bins_are_whole_after_both_batches(rt: HostRuntime) -> Result<(), Fail> {
    let alloc = rt.alloc();
    let list = three(&rt)?;
    let cut = Cut::new(2, 1).ok_or("a cut")?;
    let size = batch_size(list.len(), 2);
    let frame = Batched {
        list: &list,
        cut: &cut,
        size,
    };
    let gate = CountingGate {
        before: AtomicU32::new(0),
        idle: AtomicU32::new(0),
    };
    let (cells, queues, mut submitter, mut tasks) = open(&rt, alloc, &frame)?;
    let drained = drain_one(&rt, &queues, &mut tasks, 0, &cells, &frame, &gate);
    assert!(rt; drained == Some(Drained::Empty));
    assert_eq!(rt; gate.idle.load(Ordering::SeqCst), 1);
    assert_eq!(rt; gate.before.load(Ordering::SeqCst), 0);
    assert!(rt; submit_both(&rt, &queues, &mut submitter, &frame, alloc)?);
    assert_eq!(rt; submitter.batches(), 2);
    let drained = drain_both(&rt, &queues, &mut tasks, &cells, &frame, &gate);
    assert!(rt; drained == [Some(Drained::Whole), Some(Drained::Whole)]);
    assert_eq!(rt; gate.idle.load(Ordering::SeqCst), 1);
    assert_eq!(rt; gate.before.load(Ordering::SeqCst), 4);
    let writers = close(queues, submitter, tasks, &cells, &frame);
    assert_eq!(rt; writers.len(), 2);
    assert_eq!(rt; writers[0].count(), 2);
    assert_eq!(rt; writers[1].count(), 2);
    Ok(())
}
