//! The drawing of bins that wait: each worker takes a bin, draws some of it and gives it back.
ghost use Rattle.std.specs.Prelude.{◌≡◌, ◌+◌, [], IfOk, OnOk};
ghost use Rattle.seats.specs.Seats.{AreSeated, Means};
ghost use Rattle.bin_queues.specs.Frames.{over};
ghost use Rattle.bin_queues.specs.QueueParts.{batches_in};
ghost use Rattle.bin_queues.specs.Tasks.{IsSubmitterOf};
ghost use Rattle.plain_turns.specs.Waiting.{AreWaiting, IsPlainTask, IsWaitingTask};

use crate::plain_tasks::{WaitingTask, begun, waiting_of};
use crate::waiting::next_bin;
use bin_queues::Sender;
use bin_tasks::{Drawing, Task};
use bin_tiles::Gate;
use cull_base::Memory;
use masked_update::Canvas;
use seats::{Hand, Loan, Seating, Seats, give_back, take_from};
use side_by_side::for_each_beside;
use std::alloc::Global;
use std::marker::Brand;
use std::sync::ledger::Blank;
use std::sync::{Mutex, Wait};
use std::thread::{Threads, yield_now};

/// A worker draws at least so many pieces of a bin, where they are submitted, before it puts the bin back.
const TURN: u32 = 128;

/// A worker that finds no new batch so often in a row ends: it doesn't wait for the submitter.
const LOOKS: u32 = 0x1_0000;

// Draws some of a task's bin. Whether it drew anything.
fn draw_some<R: Wait, G: Gate>(drawing: &Drawing<R, (), G>, task: &mut Task<Canvas>) -> bool
    requires { IsPlainTask drawing.now.queues.now (over drawing.now.frame []) task.old }
    ensures task { IsPlainTask drawing.now.queues.now (over drawing.now.frame []) task.new }
    ensures bin { task.new.intake.of.bin ≡ task.old.intake.of.bin }
{
    let before = task.intake.batches();
    drawing.drain_some(task, TURN);
    before < task.intake.batches()
}

// Draws some of a bin that was taken. Whether it drew anything; None where memory gave out for the bin's tiles. The bin
// comes back on both ways.
fn draw_loan<R: Wait, G: Gate>(
    drawing: &Drawing<R, (), G>,
    alloc: Global,
    loan: Loan<WaitingTask>,
) -> (Loan<WaitingTask>, Option<bool>)
    requires { IsWaitingTask drawing.now.queues.now (over drawing.now.frame []) loan.seat loan.task }
    ensures seat { result.0.seat ≡ loan.seat }
    ensures seal { result.0.seal ≡ loan.seal }
    ensures task { IsWaitingTask drawing.now.queues.now (over drawing.now.frame []) loan.seat result.0.task }
{
    let Loan { seat, task, seal } = loan;
    match begun(drawing, alloc, task) {
        Ok(mut task) => {
            let drew = draw_some(drawing, &mut task);
            let task = waiting_of(task);
            (Loan { seat, task, seal }, Some(drew))
        }
        Err(task) => (Loan { seat, task, seal }, None),
    }
}

// Takes a bin, draws some of it and gives it back. Whether something was drawn; None where no bin waits, or memory gave
// out for the bin's tiles.
fn take_turn<P: Seating<WaitingTask>, R: Wait, G: Gate>(
    drawing: &Drawing<R, (), G>,
    alloc: Global,
    seats: &Mutex<Seats<P, WaitingTask>>,
    hand: &mut Hand<P>,
) -> Option<bool>
    requires { Means P.holds (IsWaitingTask drawing.now.queues.now (over drawing.now.frame [])) }
{
    let rt = drawing.rt;
    let batches = drawing.frame.batches();
    let Hand { share } = hand;
    let loan = take_from(rt, seats, share, &|slots| next_bin(slots, batches))?;
    let (loan, drew) = draw_loan(drawing, alloc, loan);
    give_back(rt, seats, share, loan);
    drew
}

// Draws bins turn by turn, until none waits or nothing new comes.
fn take_turns<P: Seating<WaitingTask>, R: Wait, G: Gate>(
    drawing: &Drawing<R, (), G>,
    alloc: Global,
    seats: &Mutex<Seats<P, WaitingTask>>,
    hand: &mut Hand<P>,
)
    requires { Means P.holds (IsWaitingTask drawing.now.queues.now (over drawing.now.frame [])) }
{
    let mut looks = 0u32;
    for _ in drawing.rt.forever() {
        match take_turn(drawing, alloc, seats, hand) {
            None => return,
            Some(true) => looks = 0,
            Some(false) if looks < LOOKS => {
                looks += 1;
                yield_now();
            }
            Some(false) => return,
        }
    }
}

// As `submit_and_take`, of the seats that the caller picks.
fn submit_and_take_under<P: Seating<WaitingTask> + Send, R: Threads + Wait + Sync, G: Gate>(
    drawing: &Drawing<R, (), G>,
    alloc: Global,
    sender: &mut Sender,
    blank: Blank,
    slots: Vec<Option<Loan<WaitingTask>>>,
    workers: u32,
) -> Result<Vec<Option<Loan<WaitingTask>>>, Memory>
    requires name { blank.name ≡ P.name }
    requires parts { blank.parts ≡ P.parts }
    requires workers { blank.parts ≡ workers + 1 }
    requires means { Means P.holds (IsWaitingTask drawing.now.queues.now (over drawing.now.frame [])) }
    requires sender { IsSubmitterOf drawing.now.queues.now sender.old }
    requires frame { sender.old.frame ≡ over drawing.now.frame [] }
    requires none { sender.old.batches ≡ 0 }
    requires slots { AreSeated P.holds P.names slots.items }
    ensures submitted { OnOk result
        (sender.new ≡ record sender.old { batches = batches_in sender.old.frame }) }
    ensures slots { IfOk result (λ v. AreSeated P.holds P.names v.items) }
{
    let ahead = drawing.batches_ahead();
    let left = drawing.frame.batches() - ahead;
    drawing.submit(alloc, sender, ahead)?;
    let (seats, mut hands, own) = Seats::<P, WaitingTask>::open(
        alloc, blank, slots, workers,
    ).map_err(|_| Memory)?;
    let lock = Mutex::new(seats);
    let seats = &lock;
    for_each_beside(
        drawing.rt,
        hands.as_mut_slice(),
        workers as usize,
        &|_worker: usize, hand: &mut Hand<P>|
            requires { Means P.holds (IsWaitingTask drawing.now.queues.now (over drawing.now.frame [])) }
        { take_turns(drawing, alloc, seats, hand) },
        &mut || -> Result<(), Memory>
            requires queues { IsSubmitterOf drawing.now.queues.now sender.now }
            requires frame { sender.now.frame ≡ over drawing.now.frame sender.now.frame.cells }
            requires left { sender.now.batches + left ≡ batches_in sender.now.frame }
            ensures { OnOk result
                (sender.exit.now ≡ record sender.entry.now { batches = batches_in sender.entry.now.frame }) }
        { drawing.submit(alloc, sender, left) },
    )?;
    Ok(lock.into_inner().close(hands, own))
}

/// Submits all batches, a first part of them before the workers begin, while so many workers draw the bins that wait,
/// whoever comes to whichever. Gives all bins back, each as far as it was drawn. Err where memory gave out. Conditions:
/// the sender and the tasks are of these queues and of this frame, and nothing is submitted yet.
pub(crate) fn submit_and_take<R: Threads + Wait + Sync, G: Gate>(
    drawing: &Drawing<R, (), G>,
    alloc: Global,
    sender: &mut Sender,
    slots: Vec<Option<Loan<WaitingTask>>>,
    workers: u32,
) -> Result<Vec<Option<Loan<WaitingTask>>>, Memory>
    requires sender { IsSubmitterOf drawing.now.queues.now sender.old }
    requires frame { sender.old.frame ≡ over drawing.now.frame [] }
    requires none { sender.old.batches ≡ 0 }
    requires slots { AreWaiting drawing.now.queues.now (over drawing.now.frame []) slots.items }
    ensures submitted { OnOk result
        (sender.new ≡ record sender.old { batches = batches_in sender.old.frame }) }
    ensures slots { IfOk result (λ v. AreWaiting drawing.now.queues.now (over drawing.now.frame []) v.items) }
{
    let blank = Blank::new(u64::from(workers) + 1);
    submit_and_take_under::<Brand, R, G>(drawing, alloc, sender, blank, slots, workers)
}
