//! Tallies that wait in seats, and that several workers count up in turn.
ghost use Rattle.std.specs.Prelude.{◌≡◌, ◌+◌, ◌<◌, IfOk};
ghost use Rattle.seats.specs.Seats.{AreAllSeated, AreSeated, Means};

use seats::{Hand, Loan, Seating, Seats, give_back, take_from};
use std::alloc::{AllocError, Global};
use std::marker::Brand;
use std::sync::atomic::{AtomicU64, Ordering};
use std::sync::ledger::Blank;
use std::sync::{Mutex, Wait};
use std::thread::{Threads, for_each_mut};

/// How often the task of a seat was taken.
#[derive(Drop)]
pub(crate) struct Tally {
    pub(crate) seat: usize,
    pub(crate) turns: u64,
}

const SEATS: usize = 24;

const TURNS: usize = 200;

fn tallies(alloc: Global) -> Result<Vec<Option<Loan<Tally>>>, AllocError>
    ensures { IfOk result (λ v. AreAllSeated (λ seat t. t.seat ≡ seat) v.items) }
{
    let mut slots = Vec::with_capacity(alloc, SEATS)?;
    for seat in 0..SEATS {
        slots.push_reserved(Some(Loan::new(seat, Tally { seat, turns: 0 })));
    }
    Ok(slots)
}

// Counts the tally of a seat, where it is there. Whether it was.
fn count_one<P: Seating<Tally>, R: Wait>(
    rt: &R,
    seats: &Mutex<Seats<P, Tally>>,
    hand: &mut Hand<P>,
    seat: usize,
) -> bool
    requires { Means P.holds (λ seat t. t.seat ≡ seat) }
{
    let Hand { share } = hand;
    match take_from(rt, seats, share, &|_| seat) {
        Some(mut loan) => {
            loan.task.turns = loan.task.turns.saturating_add(1);
            give_back(rt, seats, share, loan);
            true
        }
        None => false,
    }
}

// A worker's turns, at one seat after another.
fn count_some<P: Seating<Tally>, R: Wait>(
    rt: &R,
    seats: &Mutex<Seats<P, Tally>>,
    hand: &mut Hand<P>,
    counted: &AtomicU64,
)
    requires { Means P.holds (λ seat t. t.seat ≡ seat) }
{
    for turn in 0..TURNS {
        if count_one(rt, seats, hand, turn % SEATS) {
            counted.fetch_add(1, Ordering::SeqCst);
        }
    }
}

fn count_under<P: Seating<Tally> + Send, R: Threads + Wait + Sync>(
    rt: &R,
    alloc: Global,
    blank: Blank,
    slots: Vec<Option<Loan<Tally>>>,
    workers: u32,
    counted: &AtomicU64,
) -> Result<Vec<Option<Loan<Tally>>>, AllocError>
    requires name { blank.name ≡ P.name }
    requires parts { blank.parts ≡ P.parts }
    requires workers { blank.parts ≡ workers + 1 }
    requires some { 0 < workers }
    requires means { Means P.holds (λ seat t. t.seat ≡ seat) }
    requires slots { AreSeated P.holds P.names slots.items }
    ensures { IfOk result (λ v. AreSeated P.holds P.names v.items) }
{
    let (seats, mut hands, own) = Seats::<P, Tally>::open(alloc, blank, slots, workers)?;
    let seats = Mutex::new(seats);
    for_each_mut(
        rt,
        hands.as_mut_slice(),
        workers as usize,
        &|_worker: usize, hand: &mut Hand<P>|
            requires { Means P.holds (λ seat t. t.seat ≡ seat) }
        { count_some(rt, &seats, hand, counted) },
    );
    Ok(seats.into_inner().close(hands, own))
}

// The tallies of all seats, counted by so many workers.
fn counted_by<R: Threads + Wait + Sync>(
    rt: &R,
    alloc: Global,
    workers: u32,
    counted: &AtomicU64,
) -> Result<Vec<Option<Loan<Tally>>>, AllocError>
    requires { 0 < workers }
    ensures { IfOk result (λ v. AreAllSeated (λ seat t. t.seat ≡ seat) v.items) }
{
    let slots = tallies(alloc)?;
    let blank = Blank::new(u64::from(workers) + 1);
    count_under::<Brand, R>(rt, alloc, blank, slots, workers, counted)
}

#[test]
fn each_seat_has_its_tally_and_no_turn_is_lost(rt: HostRuntime) -> Result<(), AllocError> {
    let counted = AtomicU64::new(0);
    let slots = counted_by(&rt, rt.alloc(), 4, &counted)?;
    assert_eq!(&rt; slots.len(), SEATS);
    let mut turns = 0u64;
    for seat in 0..SEATS {
        let Some(loan) = &slots[seat] else {
            unreachable!()
        };
        assert_eq!(&rt; loan.seat, seat);
        assert_eq!(&rt; loan.task.seat, seat);
        assert!(&rt; 0 < loan.task.turns);
        turns = turns.saturating_add(loan.task.turns);
    }
    assert_eq!(&rt; turns, counted.load(Ordering::SeqCst));
    Ok(())
}
