//! Things that are made by workers side by side: whoever comes takes the next, and each is back in its seat then.
ghost use Rattle.std.specs.Prelude.{◌≡◌, ℕ, ◌+◌, ◌<◌, length, IfOk, MatchOption};
ghost use Rattle.seats.specs.Seats.{AreAllSeated, AreSeated, Means};
ghost use Rattle.seats.specs.Things.{AreAllMade, IsThing};

use crate::hands::Hand;
use crate::locked::{give_back, take_from};
use crate::seats::{Loan, Seating, Seats};
use cull_base::Memory;
use side_by_side::for_each_beside;
use std::alloc::Global;
use std::marker::Brand;
use std::sync::atomic::{AtomicU64, Ordering};
use std::sync::ledger::Blank;
use std::sync::{Mutex, Wait};
use std::thread::Threads;

/// Makes things by their numbers, each by itself: so threads share them. A thing is a W while it waits, and a T once it
/// is made.
pub trait Makes<W, T> {
    ghost use Rattle.std.specs.Prelude.{ℕ, IfOk};

    /// There is a thing of this number.
    ghost has: { Self → ℕ → Type 0 };

    /// What holds of the thing of a number while it waits, and once it is made. Each has at most one proof.
    ghost waits: { Self → ℕ → W → Type 0 };

    ghost made: { Self → ℕ → T → Type 0 };

    ghost waits_once: { (maker : Self) (number : ℕ) (thing : W) → IsProp (waits maker number thing) };

    ghost made_once: { (maker : Self) (number : ℕ) (thing : T) → IsProp (made maker number thing) };

    /// A thing that waits to be made. Err: out of memory. Condition: there is one of this number.
    fn begin(&self, alloc: Global, number: usize) -> Result<W, Memory>
        requires { has self.now number }
        ensures { IfOk result (waits self.now number) };

    /// What a worker does before the first thing that it makes.
    fn prepare(&self) {}

    /// Makes the thing of a number. Condition: it waits.
    fn make(&self, number: usize, thing: W) -> T
        requires { waits self.now number thing }
        ensures { made self.now number result };
}

/// A thing in its seat.
#[derive(Drop)]
pub enum Thing<W, T> {
    /// No worker has made it yet.
    Waits(W),
    Made(T),
}

// All things in their seats, of which none is made. Err: out of memory. Condition: there are so many.
fn first_things<W: Drop, T: Drop, M: Makes<W, T>>(
    alloc: Global,
    maker: &M,
    count: usize,
) -> Result<Vec<Option<Loan<Thing<W, T>>>>, Memory>
    requires { (k : ℕ) → k < count → M.has maker.now k }
    ensures count { IfOk result (λ v. length v.items ≡ count) }
    ensures slots { IfOk result (λ v. AreAllSeated (IsThing (M.waits maker.now) (M.made maker.now)) v.items) }
{
    let mut slots = Vec::with_capacity(alloc, count).map_err(|_| Memory)?;
    for number in 0..count {
        let thing = maker.begin(alloc, number)?;
        slots.push_reserved(Some(Loan::new(number, Thing::Waits(thing))));
    }
    Ok(slots)
}

// A thing, made now if no worker made it.
fn made<W: Drop, T: Drop, M: Makes<W, T>>(maker: &M, number: usize, thing: Thing<W, T>) -> T
    requires { IsThing (M.waits maker.now) (M.made maker.now) number thing }
    ensures { M.made maker.now number result }
{
    match thing {
        Thing::Waits(thing) => maker.make(number, thing),
        Thing::Made(thing) => thing,
    }
}

// Takes the next thing, makes it and gives it back. None where none is left.
fn make_one<P: Seating<Thing<W, T>>, W: Drop, T: Drop, R: Wait, M: Makes<W, T>>(
    rt: &R,
    seats: &Mutex<Seats<P, Thing<W, T>>>,
    next: &AtomicU64,
    hand: &mut Hand<P>,
    maker: &M,
) -> Option<()>
    requires { Means P.holds (IsThing (M.waits maker.now) (M.made maker.now)) }
{
    let number = next.fetch_add(1, Ordering::SeqCst) as usize;
    let Hand { share } = hand;
    let mut loan = take_from(rt, seats, share, &|_| number)?;
    loan.task = Thing::Made(made(maker, loan.seat, loan.task));
    give_back(rt, seats, share, loan);
    Some(())
}

// Makes things until none is left, of so many.
fn make_some<P: Seating<Thing<W, T>>, W: Drop, T: Drop, R: Wait, M: Makes<W, T>>(
    rt: &R,
    seats: &Mutex<Seats<P, Thing<W, T>>>,
    next: &AtomicU64,
    hand: &mut Hand<P>,
    maker: &M,
    count: usize,
)
    requires { Means P.holds (IsThing (M.waits maker.now) (M.made maker.now)) }
{
    maker.prepare();
    for _ in 0..count {
        if make_one(rt, seats, next, hand, maker).is_none() {
            return;
        }
    }
}

// Makes things of seats, of so many, by a thread for each of the hands and by the caller, which would wait for them
// otherwise.
fn make_beside<
    P: Seating<Thing<W, T>> + Send,
    W: Drop + Send,
    T: Drop + Send,
    R: Threads + Wait + Sync,
    M: Makes<W, T> + Sync,
>(
    rt: &R,
    seats: &Mutex<Seats<P, Thing<W, T>>>,
    hands: &mut [Hand<P>],
    mine: &mut Hand<P>,
    maker: &M,
    count: usize,
)
    requires { Means P.holds (IsThing (M.waits maker.now) (M.made maker.now)) }
{
    let numbers = AtomicU64::new(0);
    let next = &numbers;
    let threads = hands.len();
    for_each_beside(
        rt,
        hands,
        threads,
        &|_worker: usize, hand: &mut Hand<P>|
            requires { Means P.holds (IsThing (M.waits maker.now) (M.made maker.now)) }
        { make_some(rt, seats, next, hand, maker, count) },
        &mut ||
            requires { Means P.holds (IsThing (M.waits maker.now) (M.made maker.now)) }
        { make_some(rt, seats, next, mine, maker, count) },
    );
}

// Makes the things of the seats that the caller picks.
fn make_under<
    P: Seating<Thing<W, T>> + Send,
    W: Drop + Send,
    T: Drop + Send,
    R: Threads + Wait + Sync,
    M: Makes<W, T> + Sync,
>(
    rt: &R,
    alloc: Global,
    blank: Blank,
    slots: Vec<Option<Loan<Thing<W, T>>>>,
    maker: &M,
    threads: u32,
) -> Result<Vec<Option<Loan<Thing<W, T>>>>, Memory>
    requires name { blank.name ≡ P.name }
    requires parts { blank.parts ≡ P.parts }
    requires threads { blank.parts ≡ threads + 1 }
    requires means { Means P.holds (IsThing (M.waits maker.now) (M.made maker.now)) }
    requires slots { AreSeated P.holds P.names slots.items }
    ensures { IfOk result (λ v. AreSeated P.holds P.names v.items) }
{
    let count = slots.len();
    let Ok(opened) = Seats::<P, Thing<W, T>>::open(alloc, blank, slots, threads) else {
        return Err(Memory);
    };
    let (seats, mut hands, mut mine) = opened;
    let lock = Mutex::new(seats);
    make_beside(rt, &lock, hands.as_mut_slice(), &mut mine, maker, count);
    Ok(lock.into_inner().close(hands, mine))
}

// The thing of a seat, made now if no worker made it.
fn made_in<W: Drop, T: Drop, M: Makes<W, T>>(
    maker: &M,
    number: usize,
    slot: Option<Loan<Thing<W, T>>>,
) -> T
    requires { MatchOption slot ⊥ (λ l. IsThing (M.waits maker.now) (M.made maker.now) number l.task) }
    ensures { M.made maker.now number result }
{
    made(maker, number, slot.unwrap().task)
}

// The things of all seats in order, each made.
fn all_made<W: Drop, T: Drop, M: Makes<W, T>>(
    alloc: Global,
    maker: &M,
    slots: Vec<Option<Loan<Thing<W, T>>>>,
) -> Result<Vec<T>, Memory>
    requires { AreAllSeated (IsThing (M.waits maker.now) (M.made maker.now)) slots.items }
    ensures { IfOk result (λ v. AreAllMade (M.made maker.now) (length slots.items) v.items) }
{
    let mut things = Vec::with_capacity(alloc, slots.len()).map_err(|_| Memory)?;
    let mut number = 0usize;
    for slot in slots {
        let thing = made_in(maker, number, slot);
        things.push_reserved(thing);
        number += 1;
    }
    Ok(things)
}

/// So many things in order, each made once, by so many threads and by the caller: whoever comes takes the next that
/// waits. Err: out of memory. Condition: there are so many.
pub fn make_each<W: Drop + Send, T: Drop + Send, R: Threads + Wait + Sync, M: Makes<W, T> + Sync>(
    rt: &R,
    alloc: Global,
    maker: &M,
    count: usize,
    threads: u32,
) -> Result<Vec<T>, Memory>
    requires has { (k : ℕ) → k < count → M.has maker.now k }
    ensures { IfOk result (λ v. AreAllMade (M.made maker.now) count v.items) }
{
    let waiting = first_things(alloc, maker, count)?;
    let blank = Blank::new(u64::from(threads) + 1);
    let done = make_under::<Brand, W, T, R, M>(rt, alloc, blank, waiting, maker, threads)?;
    all_made(alloc, maker, done)
}
