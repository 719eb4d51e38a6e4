//! What each worker has, and what it does.
ghost use Rattle.std.specs.Prelude.{◌≡◌, ◌+◌, ◌*◌, ◌<◌, ◌≤◌, ℕ, All, length, vec_len, vec_capacity};
ghost use Rattle.crossbeam_deque.specs.Handles.{stealer_deque};
ghost use Rattle.steal_pool.specs.Pools.{call_of, tasks_weigh, IsWholeIn};
ghost use Rattle.steal_pool.specs.Seats.{passes_weigh, ArePassesOf, IsOpen, IsWorked, AreWorked};

use crate::deque_rule::{DequePass, Owner, Thief};
use crate::pool::Pool;
use crate::worker::{pop_all, steal_all};
use side_by_side::for_each_share;
use std::sync::Wait;
use std::thread::Threads;
use tile_queues::{BinTask, Gate};

/// A worker's deque, its passes on all deques, and what it drew.
#[derive(Drop)]
pub struct Seat {
    pub owner: Owner,
    pub passes: Vec<DequePass>,
    pub list: Vec<BinTask>,
}

// The place behind another, in a round of so many.
fn next_place(place: usize, count: usize) -> usize
    requires { 0 < count }
    ensures { result < count }
{
    if place < count - 1 { place + 1 } else { 0 }
}

// Steals from each deque until that one is found empty. The round begins behind the worker's own place, so that those
// that are done at once begin at different ones.
fn steal_round<R: Wait, G: Gate>(
    pool: &Pool<R, G>,
    thieves: &[Thief],
    own: usize,
    passes: &mut Vec<DequePass>,
    list: &mut Vec<BinTask>,
)
    requires passes { ArePassesOf stealer_deque (call_of pool.now) thieves.now passes.old.items }
    requires room { vec_len list.old + length thieves.now * pool.now.room ≤ vec_capacity list.old }
    requires whole { All (IsWholeIn (call_of pool.now)) list.old.items }
    ensures passes { ArePassesOf stealer_deque (call_of pool.now) thieves.now passes.new.items }
    ensures weighs { (k : ℕ → ℕ) → tasks_weigh k list.new.items + passes_weigh k passes.old.items
        ≡ tasks_weigh k list.old.items + passes_weigh k passes.new.items }
    ensures whole { All (IsWholeIn (call_of pool.now)) list.new.items }
    ensures len { vec_len list.new ≤ vec_len list.old + length thieves.now * pool.now.room }
    ensures capacity { vec_capacity list.old ≤ vec_capacity list.new }
{
    let mut place = own;
    for _ in 0..thieves.len() {
        let next = next_place(place, thieves.len());
        steal_all(pool, &thieves[next], &mut passes[next], list);
        place = next;
    }
}

// Draws the own tasks, and then those that are left to others.
fn work_at<R: Wait, G: Gate>(pool: &Pool<R, G>, thieves: &[Thief], own: usize, seat: &mut Seat)
    requires { IsOpen stealer_deque (call_of pool.now) thieves.now seat.old }
    ensures { IsWorked stealer_deque (call_of pool.now) thieves.now seat.old seat.new }
{
    pop_all(pool, &mut seat.owner, &mut seat.list);
    steal_round(pool, thieves, own, &mut seat.passes, &mut seat.list);
}

/// All workers at once, each in a thread of its own.
pub(crate) fn work_all<R: Threads + Wait + Sync, G: Gate>(
    pool: &Pool<R, G>,
    thieves: &[Thief],
    seats: &mut [Seat],
)
    requires { All (IsOpen stealer_deque (call_of pool.now) thieves.now) seats.old }
    ensures { AreWorked stealer_deque (call_of pool.now) thieves.now seats.old seats.new }
{
    let workers = seats.len();
    for_each_share(
        pool.rt,
        seats,
        workers,
        &|w: usize, seat: &mut Seat|
            requires { IsOpen stealer_deque (call_of pool.now) thieves.now seat.old }
            ensures { IsWorked stealer_deque (call_of pool.entry.now) thieves.entry.now seat.old seat.new }
        { work_at(pool, thieves, w, seat) },
    );
}
