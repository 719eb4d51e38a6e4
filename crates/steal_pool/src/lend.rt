//! How each worker is lent a pass on each deque.
ghost use Rattle.std.specs.Prelude.{◌≡◌, ◌+◌, ◌<◌, ◌≤◌, [], All, length, vec_items, vec_capacity, IfOk};
ghost use Rattle.crossbeam_deque.specs.Handles.{view, IsPassOf, stealer_deque, worker_deque};
ghost use Rattle.steal_pool.specs.DequeRule.{stealing};
ghost use Rattle.steal_pool.specs.Finish.{AreAt};
ghost use Rattle.steal_pool.specs.Making.{AreLent, AreLentOn, AreRoomy, AreSeatsOn, IsDealt, IsLentOn};
ghost use Rattle.steal_pool.specs.Pools.{call_of};
ghost use Rattle.steal_pool.specs.Seats.{ArePassesOf, AreFresh, IsOpen};

use crate::deque_rule::{DequePass, Thief};
use crate::deque_steps::lend;
use crate::pool::Pool;
use crate::seat::Seat;
use cull_base::Memory;
use std::alloc::Global;
use std::mem;

// A pass on the deque of a seat.
fn lend_at<R, G>(seat: &mut Seat, _pool: &Pool<R, G>, _workers: usize, _out: usize) -> DequePass
    requires { IsDealt (call_of _pool.now) _workers _out seat.old }
    ensures dealt { IsDealt (call_of _pool.now) _workers (_out + 1) seat.new }
    ensures on { IsLentOn seat.old seat.new }
    ensures own { IsPassOf (worker_deque seat.old.owner) result }
    ensures fresh { view result ≡ stealing (call_of _pool.now) [] }
{
    lend(&mut seat.owner)
}

/// Room for a row of passes for each of so many workers. Err where memory gave out.
pub(crate) fn rows_of(alloc: Global, workers: usize) -> Result<Vec<Vec<DequePass>>, Memory>
    ensures count { IfOk result (λ v. length v.items ≡ workers) }
    ensures room { IfOk result (λ v. AreRoomy vec_items vec_capacity workers v.items) }
{
    let mut rows = Vec::with_capacity(alloc, workers).map_err(|_| Memory)?;
    for _ in 0..workers {
        let row = Vec::with_capacity(alloc, workers).map_err(|_| Memory)?;
        rows.push_reserved(row);
    }
    Ok(rows)
}

// The room for one of the rows that are left.
fn next_row(rows: &mut Vec<Vec<DequePass>>, _workers: usize) -> Vec<DequePass>
    requires some { 0 < length rows.old.items }
    requires room { AreRoomy vec_items vec_capacity _workers rows.old.items }
    ensures fewer { length rows.old.items ≡ length rows.new.items + 1 }
    ensures room { AreRoomy vec_items vec_capacity _workers rows.new.items }
    ensures empty { result.items ≡ [] }
    ensures enough { _workers ≤ vec_capacity result }
{
    match rows.pop() {
        Some(row) => row,
        None => unreachable!(),
    }
}

// A pass on the deque of each seat, in order. Condition: there is room for them.
fn lend_row<R, G>(
    room: Vec<DequePass>,
    seats: &mut [Seat],
    pool: &Pool<R, G>,
    _thieves: &[Thief],
    out: usize,
) -> Vec<DequePass>
    requires many { length seats.old ≡ length _thieves.now }
    requires deques { AreAt stealer_deque _thieves.now seats.old }
    requires lent { AreLent (call_of pool.now) (length seats.old) 0 out seats.old }
    requires empty { room.items ≡ [] }
    requires room { length seats.old ≤ vec_capacity room }
    ensures on { AreLentOn seats.old seats.new }
    ensures lent { AreLent (call_of pool.now) (length seats.old) (length seats.old) out seats.new }
    ensures passes { ArePassesOf stealer_deque (call_of pool.now) _thieves.now result.items }
    ensures fresh { AreFresh result.items }
{
    let workers = seats.len();
    let mut passes = room;
    for d in 0..seats.len() {
        let pass = lend_at(&mut seats[d], pool, workers, out);
        passes.push_reserved(pass);
    }
    passes
}

/// Lends a pass on each deque to each worker. Conditions: tasks are dealt, no pass is lent, each seat owns the deque at
/// its place, and there is room for a row of passes for each worker.
pub(crate) fn lend_all<R, G>(
    mut rows: Vec<Vec<DequePass>>,
    seats: &mut [Seat],
    pool: &Pool<R, G>,
    thieves: &[Thief],
)
    requires many { length seats.old ≡ length thieves.now }
    requires deques { AreAt stealer_deque thieves.now seats.old }
    requires dealt { All (IsDealt (call_of pool.now) (length seats.old) 0) seats.old }
    requires rows { length rows.items ≡ length seats.old }
    requires room { AreRoomy vec_items vec_capacity (length seats.old) rows.items }
    ensures on { AreSeatsOn seats.old seats.new }
    ensures open { All (IsOpen stealer_deque (call_of pool.now) thieves.now) seats.new }
{
    let workers = seats.len();
    for w in 0..seats.len() {
        let room = next_row(&mut rows, workers);
        let row = lend_row(room, seats, pool, thieves, w);
        drop(mem::replace(&mut seats[w].passes, row));
    }
}
