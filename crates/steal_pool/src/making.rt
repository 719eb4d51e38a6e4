//! How the seats of a pool's workers are made: each with an empty deque, and a list with room for all that it may draw.
ghost use Rattle.std.specs.Prelude.{◌≡◌, ◌+◌, ◌*◌, ◌<◌, ◌≤◌, [], All, length, IfOk};
ghost use Rattle.crossbeam_deque.specs.Handles.{stealer_deque, worker_deque, worker_view, worker_flavor};
ghost use Rattle.crossbeam_deque.specs.Handles.{worker_index, worker_capacity};
ghost use Rattle.steal_pool.specs.DequeRule.{owning};
ghost use Rattle.steal_pool.specs.Finish.{AreAt};
ghost use Rattle.steal_pool.specs.Making.{IsEmptySeat};
ghost use Rattle.steal_pool.specs.Pools.{call_of};

use crate::deque_rule::{Owner, Thief};
use crate::deque_steps::{name, opened};
use crate::pool::Pool;
use crate::seat::Seat;
use cull_base::Memory;
use std::alloc::Global;

// A deque for a pool.
fn open_deque<R, G>(alloc: Global, pool: &Pool<R, G>) -> Result<Owner, Memory>
    ensures { IfOk result (λ w. (worker_view w ≡ owning (call_of pool.now) [] [] 0) × (worker_flavor w ≡ 0)
        × (worker_index w ≡ 0) × (pool.now.room ≤ worker_capacity w)) }
{
    let mut owner = opened(alloc, pool.room).map_err(|_| Memory)?;
    name(&mut owner, pool);
    Ok(owner)
}

// A seat of one of so many workers. It has no pass yet.
fn empty_seat<R, G>(alloc: Global, pool: &Pool<R, G>, workers: usize) -> Result<Seat, Memory>
    requires few { pool.now.room ≤ 64 }
    requires small { workers * pool.now.room ≤ 4096 }
    ensures { IfOk result (λ s. IsEmptySeat (call_of pool.now) workers s) }
{
    let owner = open_deque(alloc, pool)?;
    let room = pool.room + workers * pool.room;
    let list = Vec::with_capacity(alloc, room).map_err(|_| Memory)?;
    Ok(Seat {
        owner,
        passes: Vec::new(alloc),
        list,
    })
}

/// The seats of so many workers, with no tasks and no passes. Err where memory gave out.
pub(crate) fn empty_seats<R, G>(
    alloc: Global,
    pool: &Pool<R, G>,
    workers: usize,
) -> Result<Vec<Seat>, Memory>
    requires few { pool.now.room ≤ 64 }
    requires small { workers * pool.now.room ≤ 4096 }
    ensures count { IfOk result (λ v. length v.items ≡ workers) }
    ensures empty { IfOk result (λ v. All (IsEmptySeat (call_of pool.now) workers) v.items) }
{
    let mut seats = Vec::with_capacity(alloc, workers).map_err(|_| Memory)?;
    for _ in 0..workers {
        let seat = empty_seat(alloc, pool, workers)?;
        seats.push_reserved(seat);
    }
    Ok(seats)
}

// A stealer of a seat's deque.
fn thief_of(seat: &Seat) -> Result<Thief, Memory>
    ensures { IfOk result (λ t. stealer_deque t ≡ worker_deque seat.now.owner) }
{
    seat.owner.stealer().map_err(|_| Memory)
}

/// A stealer of each seat's deque, in order. Err where memory gave out.
pub(crate) fn thieves_of(alloc: Global, seats: &[Seat]) -> Result<Vec<Thief>, Memory>
    ensures count { IfOk result (λ v. length v.items ≡ length seats.now) }
    ensures deques { IfOk result (λ v. AreAt stealer_deque v.items seats.now) }
{
    let mut thieves = Vec::with_capacity(alloc, seats.len()).map_err(|_| Memory)?;
    for w in 0..seats.len() {
        let thief = thief_of(&seats[w])?;
        thieves.push_reserved(thief);
    }
    Ok(thieves)
}
