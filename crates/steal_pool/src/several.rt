//! Several workers that draw all tasks of their deques.
ghost use Rattle.std.specs.Prelude.{◌≡◌, ℕ, All, length};
ghost use Rattle.crossbeam_deque.specs.Handles.{stealer_deque};
ghost use Rattle.steal_pool.specs.Pools.{call_of};
ghost use Rattle.steal_pool.specs.Seats.{IsOpen};
ghost use Rattle.steal_pool.specs.Finish.{AreAt, AreFinishedTo, lists_weigh, pushed_weigh};

use crate::deque_rule::Thief;
use crate::finish::finish_all;
use crate::gather::take_all;
use crate::pool::Pool;
use crate::seat::{Seat, work_all};
use std::alloc::Global;
use std::sync::Wait;
use std::thread::Threads;
use tile_queues::Gate;

/// All tasks of all deques are drawn: the lists together have what was pushed. Nothing takes memory. Conditions: the
/// seats are as many as the deques, each owns the deque at its place, and nothing is drawn.
pub(crate) fn drain_seats<R: Threads + Wait + Sync, G: Gate>(
    pool: &Pool<R, G>,
    alloc: Global,
    thieves: &[Thief],
    seats: &mut [Seat],
)
    requires many { length seats.old ≡ length thieves.now }
    requires open { All (IsOpen stealer_deque (call_of pool.now) thieves.now) seats.old }
    requires deques { AreAt stealer_deque thieves.now seats.old }
    ensures many { length seats.new ≡ length seats.old }
    ensures finished { AreFinishedTo (call_of pool.now) (length seats.old) seats.new }
    ensures once { (k : ℕ → ℕ) → lists_weigh k seats.new ≡ pushed_weigh k seats.old }
{
    work_all(pool, thieves, seats);
    take_all(alloc, seats, pool, thieves);
    finish_all(pool, seats);
}
