//! The passes of all workers end in the owners' views.
ghost use Rattle.std.specs.Prelude.{◌≡◌, ◌+◌, ◌<◌, ℕ, length};
ghost use Rattle.crossbeam_deque.specs.Handles.{view, IsPassOf, stealer_deque, worker_view};
ghost use Rattle.steal_pool.specs.DequeRule.{stealing};
ghost use Rattle.steal_pool.specs.Pools.{call_of, bins_weigh};
ghost use Rattle.steal_pool.specs.Seats.{passes_weigh, ArePassesOf};
ghost use Rattle.steal_pool.specs.Gather.{owners_weigh, all_passes_weigh, IsOut, IsKept, AreOut, AreKept};
ghost use Rattle.steal_pool.specs.Gather.{AreKeptAside, HavePassesFrom};

use crate::deque_rule::{DequePass, Thief};
use crate::deque_steps::take_back;
use crate::pool::Pool;
use crate::seat::Seat;
use std::alloc::Global;
use std::mem;

// A pass ends in the view of its deque's owner.
fn take_at<R, G>(seat: &mut Seat, pass: DequePass, _pool: &Pool<R, G>, _thief: &Thief, _left: usize)
    requires pass { IsPassOf (stealer_deque _thief.now) pass
        × (view pass ≡ stealing (call_of _pool.now) (view pass).taken) }
    requires out { IsOut (stealer_deque _thief.now) (call_of _pool.now) (_left + 1) seat.old }
    ensures out { IsOut (stealer_deque _thief.now) (call_of _pool.now) _left seat.new }
    ensures kept { IsKept seat.old seat.new }
    ensures weighs { (k : ℕ → ℕ) → bins_weigh k (worker_view seat.new.owner).taken
        ≡ bins_weigh k (worker_view seat.old.owner).taken + bins_weigh k (view pass).taken }
{
    take_back(&mut seat.owner, pass);
}

// The passes of one worker end, each in the view of its deque's owner.
fn take_row<R, G>(
    seats: &mut [Seat],
    mut passes: Vec<DequePass>,
    pool: &Pool<R, G>,
    thieves: &[Thief],
    left: usize,
)
    requires many { length seats.old ≡ length thieves.now }
    requires passes { ArePassesOf stealer_deque (call_of pool.now) thieves.now passes.items }
    requires out { AreOut stealer_deque (call_of pool.now) thieves.now (length seats.old) left seats.old }
    ensures many { length seats.new ≡ length seats.old }
    ensures out { AreOut stealer_deque (call_of pool.now) thieves.now 0 left seats.new }
    ensures kept { AreKept seats.old seats.new }
    ensures weighs { (k : ℕ → ℕ) → owners_weigh k seats.new
        ≡ owners_weigh k seats.old + passes_weigh k passes.items }
{
    while let Some(pass) = passes.pop() {
        let d = passes.len();
        take_at(&mut seats[d], pass, pool, &thieves[d], left);
    }
}

/// The passes of all workers end. Condition: as many are out of each deque as there are seats.
pub(crate) fn take_all<R, G>(
    alloc: Global,
    seats: &mut [Seat],
    pool: &Pool<R, G>,
    thieves: &[Thief],
)
    requires many { length seats.old ≡ length thieves.now }
    requires passes { HavePassesFrom stealer_deque (call_of pool.now) thieves.now 0 seats.old }
    requires out { AreOut stealer_deque (call_of pool.now) thieves.now 0 (length seats.old) seats.old }
    ensures many { length seats.new ≡ length seats.old }
    ensures out { AreOut stealer_deque (call_of pool.now) thieves.now 0 0 seats.new }
    ensures kept { AreKeptAside seats.old seats.new }
    ensures weighs { (k : ℕ → ℕ) → owners_weigh k seats.new
        ≡ owners_weigh k seats.old + all_passes_weigh k seats.old }
{
    for w in 0..seats.len() {
        let left = seats.len() - 1 - w;
        let passes = mem::replace(&mut seats[w].passes, Vec::new(alloc));
        take_row(seats, passes, pool, thieves, left);
    }
}
