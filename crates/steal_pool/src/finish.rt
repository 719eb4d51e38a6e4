//! What is left in the deques is drawn.
ghost use Rattle.std.specs.Prelude.{◌≡◌, ◌+◌, ℕ, length};
ghost use Rattle.crossbeam_deque.specs.Handles.{worker_view};
ghost use Rattle.steal_pool.specs.Pools.{call_of, tasks_weigh, bins_weigh};
ghost use Rattle.steal_pool.specs.Gather.{owners_weigh};
ghost use Rattle.steal_pool.specs.Finish.{IsLeft, IsFinished, AreFinishedTo, lists_weigh, pushed_weigh};

use crate::pool::Pool;
use crate::seat::Seat;
use crate::worker::pop_all;
use std::sync::Wait;
use tile_queues::Gate;

// What is left in the deque of a seat is drawn, until it is found empty.
fn finish<R: Wait, G: Gate>(pool: &Pool<R, G>, seat: &mut Seat)
    requires { IsLeft (call_of pool.now) seat.old }
    ensures finished { IsFinished (call_of pool.now) seat.new }
    ensures pushed { (worker_view seat.new.owner).pushed ≡ (worker_view seat.old.owner).pushed }
    ensures moved { (k : ℕ → ℕ)
        → tasks_weigh k seat.new.list.items + bins_weigh k (worker_view seat.old.owner).taken
        ≡ tasks_weigh k seat.old.list.items + bins_weigh k (worker_view seat.new.owner).taken }
{
    pop_all(pool, &mut seat.owner, &mut seat.list);
}

/// What is left is drawn, seat by seat: all lists together have what was pushed.
pub(crate) fn finish_all<R: Wait, G: Gate>(pool: &Pool<R, G>, seats: &mut [Seat])
    requires left { AreFinishedTo (call_of pool.now) 0 seats.old }
    requires lists { (k : ℕ → ℕ) → lists_weigh k seats.old ≡ owners_weigh k seats.old }
    ensures many { length seats.new ≡ length seats.old }
    ensures finished { AreFinishedTo (call_of pool.now) (length seats.old) seats.new }
    ensures once { (k : ℕ → ℕ) → lists_weigh k seats.new ≡ pushed_weigh k seats.old }
{
    for w in 0..seats.len() {
        finish(pool, &mut seats[w]);
    }
}
