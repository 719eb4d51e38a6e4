//! The lists of tasks that workers drew, and all of them as one.
ghost use Rattle.std.specs.Prelude.{◌≡◌, ◌+◌, ◌≤◌, ◌++◌, ℕ, [], length, vec_items, vec_len, vec_capacity};
ghost use Rattle.steal_pool.specs.Finish.{AreFinishedTo, lists_weigh};
ghost use Rattle.steal_pool.specs.Lists.{joined, drawn_weigh, AreDrawnLists};
ghost use Rattle.steal_pool.specs.Pools.{call_of};

use crate::pool::Pool;
use crate::seat::Seat;
use tile_queues::BinTask;

/// The list of each worker, in order. Conditions: all tasks are drawn, and there is room for so many lists.
pub(crate) fn lists_of<R, G>(
    _pool: &Pool<R, G>,
    seats: Vec<Seat>,
    room: Vec<Vec<BinTask>>,
) -> Vec<Vec<BinTask>>
    requires finished { AreFinishedTo (call_of _pool.now) (length seats.items) seats.items }
    requires empty { room.items ≡ [] }
    requires room { length seats.items ≤ vec_capacity room }
    ensures count { length result.items ≡ length seats.items }
    ensures once { (k : ℕ → ℕ) → drawn_weigh vec_items k result.items ≡ lists_weigh k seats.items }
    ensures whole { AreDrawnLists vec_items (call_of _pool.now) result.items }
{
    let mut lists = room;
    let mut done = 0usize;
    for seat in seats {
        lists.push_reserved(seat.list);
        done += 1;
    }
    lists
}

// Appends a list. Condition: there is room.
fn append(all: &mut Vec<BinTask>, mut list: Vec<BinTask>)
    requires { vec_len all.old + vec_len list ≤ vec_capacity all.old }
    ensures items { all.new.items ≡ all.old.items ++ list.items }
    ensures capacity { vec_capacity all.old ≤ vec_capacity all.new }
{
    match all.append(&mut list) {
        Ok(()) => {}
        Err(_) => unreachable!(),
    }
}

/// The lists one behind the other. Condition: there is room for all.
pub(crate) fn join_lists(room: Vec<BinTask>, lists: Vec<Vec<BinTask>>) -> Vec<BinTask>
    requires empty { room.items ≡ [] }
    requires room { length (joined vec_items lists.items) ≤ vec_capacity room }
    ensures { result.items ≡ joined vec_items lists.items }
{
    let mut all = room;
    let mut done = 0usize;
    for list in lists {
        append(&mut all, list);
        done += 1;
    }
    all
}
