//! What one worker does with one deque.
ghost use Rattle.std.specs.Prelude.{◌≡◌, ◌+◌, ◌<◌, ◌≤◌, All, length, vec_len, vec_capacity};
ghost use Rattle.crossbeam_deque.specs.Handles.{view, IsPassOf, SameWorker, stealer_deque, worker_view, worker_flavor};
ghost use Rattle.steal_pool.specs.DequeRule.{IsToldIn, LooksEmpty};
ghost use Rattle.steal_pool.specs.Pools.{call_of, IsWholeIn, Drew, Joined};
ghost use Rattle.steal_pool.specs.declared.deque_rule.Role.TheVariants.{Owns, Steals};

use crate::deque_rule::{DequePass, Owner, Thief};
use crate::deque_steps::{pop, steal};
use crate::pool::Pool;
use std::sync::Wait;
use tile_queues::{BinTask, Gate};

/// Draws a task to its end. Conditions: it is of the named call, and was told of all batches.
pub(crate) fn draw_to_end<R: Wait, G: Gate>(pool: &Pool<R, G>, mut task: BinTask) -> BinTask
    requires { IsToldIn (call_of pool.now) task }
    ensures bin { result.of.bin ≡ task.of.bin }
    ensures whole { IsWholeIn (call_of pool.now) result }
{
    let (rt, cells) = (pool.rt, pool.cells);
    pool.queues
        .drain(rt, &mut task, cells, pool.list, pool.gate);
    task
}

// The same, and appends it. Condition: there is room.
fn draw_into<R: Wait, G: Gate>(pool: &Pool<R, G>, list: &mut Vec<BinTask>, task: BinTask)
    requires told { IsToldIn (call_of pool.now) task }
    requires room { vec_len list.old < vec_capacity list.old }
    ensures joined { Joined (call_of pool.now) list.old.items list.new.items task }
    ensures len { vec_len list.new ≡ vec_len list.old + 1 }
    ensures capacity { vec_capacity list.new ≡ vec_capacity list.old }
{
    let drawn = draw_to_end(pool, task);
    list.push_reserved(drawn);
}

/// Draws all tasks of an own deque until it is found empty. Conditions: the deque is named after the pool, and the list
/// has room for what is left of it.
pub(crate) fn pop_all<R: Wait, G: Gate>(
    pool: &Pool<R, G>,
    owner: &mut Owner,
    list: &mut Vec<BinTask>,
)
    requires owns { ((worker_view owner.old).role ≡ Owns) × (worker_flavor owner.old ≡ 0) }
    requires of { (worker_view owner.old).of ≡ call_of pool.now }
    requires room { vec_len list.old + pool.now.room
        ≤ vec_capacity list.old + length (worker_view owner.old).taken }
    requires whole { All (IsWholeIn (call_of pool.now)) list.old.items }
    ensures same { SameWorker owner.old owner.new }
    ensures drew { Drew list.old.items list.new.items (worker_view owner.old) (worker_view owner.new) }
    ensures whole { All (IsWholeIn (call_of pool.now)) list.new.items }
    ensures len { vec_len list.new + length (worker_view owner.old).taken
        ≡ vec_len list.old + length (worker_view owner.new).taken }
    ensures capacity { vec_capacity list.old ≤ vec_capacity list.new }
    ensures every { LooksEmpty (worker_view owner.new) }
{
    for _ in pool.rt.forever() {
        match pop(owner) {
            Some(task) => draw_into(pool, list, task),
            None => return,
        }
    }
    unreachable!()
}

/// Steals and draws until that deque is found empty. Conditions: the deque is named after the pool, and the list has
/// room for what the pass didn't take yet.
pub(crate) fn steal_all<R: Wait, G: Gate>(
    pool: &Pool<R, G>,
    thief: &Thief,
    pass: &mut DequePass,
    list: &mut Vec<BinTask>,
)
    requires own { IsPassOf (stealer_deque thief.now) pass.old }
    requires steals { (view pass.old).role ≡ Steals }
    requires of { (view pass.old).of ≡ call_of pool.now }
    requires room { vec_len list.old + pool.now.room ≤ vec_capacity list.old + length (view pass.old).taken }
    requires whole { All (IsWholeIn (call_of pool.now)) list.old.items }
    ensures own { IsPassOf (stealer_deque thief.now) pass.new }
    ensures drew { Drew list.old.items list.new.items (view pass.old) (view pass.new) }
    ensures len { vec_len list.new + length (view pass.old).taken
        ≡ vec_len list.old + length (view pass.new).taken }
    ensures short { length (view pass.new).taken ≤ pool.now.room }
    ensures whole { All (IsWholeIn (call_of pool.now)) list.new.items }
    ensures capacity { vec_capacity list.old ≤ vec_capacity list.new }
{
    for _ in pool.rt.forever() {
        match steal(pool.rt, thief, pass) {
            Some(stolen) => draw_into(pool, list, stolen),
            None => return,
        }
    }
    unreachable!()
}
