//! The steps on one deque.
ghost use Rattle.std.specs.Prelude.{◌≡◌, ◌+◌, ◌<◌, ◌≤◌, [], ◌∷◌, ◌++◌, length, IfOk, MatchOption};
ghost use Rattle.crossbeam_deque.specs.Handles.{view, IsPassOf, SameWorker, worker_deque, stealer_deque, worker_view};
ghost use Rattle.crossbeam_deque.specs.Handles.{worker_flavor, worker_index, worker_port, worker_capacity};
ghost use Rattle.steal_pool.specs.DequeRule.{nameless, owning, lending, lent, returned};
ghost use Rattle.steal_pool.specs.DequeRule.{IsToldIn, TookOne, IsShort, LooksEmpty};
ghost use Rattle.steal_pool.specs.Pools.{call_of};
ghost use Rattle.steal_pool.specs.declared.deque_rule.Role.TheVariants.{Owns, Steals};

use crate::deque_rule::{DequePass, Lend, Name, Naming, Owner, Pop, Push, Return, Theft, Thief};
use crate::pool::Pool;
use crossbeam_deque::Steal;
use std::alloc::{AllocError, Global};
use std::marker::Brand;
use std::sync::Wait;
use tile_queues::BinTask;

/// An empty deque, not named yet, with room for so many tasks.
pub(crate) fn opened(alloc: Global, room: usize) -> Result<Owner, AllocError>
    ensures { IfOk result (λ w. (worker_view w ≡ nameless) × (worker_port w ≡ 0) × (worker_flavor w ≡ 0)
        × (worker_index w ≡ 0) × (room ≤ worker_capacity w)) }
{
    Owner::fifo_as(alloc, room)
}

fn named<B: Naming, R, G>(owner: &mut Owner, _pool: &Pool<R, G>)
    requires nameless { (worker_view owner.old ≡ nameless) × (worker_port owner.old ≡ 0) }
    ensures same { SameWorker owner.old owner.new × (worker_index owner.new ≡ worker_index owner.old) }
    ensures named { worker_view owner.new ≡ owning B.call [] [] 0 }
{
    let _ = owner.another::<Name<B>>();
}

/// Names a new deque after a pool.
pub(crate) fn name<R, G>(owner: &mut Owner, pool: &Pool<R, G>)
    requires nameless { (worker_view owner.old ≡ nameless) × (worker_port owner.old ≡ 0) }
    ensures same { SameWorker owner.old owner.new × (worker_index owner.new ≡ worker_index owner.old) }
    ensures named { worker_view owner.new ≡ owning (call_of pool.now) [] [] 0 }
{
    named::<Brand, R, G>(owner, pool);
}

/// Appends a task. Conditions: it is of the named call, and there is room.
pub(crate) fn push(owner: &mut Owner, task: BinTask)
    requires owns { (worker_view owner.old).role ≡ Owns }
    requires told { IsToldIn (worker_view owner.old).of task }
    requires short { length (worker_view owner.old).pushed < (worker_view owner.old).of.room }
    requires room { worker_index owner.old < worker_capacity owner.old }
    ensures same { SameWorker owner.old owner.new × (worker_index owner.new ≡ worker_index owner.old + 1) }
    ensures pushed { let v = worker_view owner.old in
        worker_view owner.new ≡ owning v.of (v.pushed ++ task.of.bin ∷ []) v.taken v.out }
{
    match owner.push_as::<Push>(task) {
        Ok(()) => {}
        Err(_) => unreachable!(),
    }
}

/// Takes the task at the front. None where the deque was empty: an owner with no stealer out then has every place.
pub(crate) fn pop(owner: &mut Owner) -> Option<BinTask>
    requires owns { (worker_view owner.old).role ≡ Owns }
    requires fifo { worker_flavor owner.old ≡ 0 }
    ensures same { SameWorker owner.old owner.new × (worker_index owner.new ≤ worker_index owner.old) }
    ensures took { MatchOption result
        ((worker_view owner.new ≡ worker_view owner.old) × LooksEmpty (worker_view owner.old))
        (λ x. TookOne (worker_view owner.old) x (worker_view owner.new)) }
{
    owner.pop_as::<Pop>()
}

/// What a stealer needs.
pub(crate) fn lend(owner: &mut Owner) -> DequePass
    requires owns { (worker_view owner.old).role ≡ Owns }
    ensures same { SameWorker owner.old owner.new × (worker_index owner.new ≡ worker_index owner.old) }
    ensures own { IsPassOf (worker_deque owner.old) result }
    ensures lent { (worker_view owner.new ≡ lending (worker_view owner.old))
        × (view result ≡ lent (worker_view owner.old)) }
{
    owner.another::<Lend>()
}

/// Steals the task at the front. None where the deque was empty.
pub(crate) fn steal<R: Wait>(rt: &R, thief: &Thief, pass: &mut DequePass) -> Option<BinTask>
    requires own { IsPassOf (stealer_deque thief.now) pass.old }
    requires steals { (view pass.old).role ≡ Steals }
    ensures own { IsPassOf (stealer_deque thief.now) pass.new }
    ensures took { MatchOption result
        ((view pass.new ≡ view pass.old) × IsShort (view pass.old))
        (λ x. TookOne (view pass.old) x (view pass.new)) }
{
    for _ in rt.forever() {
        match thief.steal_as::<Theft>(pass) {
            Steal::Success(task) => return Some(task),
            Steal::Empty => return None,
            Steal::Retry => {}
        }
    }
    unreachable!()
}

/// A stealer's view ends in the owner's.
pub(crate) fn take_back(owner: &mut Owner, pass: DequePass)
    requires roles { ((worker_view owner.old).role ≡ Owns) × ((view pass).role ≡ Steals) }
    requires own { IsPassOf (worker_deque owner.old) pass }
    ensures same { SameWorker owner.old owner.new × (worker_index owner.new ≡ worker_index owner.old) }
    ensures returned { worker_view owner.new ≡ returned (worker_view owner.old) (view pass) }
{
    owner.absorb::<Return>(pass);
}
