//! How tasks are dealt to the deques of workers.
ghost use Rattle.std.specs.Prelude.{◌≡◌, ◌%◌, ◌<◌, ◌≤◌, ℕ, All, length};
ghost use Rattle.steal_pool.specs.DequeRule.{IsToldIn};
ghost use Rattle.steal_pool.specs.Finish.{pushed_weigh};
ghost use Rattle.steal_pool.specs.Making.{belongs, owned, HaveRoom, HaveSameDeques, IsDealt, IsEmptySeat};
ghost use Rattle.steal_pool.specs.Pools.{call_of, tasks_weigh};

use crate::deque_steps::push;
use crate::pool::Pool;
use crate::seat::Seat;
use tile_queues::BinTask;

// To which worker a task is dealt: bin b belongs to worker b modulo the workers.
fn worker_of(task: &BinTask, workers: usize) -> usize
    requires { 0 < workers }
    ensures value { result ≡ task.now.of.bin % workers }
    ensures within { result < workers }
{
    task.bin() as usize % workers
}

// 1 where a task is dealt to a worker, and else 0.
fn counted(task: &BinTask, workers: usize, worker: usize) -> usize
    requires { 0 < workers }
    ensures value { result ≡ belongs workers worker task.now.of.bin }
    ensures small { result ≤ 1 }
{
    if worker_of(task, workers) == worker {
        return 1;
    }
    0
}

// How many tasks are dealt to a worker.
fn owned_by(tasks: &[BinTask], workers: usize, worker: usize) -> usize
    requires { 0 < workers }
    ensures value { result ≡ owned workers worker tasks.now }
    ensures few { result ≤ length tasks.now }
{
    let mut count = 0usize;
    for i in 0..tasks.len() {
        count += counted(&tasks[i], workers, worker);
    }
    count
}

/// How many tasks are dealt to the worker that gets most.
pub(crate) fn most_owned(tasks: &[BinTask], workers: usize) -> usize
    requires { 0 < workers }
    ensures each { HaveRoom workers result tasks.now }
    ensures few { result ≤ length tasks.now }
{
    let mut most = 0usize;
    for worker in 0..workers {
        let count = owned_by(tasks, workers, worker);
        let greater = most.max(count);
        most = greater;
    }
    most
}

/// Deals tasks to new seats, in their order: that of bin b to worker b modulo the workers. Conditions: each is told of
/// all batches, and no worker gets more than a deque is for.
pub(crate) fn deal<R, G>(
    _pool: &Pool<R, G>,
    seats: &mut [Seat],
    tasks: Vec<BinTask>,
    workers: usize,
)
    requires some { 0 < workers }
    requires many { length seats.old ≡ workers }
    requires empty { All (IsEmptySeat (call_of _pool.now) (length seats.old)) seats.old }
    requires told { All (IsToldIn (call_of _pool.now)) tasks.items }
    requires room { HaveRoom (length seats.old) _pool.now.room tasks.items }
    ensures many { length seats.new ≡ length seats.old }
    ensures dealt { All (IsDealt (call_of _pool.now) (length seats.old) 0) seats.new }
    ensures once { (k : ℕ → ℕ) → pushed_weigh k seats.new ≡ tasks_weigh k tasks.items }
    ensures deques { HaveSameDeques seats.old seats.new }
{
    let mut done = 0usize;
    for task in tasks {
        let worker = worker_of(&task, workers);
        push(&mut seats[worker].owner, task);
        done += 1;
    }
}
