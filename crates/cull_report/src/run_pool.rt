//! The runs of a frame, made by workers side by side.
ghost use Rattle.std.specs.Prelude.{length, IfOk};
ghost use Rattle.cull_report.specs.Runs.{AreRunsOf, AreToldRuns, IsRunSize};

use crate::answering::Answering;
use crate::runs::{Run, run_count};
use cull_base::Memory;
use seats::{Makes, make_each};
use std::alloc::Global;
use std::sync::Wait;
use std::thread::Threads;

// Makes the runs of objects, of so many each.
#[derive(Drop)]
struct RunMaker<'a, A: Answering> {
    asked: &'a A,
    size: usize,
    ghost sized: { IsRunSize size },
}

impl<'a, A: Answering> Makes<Run, Run> for RunMaker<'a, A> {
    ghost use Rattle.std.specs.Prelude.{◌*◌, ◌<◌, length};
    ghost use Rattle.cull_report.specs.Runs.{IsWhole, IsWhole-prop, Waits, Waits-prop};

    ghost has = { λ m number. m.size * number < length (A.all m.asked.now) };

    ghost waits = { λ m number run. Waits (length (A.all m.asked.now)) m.size number run };

    ghost made = { λ m number run. IsWhole (A.all m.asked.now) (A.told m.asked.now) m.size number run };

    ghost waits_once = { λ m number run. Waits-prop (length (A.all m.asked.now)) m.size number run };

    ghost made_once = { λ m number run. IsWhole-prop (A.all m.asked.now) (A.told m.asked.now) m.size number run };

    fn begin(&self, alloc: Global, _number: usize) -> Result<Run, Memory> {
        Run::with_room(alloc, self.size)
    }

    fn make(&self, number: usize, mut run: Run) -> Run {
        run.make(self.size, number, self.asked);
        run
    }
}

/// The runs of all objects of a frame, made by so many threads and by the caller. Err where memory gave out.
pub(crate) fn runs_by_workers<R: Threads + Wait + Sync, A: Answering + Sync>(
    rt: &R,
    alloc: Global,
    asked: &A,
    size: usize,
    threads: u32,
) -> Result<Vec<Run>, Memory>
    requires size { IsRunSize size }
    ensures runs { IfOk result (λ v. AreRunsOf (A.all asked.now) size v.items) }
    ensures counted { IfOk result
        (λ v. AreToldRuns (length (A.all asked.now)) (A.told asked.now) size v.items) }
{
    let count = run_count(asked.count(), size);
    make_each(rt, alloc, &RunMaker { asked, size }, count, threads)
}
