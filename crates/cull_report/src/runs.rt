//! Runs of a frame's objects, each with its verdicts, their lines and what is counted of it.
ghost use Rattle.std.specs.Prelude.{◌+◌, ◌*◌, ◌-◌, ◌/◌, ◌<◌, length, IfOk};
ghost use Rattle.cull_report.specs.Runs.{AreRunsFor, AreToldRuns, IsMadeRun, IsRunSize, IsToldRun, IsWaitingRun};
ghost use Rattle.cull_report.specs.Tallies.{Adds};

use crate::answering::Answering;
use crate::report::{BATCH, LINE, lines_from};
use crate::tally::Tally;
use cull_base::{Memory, Verdict};
use std::alloc::Global;

/// The verdicts of objects that follow on one another, their lines, and what is counted of them. Run k of some size
/// begins at object size * k.
#[derive(Drop)]
pub(crate) struct Run {
    pub(crate) verdicts: Vec<Verdict>,
    pub(crate) lines: Vec<u8>,
    pub(crate) tally: Tally,
}

/// How many objects a run has, of so many that so many threads share.
pub(crate) fn run_size(objects: u32, threads: usize) -> usize
    ensures { IsRunSize result }
{
    (objects as usize / threads.saturating_mul(8).max(1)).clamp(1, BATCH)
}

/// The nearest size of runs at which whole steps end where a run does: no greater where one step fits, else one step.
pub(crate) fn whole_steps(size: usize, step: usize) -> usize
    requires { IsRunSize size }
    ensures { IsRunSize result }
{
    let step = step.clamp(1, BATCH);
    if size < step {
        return step;
    }
    size - size % step
}

/// How many runs of a size so many objects make.
pub(crate) fn run_count(objects: u32, size: usize) -> usize
    requires { IsRunSize size }
    ensures { AreRunsFor objects size result }
{
    (objects as usize).div_ceil(size)
}

impl Run {
    /// A run that waits to be made. Err where memory gave out.
    pub(crate) fn with_room(alloc: Global, size: usize) -> Result<Run, Memory>
        requires { IsRunSize size }
        ensures { IfOk result (IsWaitingRun size) }
    {
        let verdicts = Vec::with_capacity(alloc, size).map_err(|_| Memory)?;
        let lines = Vec::with_capacity(alloc, LINE * size).map_err(|_| Memory)?;
        Ok(Run {
            verdicts,
            lines,
            tally: Tally {
                hidden: 0,
                members: 0,
            },
        })
    }

    /// Makes a run that waits: the verdicts of its objects, their lines, and what is counted of them. Condition: it has
    /// an object.
    pub(crate) fn make<A: Answering>(&mut self, size: usize, number: usize, asked: &A)
        requires size { IsRunSize size }
        requires some { size * number < length (A.all asked.now) }
        requires waits { IsWaitingRun size self.old }
        ensures made { IsMadeRun (A.all asked.now) size number self.new }
        ensures counted { IsToldRun (length (A.all asked.now)) (A.told asked.now) size number self.new }
    {
        let objects = asked.count();
        let first = size * number;
        let count = size.min(objects as usize - first);
        self.tally = asked.answer(first as u32, count as u32, &mut self.verdicts);
        let lines = lines_from(first, self.verdicts.as_slice());
        let Ok(()) = self.lines.extend_from_slice(lines.as_slice()) else {
            unreachable!()
        };
    }
}

/// What is counted of all objects, by their runs. Its clauses alone ask for the size.
pub(crate) fn tally_of_runs<A: Answering>(asked: &A, runs: &[Run], _size: usize) -> Tally
    requires { AreToldRuns (length (A.all asked.now)) (A.told asked.now) _size runs.now }
    ensures { Adds (A.told asked.now 0) result (A.told asked.now (length (A.all asked.now))) }
{
    // it tells that all numbers fit
    let _count = asked.count();
    let (mut hidden, mut members) = (0u32, 0u32);
    for run in runs {
        hidden += run.tally.hidden;
        members += run.tally.members;
    }
    Tally { hidden, members }
}
