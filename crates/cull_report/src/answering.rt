//! Objects that are asked part by part: each has a verdict, and something may be counted of them.
ghost use Rattle.std.specs.Prelude.{◌≡◌, ◌≤◌, ◌+◌, ◌++◌, ℕ, List, length, take, drop, vec_capacity, IfOk};
ghost use Rattle.cull_base.specs.declared.scene_types.Verdict.{Verdict};
ghost use Rattle.cull_report.specs.Tallies.{Adds, IsFew};
ghost use Rattle.cull_report.specs.declared.tally.Tally.{Tally};

use crate::tally::Tally;
use cull_base::{Memory, Verdict};
use std::alloc::Global;

/// Objects in order, of which parts can be asked by themselves: so threads share them.
pub trait Answering {
    /// The verdicts of all.
    ghost all: { Self → List Verdict };

    /// What is counted of those before a place.
    ghost told: { Self → ℕ → Tally };

    /// How many there are. What is counted of them fits.
    fn count(&self) -> u32
        ensures count { result ≡ length (all self.now) }
        ensures few { (place : ℕ) → IsFew (told self.now place) };

    /// Appends the verdicts of so many from a first on, and tells what is counted of these. Conditions: there are so
    /// many, and room for their verdicts.
    fn answer(&self, first: u32, count: u32, verdicts: &mut Vec<Verdict>) -> Tally
        requires within { first + count ≤ length (all self.now) }
        requires room { length verdicts.old.items + count ≤ vec_capacity verdicts.old }
        ensures verdicts { verdicts.new.items ≡ verdicts.old.items ++ take count (drop first (all self.now)) }
        ensures told { Adds (told self.now first) result (told self.now (first + count)) };
}

/// All verdicts, and what is counted of all. Err where memory gave out.
pub(crate) fn all_answers<A: Answering>(
    alloc: Global,
    asked: &A,
) -> Result<(Vec<Verdict>, Tally), Memory>
    ensures verdicts { IfOk result (λ r. r.0.items ≡ A.all asked.now) }
    ensures told { IfOk result (λ r. Adds (A.told asked.now 0) r.1 (A.told asked.now (length (A.all asked.now)))) }
{
    let count = asked.count();
    let mut verdicts = Vec::with_capacity(alloc, count as usize).map_err(|_| Memory)?;
    let tally = asked.answer(0, count, &mut verdicts);
    Ok((verdicts, tally))
}
