//! A seat for each task: the task is in its seat except while a worker has it, and whoever takes it brings it back.
ghost use Rattle.std.specs.Prelude.{◌≡◌, ◌<◌, ◌+◌, None, Some, length, slice_index_or, slice_set, vec_len, IfOk, IfSome, MatchOption};
ghost use Rattle.seats.specs.Seats.{ArePlaced, AreSeated, IsLoan, Known, gaps};

use crate::hands::{Hand, hands_of, merge_all};
use crate::seal::are_apart;
use std::alloc::{AllocError, Global};
use std::marker::Brand;
use std::sync::ledger::{Blank, Book, Ledger, Share};

/// Which seats tasks belong to, chosen by the caller: the names of the seats' seals, and what holds of the task of a seat
/// while no worker has it, which has at most one proof. The ledger counts the tasks that workers have; it has a part for
/// each worker, and one for the lender.
pub trait Seating<T>: Ledger {
    ghost use Rattle.std.specs.Prelude.{ℕ, List};

    ghost names: { List ℕ };

    ghost holds: { ℕ → T → Type 0 };

    ghost is_fact: { (seat : ℕ) (task : T) → IsProp (holds seat task) };
}

impl<T> Seating<T> for Brand {
    ghost use Rattle.std.specs.Prelude.{[]};
    ghost use Rattle.seats.specs.Nothing.{Never, never_twice};

    ghost names = { [] };

    ghost holds = { λ seat task. Never };

    ghost is_fact = { λ seat task. never_twice };
}

/// A task, its seat, and a seal that no other task has. The seal takes no bytes.
#[derive(Drop)]
pub struct Loan<T> {
    pub seat: usize,
    pub task: T,
    pub seal: Blank,
}

impl<T> Loan<T> {
    /// A task for a seat, under a seal of its own.
    pub fn new(seat: usize, task: T) -> Loan<T>
        ensures seat { result.seat ≡ seat }
        ensures task { result.task ≡ task }
        ensures seal { result.seal.parts ≡ 1 }
    {
        Loan {
            seat,
            task,
            seal: Blank::new(1),
        }
    }
}

/// The seats of tasks, for a lock. A task is in its own seat except while a worker has it.
#[derive(Drop)]
pub struct Seats<P: Seating<T>, T: Drop> {
    slots: Vec<Option<Loan<T>>>,
    out: Book<P>,
    ghost placed: { ArePlaced (Known P.holds) P.names slots.items },
    ghost counted: { gaps slots.items ≡ out.total },
}

// The task that goes to its seat, where no other is: no two have the seal of one seat.
fn alone<T: Drop>(loan: Loan<T>, other: Option<Loan<T>>) -> Loan<T>
    requires parts { loan.seal.parts ≡ 1 }
    requires other { IfSome other (λ o. (o.seal.name ≡ loan.seal.name) × (o.seal.parts ≡ 1)) }
    ensures same { result ≡ loan }
    ensures none { other ≡ None }
{
    if let Some(other) = other {
        are_apart(loan.seal, other.seal);
        unreachable!()
    }
    loan
}

impl<P: Seating<T>, T: Drop> Seats<P, T> {
    /// Seats that all have their tasks, a hand for each of so many workers, and one for the lender. Err: out of memory.
    pub fn open(
        alloc: Global,
        blank: Blank,
        slots: Vec<Option<Loan<T>>>,
        workers: u32,
    ) -> Result<(Seats<P, T>, Vec<Hand<P>>, Hand<P>), AllocError>
        requires name { blank.name ≡ P.name }
        requires parts { blank.parts ≡ P.parts }
        requires workers { blank.parts ≡ workers + 1 }
        requires slots { AreSeated P.holds P.names slots.items }
        ensures hands { IfOk result (λ r. vec_len r.1 ≡ workers) }
        ensures all { IfOk result (λ r. vec_len r.1 + 1 ≡ P.parts) }
    {
        let (out, mut share) = blank.open::<P>();
        let hands = hands_of(alloc, &mut share, workers)?;
        Ok((Seats { slots, out }, hands, Hand { share }))
    }

    /// The slots of the seats. A slot has its task while that waits.
    pub fn slots(&self) -> &[Option<Loan<T>>]
        ensures { result.now ≡ self.now.slots.items }
    {
        self.slots.as_slice()
    }

    /// Takes the task of a seat. None where it isn't there, or there is no such seat.
    pub fn take(&mut self, mine: &mut Share<P>, seat: usize) -> Option<Loan<T>>
        requires one { mine.old.parts ≡ 1 }
        requires none { mine.old.amount ≡ 0 }
        ensures slot { result ≡ slice_index_or self.old.slots.items seat None }
        ensures others { self.new.slots.items ≡ slice_set self.old.slots.items seat None }
        ensures parts { mine.new.parts ≡ 1 }
        ensures taken { MatchOption result (mine.new.amount ≡ 0)
            (λ l. (mine.new.amount ≡ 1) × IsLoan P.holds P.names seat l) }
    {
        if seat >= self.slots.len() {
            return None;
        }
        let Seats { slots, out } = self;
        let loan = slots[seat].take()?;
        out.add(mine, 1);
        Some(loan)
    }

    /// Puts a task back into its seat.
    pub fn put_back(&mut self, mine: &mut Share<P>, loan: Loan<T>)
        requires one { mine.old.parts ≡ 1 }
        requires amount { mine.old.amount ≡ 1 }
        requires loan { IsLoan P.holds P.names loan.seat loan }
        ensures slots { self.new.slots.items ≡ slice_set self.old.slots.items loan.seat (Some loan) }
        ensures parts { mine.new.parts ≡ 1 }
        ensures none { mine.new.amount ≡ 0 }
    {
        let Seats { slots, out } = self;
        let seat = loan.seat;
        let loan = alone(loan, slots[seat].take());
        out.sub(mine, 1);
        slots[seat] = Some(loan);
    }

    /// The tasks, each in its seat. Condition: all hands are back.
    pub fn close(self, hands: Vec<Hand<P>>, own: Hand<P>) -> Vec<Option<Loan<T>>>
        requires { vec_len hands + 1 ≡ P.parts }
        ensures { AreSeated P.holds P.names result.items }
    {
        let Seats { slots, mut out } = self;
        let Hand { share: mut all } = own;
        merge_all(&mut all, hands);
        out.audit(&mut all);
        slots
    }
}
