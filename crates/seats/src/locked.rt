//! The steps of a worker's turn on seats under a lock, which is held no longer than a step takes.
ghost use Rattle.std.specs.Prelude.{◌≡◌, MatchOption};
ghost use Rattle.seats.specs.Seats.{IsLoan};

use crate::seats::{Loan, Seating, Seats};
use std::sync::ledger::Share;
use std::sync::{Mutex, Wait};

/// Takes the task of the seat that `choose` picks from the slots as they are then. None where it isn't there. Conditions:
/// `choose` can always be called, and the worker's share is one part, without a task.
pub fn take_from<P: Seating<T>, T: Drop, R: Wait, C: Fn(&[Option<Loan<T>>]) -> usize>(
    rt: &R,
    seats: &Mutex<Seats<P, T>>,
    mine: &mut Share<P>,
    choose: &C,
) -> Option<Loan<T>>
    requires choose { C.IsAlwaysCallable choose.now }
    requires one { mine.old.parts ≡ 1 }
    requires none { mine.old.amount ≡ 0 }
    ensures parts { mine.new.parts ≡ 1 }
    ensures taken { MatchOption result (mine.new.amount ≡ 0)
        (λ l. (mine.new.amount ≡ 1) × IsLoan P.holds P.names l.seat l) }
{
    let mut seats = seats.lock(rt);
    let seat = choose(seats.slots());
    seats.take(mine, seat)
}

/// Puts a task back into its seat. Conditions: the worker's share is one part, with one task, and the task is one of its
/// seat's.
pub fn give_back<P: Seating<T>, T: Drop, R: Wait>(
    rt: &R,
    seats: &Mutex<Seats<P, T>>,
    mine: &mut Share<P>,
    loan: Loan<T>,
)
    requires one { mine.old.parts ≡ 1 }
    requires amount { mine.old.amount ≡ 1 }
    requires loan { IsLoan P.holds P.names loan.seat loan }
    ensures parts { mine.new.parts ≡ 1 }
    ensures none { mine.new.amount ≡ 0 }
{
    seats.lock(rt).put_back(mine, loan);
}
