//! Tasks that wait under a lock until a worker takes one, and that are all there again once the workers have ended; and
//! things that are so made, each by whoever comes.
#![tactic(auto)]

mod hands;
mod locked;
mod pool;
mod seal;
mod seats;

pub use hands::Hand;
pub use locked::{give_back, take_from};
pub use pool::{Makes, make_each};
pub use seats::{Loan, Seating, Seats};
