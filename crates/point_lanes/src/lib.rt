//! Where vertices stand on the screen, eight at once, in whole numbers of 32 bits.
#![tactic(auto)]

mod divisors;
mod nearness;
mod places;
mod rows;
mod vertices;

pub use divisors::Divisors;
pub use nearness::NearnessScale;
pub use rows::SmallRow;
pub use vertices::Points;
