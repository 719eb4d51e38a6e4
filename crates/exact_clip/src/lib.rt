//! Clip coordinates of positions by a matrix, all of them floats, in whole numbers of a unit that the near distance
//! gives. The product of two floats is rounded down to a whole number of units, so a coordinate is held from below, by
//! less than four units. A product of 2^60 units or more, which is 2^29 near distances at least, is lost, and so is its
//! position. Of floats that aren't below 2^-126 no product below 2^59 units is lost.
#![tactic(auto)]

mod boxes;
mod column;
mod held;
mod near;
mod parts;
mod rows;
mod term;

pub use held::Held;
pub use near::Near;
pub use rows::Rows;
