//! Eight numbers at once: the upper halves of their products, their reciprocals, and whole quotients read off
//! fixed-point numbers.
#![tactic(auto)]

mod high;
mod newton;
mod reciprocals;
mod table;
mod whole;

pub use high::{high_halves, mul_high};
pub use reciprocals::Reciprocals;
pub use whole::whole_part;
