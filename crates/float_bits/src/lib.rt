//! What the bits of 32-bit floats stand for, exactly: a whole number of parts of 2^-149, or no number.
#![tactic(auto)]

mod number;

pub use number::{Number, decoded, is_number, number_of};
