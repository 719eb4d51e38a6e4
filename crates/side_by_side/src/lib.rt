//! Work on the elements of a slice, shared among threads that one caller starts in a row.
#![tactic(auto)]

mod shares;

pub use shares::{for_each_beside, for_each_share};
