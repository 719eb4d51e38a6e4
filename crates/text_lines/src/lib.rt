//! Texts of fields and lines, put together on the stack and written piece by piece.
#![tactic(auto)]

mod text;

pub use text::{Line, Lines, Text};
