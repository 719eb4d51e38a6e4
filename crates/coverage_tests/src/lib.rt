//! Tests of what a piece covers and of how near it is at least there, beside plain loops.
#![tactic(auto)]

#[cfg(test)]
mod tests;
