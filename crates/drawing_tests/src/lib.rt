//! Tests of how pieces are drawn into tiles on one thread.
#![tactic(auto)]

#[cfg(test)]
mod tests;
