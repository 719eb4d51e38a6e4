//! Tests of pools of workers that take bins from each other.
#![tactic(auto)]

#[cfg(test)]
mod tests;
