//! Tests of runs that take boxes in groups.
#![tactic(auto)]

#[cfg(test)]
mod tests;
