//! Tests of cells that are read while they are drawn.
#![tactic(auto)]

#[cfg(test)]
mod tests;
