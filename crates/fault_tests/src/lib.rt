//! Tests of runs that are refused or that end in a fault.
#![tactic(auto)]

#[cfg(test)]
mod tests;
