//! Tests of what command lines name, and of what is said of those that are refused.
#![tactic(auto)]

#[cfg(test)]
mod tests;
