//! Tests of scenes: what is read, what is refused, and what is written.
#![tactic(auto)]

#[cfg(test)]
mod tests;
