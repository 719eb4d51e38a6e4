//! Tests of how vertices become pieces: cameras, the near plane, and setup.
#![tactic(auto)]

#[cfg(test)]
mod tests;
