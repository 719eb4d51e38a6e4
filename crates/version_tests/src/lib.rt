//! Tests of scenes in version 2, and of scenes that are made of parts.
#![tactic(auto)]

#[cfg(test)]
mod tests;
