//! Tests of the command that writes pictures.
#![tactic(auto)]

#[cfg(test)]
mod tests;
