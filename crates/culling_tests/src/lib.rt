//! Tests of what whole runs draw and hide.
#![tactic(auto)]

#[cfg(test)]
mod tests;
