//! Tests of the commands that look at objects while frames are drawn, and that check what was noted.
#![tactic(auto)]

#[cfg(test)]
mod tests;
