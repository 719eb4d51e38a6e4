//! Tests of the verdicts of a frame, of the lines that tell them, and of the masks of a frame's pieces.
#![tactic(auto)]

#[cfg(test)]
mod tests;
