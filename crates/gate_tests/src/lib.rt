//! Tests of frames whose bins, batches and looks a gate holds up until others have come as far.
#![tactic(auto)]

#[cfg(test)]
mod tests;
