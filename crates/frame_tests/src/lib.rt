//! Tests of frames that workers draw over bins and queues, through cells that are read meanwhile.
#![tactic(auto)]

#[cfg(test)]
mod tests;
