//! Tests of how work is shared out: bins, batches and their parts, and tasks that wait in seats.
#![tactic(auto)]

#[cfg(test)]
mod tests;
