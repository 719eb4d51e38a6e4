//! What is counted of objects beside their verdicts.

/// Of some objects how many hidden groups begin there, and how many of the members of these count.
#[derive(Clone, Copy, Debug, PartialEq, Eq)]
pub struct Tally {
    pub hidden: u32,
    pub members: u32,
}
