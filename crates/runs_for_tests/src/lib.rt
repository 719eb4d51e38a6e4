//! What tests of whole runs share: runs of a command over bytes in memory, and what is asserted of their ends.
#![tactic(auto)]

mod runs;

pub use runs::{
    CULL, Ended, LARGE, NEVER, PICTURE, UPGRADE, assert_ended, assert_reports, assert_writes,
    read_with_fault, run_gated, run_over, run_with, sink, status_of, status_over,
    written_with_fault,
};
