//! The program's commands: from the words of a command line and the bytes of a scene to a report, over any source, any
//! sinks and any gate.
#![tactic(auto)]

mod commands;
mod laws;
mod refusal;

pub use commands::run;
pub use frame_reports::{Failure, Status};
pub use laws::{cuts_leave_fronts, done_is_whole, runs_end_by_their_input};
