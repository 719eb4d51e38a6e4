//! The program's command line: the table of commands, and what a command line names by it.
#![tactic(auto)]

mod laws;
mod program;
mod rows;
mod settings;
mod table;
mod values;
mod words;

pub use laws::{named_or_refused, told_table};
pub use settings::Settings;
pub use table::{BareCommand, CheckWords, Command, CullWords, DemoWords, LiveWords, PictureWords};
pub use words::{Refusal, command_of};

/// The version of the program and of the library for C.
pub const VERSION: &str = "0.1.0";
