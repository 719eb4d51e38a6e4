//! Live logs are judged here: whether `live` may have written one, decided by the scene alone, on one thread, in one
//! pass over the log and with no line kept.
#![tactic(auto)]

mod answer;
mod check;
mod frame;
mod line;
mod tiles;
mod unread;
mod words;

pub use answer::{LogAnswer, LogError};
pub use check::check_log;
