//! What is said of a log, and why it couldn't be said.

use cull_base::{Failed, Memory};

/// Whether a log may be one of `live`.
#[derive(Clone, Copy, Debug, PartialEq, Eq)]
pub enum LogAnswer {
    /// It is a whole log, and nothing follows it.
    Accepted,
    /// It isn't; so many of its lines are good.
    Refused(u64),
}

/// Why there is no answer.
#[derive(Clone, Copy, Debug, PartialEq, Eq)]
pub enum LogError {
    /// The log couldn't be read: its count of faults rose.
    Read,
    /// Out of memory.
    Memory,
}

impl From<Failed> for LogError {
    ghost use Rattle.std.specs.Prelude.{◌≡◌};
    ghost use Rattle.live_check.specs.declared.answer.LogError.TheVariants as errors;

    ghost from_gives = { λ _ e. e ≡ errors.Read };

    fn from(_: Failed) -> LogError {
        LogError::Read
    }
}

impl From<Memory> for LogError {
    ghost use Rattle.std.specs.Prelude.{◌≡◌};
    ghost use Rattle.live_check.specs.declared.answer.LogError.TheVariants as errors;

    ghost from_gives = { λ _ e. e ≡ errors.Memory };

    fn from(_: Memory) -> LogError {
        LogError::Memory
    }
}
