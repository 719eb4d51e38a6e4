//! Errors: out of memory, and sources and sinks that fail.

/// Out of memory.
#[derive(Clone, Copy, Debug, PartialEq, Eq)]
pub struct Memory;

/// A source failed: its count of faults rose.
#[derive(Clone, Copy, Debug, PartialEq, Eq)]
pub struct Failed;

/// Why a sink took nothing of a piece.
#[derive(Clone, Copy, Debug, PartialEq, Eq)]
pub enum SinkError {
    /// It failed: its count of faults rose.
    Failed,
    /// Out of memory: its count of refused growths rose.
    Memory,
}
