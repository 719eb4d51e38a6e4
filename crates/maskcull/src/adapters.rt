//! Standard input, output and error as sources and sinks. They tell no bytes; each failure raises their counts.
ghost use Rattle.std.specs.Prelude.{◌≡◌, None, IfSome, length, ◌<◌, ◌≤◌};

use cull_base::{Failed, Sink, SinkError, Source};
use std::io::{Read, Write};

/// A reader as a source.
#[derive(Drop)]
pub struct Input<R: Read> {
    reader: R,
    faults: u64,
}

impl<R: Read> Input<R> {
    pub fn new(reader: R) -> Input<R>
        ensures { result ≡ record { reader = reader; faults = 0 } }
    {
        Input { reader, faults: 0 }
    }
}

impl<R: Read> Source for Input<R> {
    ghost says = { λ s. record { left = None; faults = s.faults; turns = 0 } };

    fn read(&mut self, buf: &mut [u8]) -> Result<usize, Failed> {
        match self.reader.read(buf) {
            Ok(n) => Ok(n),
            Err(_) => {
                self.faults = self.faults.saturating_add(1);
                Err(Failed)
            }
        }
    }
}

// Writes and flushes the beginning of a piece, and says how much of it; None where that failed or nothing was taken of a
// piece that isn't empty.
fn write_flushed<W: Write>(writer: &mut W, piece: &[u8]) -> Option<usize>
    ensures within { IfSome result (λ n. n ≤ length piece.now) }
    ensures some { IfSome result (λ n. 0 < length piece.now → 0 < n) }
{
    let n = writer.write(piece).ok()?;
    writer.flush().ok()?;
    if n == 0 && !piece.is_empty() {
        return None;
    }
    Some(n)
}

/// A writer as a sink. It flushes after each write; a flush that fails, and a write that takes nothing, count as
/// failures.
#[derive(Drop)]
pub struct Output<W: Write> {
    writer: W,
    faults: u64,
}

impl<W: Write> Output<W> {
    pub fn new(writer: W) -> Output<W>
        ensures { result ≡ record { writer = writer; faults = 0 } }
    {
        Output { writer, faults: 0 }
    }
}

impl<W: Write> Sink for Output<W> {
    ghost says = { λ s. record { holding = None; faults = s.faults; refusals = 0 } };

    fn write(&mut self, piece: &[u8]) -> Result<usize, SinkError> {
        match write_flushed(&mut self.writer, piece) {
            Some(n) => Ok(n),
            None => {
                self.faults = self.faults.saturating_add(1);
                Err(SinkError::Failed)
            }
        }
    }
}

#[cfg(test)]
mod tests;
