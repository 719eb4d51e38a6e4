//! Where bytes go.
ghost use Rattle.std.specs.Prelude.{◌≡◌, [], ◌++◌, ◌<◌, ◌≤◌, ◌↔◌, length, take, drop, min, Some};
ghost use Rattle.std.specs.Prelude.{IfOk, OnOk, OnErr, IsErrOf};
ghost use Rattle.std.specs.List.{Contains};
ghost use Rattle.cull_base.specs.Stream.{SinkSays, Rose, Appends, Writes, next_count, CountsNone, CountsFault, CountsRefusal};

use crate::memory::SinkError;
use std::alloc::Global;
use std::marker::Model;

/// A sink of bytes.
pub trait Sink {
    /// The bytes that it holds, where they are told, how often it has failed, and how often it could not grow.
    ghost says: { Self → SinkSays };

    /// Appends the beginning of the piece and answers its length, which is at least 1 where the piece isn't empty. Err:
    /// Failed only where the count of faults rose, Memory only where that of refused growths rose; then nothing was
    /// appended.
    fn write(&mut self, piece: &[u8]) -> Result<usize, SinkError>
        ensures within { IfOk result (λ n. n ≤ length piece.now) }
        ensures some { IfOk result (λ n. 0 < length piece.now → 0 < n) }
        ensures appended { IfOk result (λ n. Appends (says self.old) (says self.new) (take n piece.now)) }
        ensures unchanged { OnErr result ((says self.new).holding ≡ (says self.old).holding) }
        ensures failed { IsErrOf result SinkError.Failed
            → Rose (says self.old).faults (says self.new).faults }
        ensures memory { IsErrOf result SinkError.Memory
            → Rose (says self.old).refusals (says self.new).refusals }
        ensures faults_stay { (says self.old).faults ≤ (says self.new).faults }
        ensures refusals_stay { (says self.old).refusals ≤ (says self.new).refusals };
}

// What of a piece is left behind its first n bytes.
fn behind(piece: &[u8], n: usize) -> &[u8]
    requires { n ≤ length piece.now }
    ensures { result.now ≡ drop n piece.now }
{
    &piece[n..]
}

/// Appends the whole piece, in as many calls as the sink needs. After an error the beginning of the piece was appended,
/// and not the whole.
pub fn write_whole<W: Sink>(sink: &mut W, piece: &[u8]) -> Result<(), SinkError>
    ensures { Writes (W.says sink.old) (W.says sink.new) result piece.now }
{
    let mut rest = piece;
    while !rest.is_empty() {
        let n = sink.write(rest)?;
        rest = behind(rest, n);
    }
    Ok(())
}

/// A sink in memory that takes at most a given number of bytes a call, and fails in given calls.
#[derive(Drop)]
pub struct BytesSink {
    bytes: Vec<u8>,
    most: usize,
    fails: Vec<u64>,
    calls: u64,
    faults: u64,
    refusals: u64,
}

impl Model for BytesSink {
    ghost use Rattle.std.specs.Prelude.{◌≤◌};
    ghost use Rattle.cull_base.specs.Stream.{SinkBytes};

    ghost Value = { SinkBytes };

    ghost view = { λ s. record {
      held = s.bytes.items;
      most = s.most;
      fails = s.fails.items;
      calls = s.calls;
      faults = s.faults;
      refusals = s.refusals;
    } };

    ghost invariant = { λ s. 1 ≤ s.most };
}

impl BytesSink {
    /// An empty sink that takes the least of `most` and the piece's length in a call. It fails in the calls whose numbers,
    /// counted from 1, are in `fails`, and in no other. Condition: `most` is at least 1.
    pub fn new(alloc: Global, most: usize, fails: Vec<u64>) -> BytesSink
        requires { 1 ≤ most }
        ensures { result
            ≡ record { held = []; most = most; fails = fails.items; calls = 0; faults = 0; refusals = 0 } }
    {
        BytesSink {
            bytes: Vec::new(alloc),
            most,
            fails,
            calls: 0,
            faults: 0,
            refusals: 0,
        }
    }

    /// The bytes that it holds.
    pub fn held(&self) -> &[u8]
        ensures { result.now ≡ self.now.held }
    {
        &self.bytes
    }
}

impl Sink for BytesSink {
    ghost says = { λ s. record { holding = Some s.held; faults = s.faults; refusals = s.refusals } };

    fn write(&mut self, piece: &[u8]) -> Result<usize, SinkError>
        ensures within { IfOk result (λ n. n ≤ length piece.now) }
        ensures some { IfOk result (λ n. 0 < length piece.now → 0 < n) }
        ensures appended { IfOk result (λ n. self.new.held ≡ self.old.held ++ take n piece.now) }
        ensures unchanged { OnErr result (self.new.held ≡ self.old.held) }
        ensures failed { IsErrOf result SinkError.Failed → Rose self.old.faults self.new.faults }
        ensures memory { IsErrOf result SinkError.Memory → Rose self.old.refusals self.new.refusals }
        ensures faults_stay { self.old.faults ≤ self.new.faults }
        ensures refusals_stay { self.old.refusals ≤ self.new.refusals }

        ensures numbered { IsErrOf result SinkError.Failed ↔ Contains self.old.fails self.new.calls }
        ensures call { self.new.calls ≡ next_count self.old.calls }
        ensures amount { IfOk result (λ n. n ≡ min self.old.most (length piece.now)) }
        ensures counts_ok { OnOk result (CountsNone self.old self.new) }
        ensures counts_failed { IsErrOf result SinkError.Failed → CountsFault self.old self.new }
        ensures counts_memory { IsErrOf result SinkError.Memory → CountsRefusal self.old self.new }
        ensures settings { (self.new.most ≡ self.old.most) × (self.new.fails ≡ self.old.fails) }
    {
        self.calls = self.calls.saturating_add(1);
        if self.fails.contains(&self.calls) {
            self.faults = self.faults.saturating_add(1);
            return Err(SinkError::Failed);
        }
        let n = self.most.min(piece.len());
        if self.bytes.extend_from_slice(&piece[..n]).is_err() {
            self.refusals = self.refusals.saturating_add(1);
            return Err(SinkError::Memory);
        }
        Ok(n)
    }
}

/// A sink in memory that takes each piece whole. It never fails, but may be out of memory.
#[derive(Drop)]
pub struct SureSink {
    bytes: Vec<u8>,
    refusals: u64,
}

impl Model for SureSink {
    ghost use Rattle.cull_base.specs.Stream.{SureBytes};

    ghost Value = { SureBytes };

    ghost view = { λ s. record { held = s.bytes.items; refusals = s.refusals } };
}

impl SureSink {
    /// An empty sink.
    pub fn new(alloc: Global) -> SureSink
        ensures { result ≡ record { held = []; refusals = 0 } }
    {
        SureSink {
            bytes: Vec::new(alloc),
            refusals: 0,
        }
    }

    /// The bytes that it holds.
    pub fn held(&self) -> &[u8]
        ensures { result.now ≡ self.now.held }
    {
        &self.bytes
    }
}

impl Sink for SureSink {
    ghost says = { λ s. record { holding = Some s.held; faults = 0; refusals = s.refusals } };

    fn write(&mut self, piece: &[u8]) -> Result<usize, SinkError>
        ensures within { IfOk result (λ n. n ≡ length piece.now) }
        ensures appended { OnOk result (self.new.held ≡ self.old.held ++ piece.now) }
        ensures unchanged { OnErr result (self.new.held ≡ self.old.held) }
        ensures memory { OnErr result (result ≡ Err SinkError.Memory) }
        ensures counts_memory { OnErr result (self.new.refusals ≡ next_count self.old.refusals) }
        ensures counts_ok { OnOk result (self.new.refusals ≡ self.old.refusals) }
        ensures refusals_stay { self.old.refusals ≤ self.new.refusals }
    {
        if self.bytes.extend_from_slice(piece).is_err() {
            self.refusals = self.refusals.saturating_add(1);
            return Err(SinkError::Memory);
        }
        Ok(piece.len())
    }
}
