//! Where bytes come from.
ghost use Rattle.std.specs.Prelude.{◌≡◌, [], ◌+◌, ◌<◌, ◌≤◌, ◌↔◌, length, take, min, Some};
ghost use Rattle.std.specs.Prelude.{IfOk, IsOk, OnOk, OnErr, IsErr};
ghost use Rattle.std.specs.List.{Contains};
ghost use Rattle.cull_base.specs.Stream.{SourceSays, HasNoneLeft, Rose, TakesFront, next_count, SourceBytes};
ghost use Rattle.cull_base.specs.Stream.{IsAtEnd, Takes, TakesInTurns};

use crate::memory::Failed;
use std::marker::Model;

/// A source of bytes.
pub trait Source {
    /// The bytes that are left, where they are told, how often it has failed, and a number that a call raises by one at
    /// most.
    ghost says: { Self → SourceSays };

    /// Takes bytes from the beginning of what is left into the beginning of the buffer, and answers how many. Ok(0) for a
    /// buffer that isn't empty is the end. Err: Failed only where the count of faults rose; then no byte was taken.
    fn read(&mut self, buf: &mut [u8]) -> Result<usize, Failed>
        ensures within { IfOk result (λ n. n ≤ length buf.old) }
        ensures taken { IfOk result (λ n. TakesFront (says self.old).left (says self.new).left buf.new n) }
        ensures end { IfOk result (λ n. n ≡ 0 → 0 < length buf.old → HasNoneLeft (says self.old)) }
        ensures failed { OnErr result (Rose (says self.old).faults (says self.new).faults) }
        ensures unchanged { OnErr result ((says self.new).left ≡ (says self.old).left) }
        ensures faults_stay { (says self.old).faults ≤ (says self.new).faults }
        ensures turn { (says self.new).turns ≤ (says self.old).turns + 1 };
}

/// Reads until the buffer is full or the source is at its end, and answers how many bytes came.
pub fn fill<S: Source>(source: &mut S, buffer: &mut [u8]) -> Result<usize, Failed>
    ensures within { IfOk result (λ n. n ≤ length buffer.old) }
    ensures taken { IfOk result
        (λ n. Takes (S.says source.old).left (S.says source.new).left (take n buffer.new)) }
    ensures ended { IfOk result (λ n. n < length buffer.old → IsAtEnd (S.says source.new).left) }
    ensures failed { OnErr result (Rose (S.says source.old).faults (S.says source.new).faults) }
    ensures faults_stay { (S.says source.old).faults ≤ (S.says source.new).faults }
    ensures turns { (S.says source.new).turns ≤ (S.says source.old).turns + length buffer.old }
    ensures takes { TakesInTurns (length buffer.old) (S.says source.old) (S.says source.new) }
{
    let mut filled = 0;
    while filled < buffer.len() {
        let n = source.read(&mut buffer[filled..])?;
        if n == 0 {
            return Ok(filled);
        }
        filled += n;
    }
    Ok(filled)
}

// Copies the beginning of the bytes to the beginning of the buffer, at most so many.
fn copy_front(bytes: &[u8], buf: &mut [u8], most: usize) -> usize
    ensures amount { result ≡ min most (min (length buf.old) (length bytes.now)) }
    ensures copied { take result buf.new ≡ take result bytes.now }
{
    let n = most.min(buf.len().min(bytes.len()));
    buf[..n].copy_from_slice(&bytes[..n]);
    n
}

/// A source in memory that gives at most a given number of bytes a call, and fails in given calls.
#[derive(Drop)]
pub struct BytesSource {
    bytes: Vec<u8>,
    taken: usize,
    most: usize,
    fails: Vec<u64>,
    calls: u64,
    faults: u64,
}

impl Model for BytesSource {
    ghost use Rattle.std.specs.Prelude.{◌≤◌, length, drop};
    ghost use Rattle.cull_base.specs.Stream.{SourceBytes};

    ghost Value = { SourceBytes };

    ghost view = { λ s. record {
      left = drop s.taken s.bytes.items;
      most = s.most;
      fails = s.fails.items;
      calls = s.calls;
      faults = s.faults;
    } };

    ghost invariant = { λ s. (s.taken ≤ length s.bytes.items) × (1 ≤ s.most) };
}

impl BytesSource {
    /// A source that gives the least of `most`, the buffer's length and what is left in a call. It fails in the calls
    /// whose numbers, counted from 1, are in `fails`, and in no other. Condition: `most` is at least 1.
    pub fn new(bytes: Vec<u8>, most: usize, fails: Vec<u64>) -> BytesSource
        requires { 1 ≤ most }
        ensures { result
            ≡ record { left = bytes.items; most = most; fails = fails.items; calls = 0; faults = 0 } }
    {
        BytesSource {
            bytes,
            taken: 0,
            most,
            fails,
            calls: 0,
            faults: 0,
        }
    }
}

impl Source for BytesSource {
    ghost says = { λ s. record { left = Some s.left; faults = s.faults; turns = s.calls } };

    fn read(&mut self, buf: &mut [u8]) -> Result<usize, Failed>
        ensures within { IfOk result (λ n. n ≤ length buf.old) }
        ensures taken { IfOk result (λ n. TakesFront (Some self.old.left) (Some self.new.left) buf.new n) }
        ensures end { IfOk result (λ n. n ≡ 0 → 0 < length buf.old → self.old.left ≡ []) }
        ensures failed { OnErr result (Rose self.old.faults self.new.faults) }
        ensures unchanged { OnErr result (self.new.left ≡ self.old.left) }
        ensures faults_stay { self.old.faults ≤ self.new.faults }
        ensures turn { self.new.calls ≤ self.old.calls + 1 }

        ensures numbered { IsErr result ↔ Contains self.old.fails self.new.calls }
        ensures call { self.new.calls ≡ next_count self.old.calls }
        ensures amount { IfOk result
            (λ n. n ≡ min self.old.most (min (length buf.old) (length self.old.left))) }
        ensures counts_ok { OnOk result (self.new.faults ≡ self.old.faults) }
        ensures counts_failed { OnErr result (self.new.faults ≡ next_count self.old.faults) }
        ensures settings { (self.new.most ≡ self.old.most) × (self.new.fails ≡ self.old.fails) }
    {
        self.calls = self.calls.saturating_add(1);
        if self.fails.contains(&self.calls) {
            self.faults = self.faults.saturating_add(1);
            return Err(Failed);
        }
        let n = copy_front(&self.bytes[self.taken..], buf, self.most);
        self.taken += n;
        Ok(n)
    }
}

/// A source in memory that gives all that the buffer has room for, and never fails.
#[derive(Drop)]
pub struct SureSource {
    bytes: Vec<u8>,
    taken: usize,
}

impl Model for SureSource {
    ghost use Rattle.std.specs.Prelude.{◌≤◌, ℕ, List, length, drop};

    ghost Value = { List ℕ };

    ghost view = { λ s. drop s.taken s.bytes.items };

    ghost invariant = { λ s. s.taken ≤ length s.bytes.items };
}

impl SureSource {
    /// A source that gives these bytes.
    pub fn new(bytes: Vec<u8>) -> SureSource
        ensures { result ≡ bytes.items }
    {
        SureSource { bytes, taken: 0 }
    }
}

impl Source for SureSource {
    ghost says = { λ s. record { left = Some s; faults = 0; turns = 0 } };

    fn read(&mut self, buf: &mut [u8]) -> Result<usize, Failed>
        ensures amount { IfOk result (λ n. n ≡ min (length buf.old) (length self.old)) }
        ensures taken { IfOk result (λ n. TakesFront (Some self.old) (Some self.new) buf.new n) }
        ensures sure { IsOk result }
    {
        let n = copy_front(&self.bytes[self.taken..], buf, buf.len());
        self.taken += n;
        Ok(n)
    }
}
