//! Bytes of a log that were taken from its source and not yet looked at, in a buffer of a fixed size.
ghost use Rattle.std.specs.Prelude.{◌≡◌, ℕ, List, [], ◌∷◌, ◌<◌, ◌≤◌, length, drop, None, Some, IfOk, IfSome, OnErr};
ghost use Rattle.cull_base.specs.Stream.{IsAtEnd, Rose};
ghost use Rattle.live_check.specs.Waiting.{waiting};

use cull_base::{Failed, Source, fill};
use std::marker::Model;

/// How many bytes are taken from a log at once.
const ROOM: usize = 4096;

/// The buffer: the bytes from `next` to before `end` wait.
#[derive(Drop)]
pub struct Unread {
    bytes: [u8; ROOM],
    next: usize,
    end: usize,
}

impl Model for Unread {
    ghost use Rattle.std.specs.Prelude.{ℕ, List, ◌-◌, ◌≤◌, length, take, drop};

    ghost Value = { List ℕ };

    ghost view = { λ u. take (u.end - u.next) (drop u.next u.bytes) };

    ghost invariant = { λ u. (u.next ≤ u.end) × (u.end ≤ length u.bytes) };
}

impl Unread {
    /// No byte waits.
    pub fn new() -> Unread
        ensures { result ≡ [] }
    {
        Unread {
            bytes: [0; ROOM],
            next: 0,
            end: 0,
        }
    }

    // The first byte that waits.
    #[inline(always)]
    fn first(&self) -> Option<u8>
        ensures some { IfSome result (λ b. (rest : List ℕ) × (self.now ≡ b ∷ rest)) }
        ensures none { result ≡ None → self.now ≡ [] }
    {
        if self.next < self.end {
            Some(self.bytes[self.next])
        } else {
            None
        }
    }

    /// The next byte, which is still to be skipped, or none at the log's end. Err: the source failed.
    #[inline(always)]
    pub fn peek<S: Source>(&mut self, log: &mut S) -> Result<Option<u8>, Failed>
        ensures same { IfOk result (λ _. waiting self.new (S.says log.new).left
            ≡ waiting self.old (S.says log.old).left) }
        ensures some { IfOk result (λ o. IfSome o (λ b. (rest : List ℕ) × (self.new ≡ b ∷ rest))) }
        ensures none { IfOk result (λ o. o ≡ None → (self.new ≡ []) × IsAtEnd (S.says log.new).left) }
        ensures failed { OnErr result (Rose (S.says log.old).faults (S.says log.new).faults) }
        ensures faults_stay { (S.says log.old).faults ≤ (S.says log.new).faults }
    {
        if let Some(byte) = self.first() {
            return Ok(Some(byte));
        }
        self.refill(log)?;
        Ok(self.first())
    }

    // Takes as many bytes as there is room for, or all that are left. Condition: none waits.
    fn refill<S: Source>(&mut self, log: &mut S) -> Result<(), Failed>
        requires { self.old ≡ [] }
        ensures same { IfOk result (λ _. waiting self.new (S.says log.new).left
            ≡ waiting self.old (S.says log.old).left) }
        ensures ended { IfOk result (λ _. self.new ≡ [] → IsAtEnd (S.says log.new).left) }
        ensures failed { OnErr result (Rose (S.says log.old).faults (S.says log.new).faults) }
        ensures faults_stay { (S.says log.old).faults ≤ (S.says log.new).faults }
    {
        self.next = 0;
        self.end = 0;
        self.end = fill(log, &mut self.bytes)?;
        Ok(())
    }

    /// Goes past the next byte. Condition: one waits.
    #[inline(always)]
    pub fn skip(&mut self)
        requires { 0 < length self.old }
        ensures { self.new ≡ drop 1 self.old }
    {
        self.next += 1;
    }
}
