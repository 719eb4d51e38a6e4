//! A text, put together on the stack in so much room.
ghost use Rattle.std.specs.Prelude.{◌≡◌, ℕ, List, [], ◌∷◌, ◌++◌, ◌+◌, ◌<◌, ◌≤◌, length};
ghost use Rattle.std.specs.Fmt.{decimal};
ghost use Rattle.cull_base.specs.Stream.{Writes};
ghost use Rattle.arrayvec.specs.ArrayVec.{array_vec_len};

use arrayvec::ArrayVec;
use cull_base::{Sink, SinkError, write_whole};
use itoa::Buffer;
use std::marker::Model;

/// Bytes, at most `ROOM`.
#[derive(Drop)]
pub struct Text<const ROOM: usize> {
    bytes: ArrayVec<u8, ROOM>,
}

/// A line, its newline too: fields parted by one space.
pub type Line = Text<128>;

/// Some lines, one after the other, that a sink is asked once to take.
pub type Lines = Text<4096>;

impl<const ROOM: usize> Model for Text<ROOM> {
    ghost use Rattle.std.specs.Prelude.{ℕ, List};

    ghost Value = { List ℕ };

    ghost view = { λ text. text.bytes.items };
}

impl<const ROOM: usize> Text<ROOM> {
    pub fn empty() -> Text<ROOM>
        ensures { result ≡ [] }
    {
        Text {
            bytes: ArrayVec::new(),
        }
    }

    /// A text that begins with a word. Condition: it has room.
    pub fn begin(word: &[u8]) -> Text<ROOM>
        requires { length word.now ≤ ROOM }
        ensures { result ≡ word.now }
    {
        let mut text = Text::empty();
        text.push(word);
        text
    }

    /// Appends bytes as they stand. Condition: there is room.
    pub fn push(&mut self, bytes: &[u8])
        requires { length self.old + length bytes.now ≤ ROOM }
        ensures { self.new ≡ self.old ++ bytes.now }
    {
        match self.bytes.try_extend_from_slice(bytes) {
            Ok(()) => {}
            Err(_) => unreachable!(),
        }
    }

    /// Appends a number in decimal. Condition: there is room for 20 digits.
    pub fn push_number(&mut self, number: u64)
        requires { length self.old + 20 ≤ ROOM }
        ensures value { self.new ≡ self.old ++ decimal number }
        ensures room { length self.new ≤ length self.old + 20 }
    {
        let mut digits = Buffer::new();
        self.push(digits.format(number).as_bytes());
    }

    /// The next field: a word. Condition: there is room.
    pub fn word(&mut self, word: &[u8])
        requires { length self.old + 1 + length word.now ≤ ROOM }
        ensures { self.new ≡ self.old ++ (32 ∷ word.now) }
    {
        self.push(b" ");
        self.push(word);
    }

    /// The next field: a number in decimal. Condition: there is room for a space and 20 digits.
    pub fn number(&mut self, number: u64)
        requires { length self.old + 21 ≤ ROOM }
        ensures value { self.new ≡ self.old ++ (32 ∷ decimal number) }
        ensures room { length self.new ≤ length self.old + 21 }
    {
        self.push(b" ");
        self.push_number(number);
    }

    /// Ends a line. Condition: there is room for one byte.
    pub fn end(&mut self)
        requires { length self.old < ROOM }
        ensures { self.new ≡ self.old ++ 10 ∷ [] }
    {
        self.push(b"\n");
    }

    pub fn clear(&mut self)
        ensures { self.new ≡ [] }
    {
        self.bytes.clear();
    }

    pub fn as_slice(&self) -> &[u8]
        ensures { result.now ≡ self.now }
    {
        self.bytes.as_slice()
    }

    /// Writes the text whole. Failed and Memory are the sink's; after an error a front of the text that isn't the whole
    /// was appended.
    pub fn write_to<W: Sink>(&self, sink: &mut W) -> Result<(), SinkError>
        ensures { Writes (W.says sink.old) (W.says sink.new) result self.now }
    {
        write_whole(sink, self.as_slice())
    }
}
