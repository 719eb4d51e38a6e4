//! The pieces of a frame.
ghost use Rattle.std.specs.Prelude.{◌≡◌, ℕ, [], ◌∷◌, ◌++◌, ◌+◌, length, ◌<◌, ◌≤◌, IfOk, slice_index_or};

use crate::memory::Memory;
use crate::screen_tri::ScreenTri;
use crate::size::Size;
use std::alloc::Global;
use std::marker::Model;

/// The pieces of a frame in submission order, with room for a given number of them.
#[derive(Drop)]
pub struct FrameList {
    size: Size,
    room: u32,
    pieces: Vec<ScreenTri>,
}

impl Model for FrameList {
    ghost use Rattle.std.specs.Prelude.{◌≤◌, length, vec_capacity};
    ghost use Rattle.cull_base.specs.Tiles.{FrameListOf, ArePieces};

    ghost Value = { FrameListOf };

    ghost view = { λ f. record { list = record { size = f.size; members = f.pieces.items }; room = f.room } };

    ghost invariant = { λ f. (length f.pieces.items ≤ f.room) × (f.room ≤ vec_capacity f.pieces)
        × (f.room ≤ 131072) × ArePieces f.pieces.items };
}

impl FrameList {
    ghost use Rattle.cull_base.specs.Tiles.{ArePieces, with_member, with_members};

    /// An empty list with room for so many pieces. All memory is allocated here. Err: out of memory. Condition: `room` is
    /// at most 131,072.
    pub fn with_room(alloc: Global, size: Size, room: u32) -> Result<FrameList, Memory>
        requires { room ≤ 131072 }
        ensures { IfOk result (λ f. f ≡ record { list = record { size = size; members = [] }; room = room }) }
    {
        match Vec::with_capacity(alloc, room as usize) {
            Ok(pieces) => Ok(FrameList { size, room, pieces }),
            Err(_) => Err(Memory),
        }
    }

    /// Appends a piece. Condition: the length is below the room.
    pub fn push(&mut self, tri: ScreenTri)
        requires { length self.old.list.members < self.old.room }
        ensures { self.new ≡ with_member self.old tri }
    {
        // an accessor tells what is held of a piece
        let _nearness = tri.q();
        self.pieces.push_reserved(tri);
    }

    /// Appends the pieces of another list. Condition: there is room for them.
    pub fn append(&mut self, other: &FrameList)
        requires { length self.old.list.members + length other.now.list.members ≤ self.old.room }
        ensures { self.new ≡ with_members self.old other.now.list.members }
    {
        for tri in other.pieces.as_slice() {
            self.push(*tri);
        }
    }

    /// How many pieces there are.
    pub fn len(&self) -> u32
        ensures value { result ≡ length self.now.list.members }
        ensures within { result ≤ self.now.room }
        ensures small { self.now.room ≤ 131072 }
        ensures pieces { ArePieces self.now.list.members }
    {
        self.pieces.len() as u32
    }

    /// The size of the screen that the pieces were made for.
    pub fn size(&self) -> Size
        ensures { result ≡ self.now.list.size }
    {
        self.size
    }

    /// Piece i. Condition: i is below the length.
    pub fn get(&self, i: u32) -> &ScreenTri
        requires { i < length self.now.list.members }
        ensures { result.now ≡ slice_index_or self.now.list.members i result.now }
    {
        &self.pieces[i as usize]
    }
}
