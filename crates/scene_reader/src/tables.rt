//! The tables of a scene, read entry by entry. Room is taken once for each, by the count of an accepted header.
ghost use Rattle.std.specs.Prelude.{◌≡◌, ℕ, List, ◌+◌, ◌*◌, ◌^◌, ◌<◌, ◌≤◌, length, IfOk};
ghost use Rattle.scene_reader.specs.Fault.{row_of, tri_of};
ghost use Rattle.scene_reader.specs.Reading.{TakesTable, Fetches, IsWithin};
ghost use Rattle.std.proofs.Common.{arith};

use crate::error::SceneError;
use crate::intake::fetch;
use crate::numbers::{row_of, words_of};
use cull_base::{Source, Tri};
use std::alloc::Global;

/// Bytes of a vertex, of a triangle and of a camera.
pub const VERTEX: u32 = 12;

pub const TRIANGLE: u32 = 12;

pub const CAMERA: u32 = 48;

/// What stands in a table, in so many bytes.
pub trait Entry: Drop {
    ghost SIZE: { ℕ };

    /// What an entry's bytes are read as.
    ghost value: { List ℕ → Self };

    const SIZE: u32;

    fn read(bytes: &[u8]) -> Self
        requires { length bytes.now ≡ SIZE }
        ensures { result ≡ value bytes.now };

    ghost fits: { SIZE ≤ 48 };
}

impl Entry for [i32; 3] {
    ghost SIZE = { 12 };

    ghost value = { row_of 3 };

    ghost fits = { Prim.omega arith };

    const SIZE: u32 = VERTEX;

    fn read(bytes: &[u8]) -> [i32; 3] {
        row_of(bytes)
    }
}

impl Entry for Tri {
    ghost SIZE = { 12 };

    ghost value = { tri_of };

    ghost fits = { Prim.omega arith };

    const SIZE: u32 = TRIANGLE;

    fn read(bytes: &[u8]) -> Tri {
        Tri(words_of(bytes))
    }
}

impl Entry for [i32; 12] {
    ghost SIZE = { 48 };

    ghost value = { row_of 12 };

    ghost fits = { Prim.omega arith };

    const SIZE: u32 = CAMERA;

    fn read(bytes: &[u8]) -> [i32; 12] {
        row_of(bytes)
    }
}

/// The next table, of so many entries, from a part of which so many bytes came before.
pub fn read_table<S: Source, E: Entry>(
    alloc: Global,
    source: &mut S,
    count: u32,
    need: u32,
    taken: u32,
    part: Option<u32>,
) -> Result<Vec<E>, SceneError>
    requires room { taken + E.SIZE * count < 2 ^ 32 }
    requires within { IsWithin part taken }
    ensures taken { IfOk result (λ v. TakesTable E.SIZE count E.value (S.says source.old) (S.says source.new) v.items) }
    ensures fetches { Fetches part (E.SIZE * count) need taken
        (S.says source.old) (S.says source.new) result }
{
    let mut items = Vec::with_capacity(alloc, count as usize)?;
    let mut buffer = [0; 48];
    let entry = &mut buffer[..E::SIZE as usize];
    for i in 0..count {
        fetch(source, entry, need, taken + E::SIZE * i, part)?;
        items.push(E::read(entry))?;
    }
    Ok(items)
}
