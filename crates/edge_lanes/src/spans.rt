//! The columns of samples that are inside, row by row of a row of tiles, and the masks that they make. Columns take
//! lanes of 16 bits, so that those of eight rows are one vector.
ghost use Rattle.std.specs.Prelude.{◌≡◌, ℕ, ◌+◌, ◌-◌, ◌*◌, ◌/◌, ◌%◌, ◌<◌, ◌≤◌, ◌^◌, ◌&&◌};
ghost use Rattle.std.specs.Prelude.{cond, length, min, nat_le, nat_lt, slice_index, slice_index_or};
ghost use Rattle.std.specs.Int.{bit_at};
ghost use Rattle.std.specs.Simd.Lanes.{mask_l};

use crate::eight_columns::least_column;
use std::simd::prelude::*;

/// The columns inside in each of eight rows, from a first to before an end.
#[derive(Clone, Copy)]
pub struct Spans {
    pub first: u16x8,
    pub end: u16x8,
    ghost eight_firsts: { length first ≡ 8 },
    ghost eight_ends: { length end ≡ 8 },
}

/// The bits of a byte from a number on, of eight at the most.
const FROM: [u8; 32] = [
    255, 254, 252, 248, 240, 224, 192, 128, 0, 0, 0, 0, 0, 0, 0, 0, 255, 254, 252, 248, 240, 224,
    192, 128, 0, 0, 0, 0, 0, 0, 0, 0,
];

/// The columns of a tile before each byte of its masks: a mask has a byte for each of a subtile's four rows.
const BEFORE: [u8; 32] = [
    0, 0, 0, 0, 8, 8, 8, 8, 16, 16, 16, 16, 24, 24, 24, 24, 0, 0, 0, 0, 8, 8, 8, 8, 16, 16, 16, 16,
    24, 24, 24, 24,
];

// How many of so many columns from one on lie before each of eight ends.
#[inline(always)]
fn columns_before(ends: u16x8, column: u16, count: u16) -> u16x8
    requires { length ends ≡ 8 }
    ensures eight { length result ≡ 8 }
    ensures value { (r : ℕ) → r < 8 → slice_index_or result r 0 ≡ min (slice_index_or ends r 0 - column) count }
{
    let start = u16x8::splat(column);
    ends.simd_max(start)
        .strict_sub(start)
        .simd_min(u16x8::splat(count))
}

// How many of the 256 columns from one on don't lie before each of eight ends.
#[inline(always)]
fn columns_from(ends: u16x8, column: u16) -> u16x8
    requires { length ends ≡ 8 }
    ensures eight { length result ≡ 8 }
    ensures value { (r : ℕ) → r < 8 → slice_index_or result r 0
        ≡ 256 - min (slice_index_or ends r 0 - column) 256 }
{
    u16x8::splat(256).strict_sub(columns_before(ends, column, 256))
}

// Of eight numbers that are at most 32, that of the row of each byte of a tile's masks.
#[inline(always)]
fn by_rows(numbers: u16x8) -> u8x32
    requires eight { length numbers ≡ 8 }
    requires within { (r : ℕ) → r < 8 → slice_index_or numbers r 0 ≤ 32 }
    ensures long { length result ≡ 32 }
    ensures value { (i : ℕ) → i < 32 → slice_index_or result i 0 ≡ slice_index_or numbers (4 * (i / 16) + i % 4) 0 }
{
    numbers.to_le_bytes().swizzle([
        0, 2, 4, 6, 0, 2, 4, 6, 0, 2, 4, 6, 0, 2, 4, 6, 8, 10, 12, 14, 8, 10, 12, 14, 8, 10, 12,
        14, 8, 10, 12, 14,
    ])
}

// How far each byte lies past another, and at most 8.
#[inline(always)]
fn past(numbers: u8x32, starts: u8x32) -> u8x32
    requires long { length numbers ≡ 32 }
    requires starts { length starts ≡ 32 }
    ensures long { length result ≡ 32 }
    ensures value { (i : ℕ) → i < 32 → slice_index_or result i 0
        ≡ min (slice_index_or numbers i 0 - slice_index_or starts i 0) 8 }
{
    numbers.saturating_sub(starts).simd_min(u8x32::splat(8))
}

// Of eight numbers of columns of a tile, those of the eight columns of each byte of its masks.
#[inline(always)]
fn in_bytes(counts: u16x8) -> u8x32
    requires eight { length counts ≡ 8 }
    requires within { (r : ℕ) → r < 8 → slice_index_or counts r 0 ≤ 32 }
    ensures long { length result ≡ 32 }
    ensures value { (i : ℕ) → i < 32 → slice_index_or result i 0
        ≡ min (slice_index_or counts (4 * (i / 16) + i % 4) 0 - 8 * (i / 4 % 4)) 8 }
{
    past(by_rows(counts), u8x32::from_array(BEFORE))
}

// The bits of each byte from a number on.
#[inline(always)]
fn bytes_from(numbers: u8x32) -> u8x32
    requires long { length numbers ≡ 32 }
    requires within { (i : ℕ) → i < 32 → slice_index_or numbers i 0 ≤ 8 }
    ensures long { length result ≡ 32 }
    ensures value { (i : ℕ) → i < 32 → slice_index_or result i 0 ≡ 2 ^ 8 - 2 ^ slice_index_or numbers i 0 }
{
    u8x32::from_array(FROM).swizzle_dyn_within::<16>(numbers)
}

// The bytes of a tile's masks whose columns aren't before these ends of its rows.
#[inline(always)]
fn from_ends(ends: u16x8, column: u32) -> u8x32
    requires eight { length ends ≡ 8 }
    requires column { column < 64 }
    ensures long { length result ≡ 32 }
    ensures value { (i : ℕ) → i < 32 → slice_index_or result i 0
        ≡ 2 ^ 8 - 2 ^ min (slice_index_or ends (4 * (i / 16) + i % 4) 0 - 8 * (4 * column + i / 4 % 4)) 8 }
{
    bytes_from(in_bytes(columns_before(ends, 32 * column as u16, 32)))
}

// The ones from a first bit to before an end, of eight bits.
#[inline(always)]
fn ones_between(first: u32, end: u32) -> u32
    requires { end ≤ 8 }
    ensures bits { (i : ℕ) → i < 8 → bit_at result i ≡ cond (nat_le first i && nat_lt i end) 1 0 }
    ensures byte { result < 2 ^ 8 }
{
    (1 << end) - (1 << first.min(end))
}

impl Spans {
    ghost use Rattle.edge_lanes.specs.Spans.{AreMet, in_span, spanned};

    /// No columns.
    #[inline(always)]
    pub fn none() -> Spans {
        Spans {
            first: u16x8::splat(0),
            end: u16x8::splat(0),
        }
    }

    /// The columns in both.
    #[inline(always)]
    pub fn and(self, other: Spans) -> Spans
        ensures { (r x : ℕ) → r < 8 → in_span result r x ≡ (in_span self r x && in_span other r x) }
    {
        Spans {
            first: self.first.simd_max(other.first),
            end: self.end.simd_min(other.end),
        }
    }

    // The same columns. A row that has none begins past all screens and ends at 0, so that it tells `ahead` nothing.
    #[inline(always)]
    fn tidied(self) -> Spans
        ensures { (r x : ℕ) → r < 8 → in_span result r x ≡ in_span self r x }
    {
        let some = self.first.simd_lt(self.end);
        Spans {
            first: some.select(self.first, u16x8::splat(65535)),
            end: some.select(self.end, u16x8::splat(0)),
        }
    }

    /// Of the tile in a column and the seven to its right, those of which some row may have columns.
    #[inline(always)]
    pub fn ahead(&self, column: u32) -> u32
        requires { column < 64 }
        ensures met { AreMet self.now column result }
        ensures byte { result < 2 ^ 8 }
    {
        let spans = self.tidied();
        // of the columns of these eight tiles, how many lie before a row's span, and how many lie past it
        let start = 32 * column as u16;
        let before = columns_before(spans.first, start, 256);
        let past = columns_from(spans.end, start);
        let first = least_column(before) / 32;
        let end = (256 + 31 - least_column(past)) / 32;
        ones_between(first, end)
    }

    /// Eight ones, or none where no row has a column.
    #[inline(always)]
    pub fn all_or_none(&self) -> u32
        ensures met { (column : ℕ) → AreMet self.now column result }
        ensures byte { result < 2 ^ 8 }
    {
        let some = self.first.simd_lt(self.end).to_bitmask();
        if some == 0 { 0 } else { 255 }
    }

    /// The masks of the eight subtiles of the tile in a column.
    #[inline(always)]
    pub fn masks(&self, column: u32) -> [u32; 8]
        requires { column < 64 }
        ensures { (j : ℕ) → j < 8 → slice_index result j ≡ mask_l (spanned self.now column j) }
    {
        let from_first = from_ends(self.first, column);
        let from_end = from_ends(self.end, column);
        u32x8::from_le_bytes(from_first & !from_end).to_array()
    }
}
