//! A tile as the words of its cell, and back.
ghost use Rattle.std.specs.Prelude.{◌≡◌, ◌+◌, ◌*◌, ◌/◌, ◌%◌, ◌<◌, ◌^◌, cond, nat_eq};
ghost use Rattle.cull_base.specs.State.{State};
ghost use Rattle.masked_update.specs.Packing.{IsSubTile, packed};
ghost use Rattle.masked_update.specs.TileOf.{TileOf, sub_at};
ghost use Rattle.tile_cells.specs.Words.{ArePacked, AreTileWords, IsTile, words_of};

use masked_update::{SubTile, TileState};

/// The bits of a mask, of which a word has two.
const MASK_BITS: u32 = 32;

// Two masks in one word, the first in its lower half.
#[inline(always)]
fn paired(first: u32, second: u32) -> u64
    ensures { result ≡ first + 2 ^ 32 * second }
{
    u64::from(first) | u64::from(second) << MASK_BITS
}

/// The count, then the layers of the eight subtiles, then their masks, two in a word.
#[inline(always)]
pub fn words_of(state: &TileState) -> [u64; 13]
    ensures value { result ≡ words_of state.now }
    ensures possible { IsTile state.now }
{
    let first = state.sub(0).pack();
    let second = state.sub(1).pack();
    let third = state.sub(2).pack();
    let fourth = state.sub(3).pack();
    let fifth = state.sub(4).pack();
    let sixth = state.sub(5).pack();
    let seventh = state.sub(6).pack();
    let eighth = state.sub(7).pack();
    [
        u64::from(state.count()),
        first.0,
        second.0,
        third.0,
        fourth.0,
        fifth.0,
        sixth.0,
        seventh.0,
        eighth.0,
        paired(first.1, second.1),
        paired(third.1, fourth.1),
        paired(fifth.1, sixth.1),
        paired(seventh.1, eighth.1),
    ]
}

// The subtile that packs to these layers and this mask. Condition: there is one.
#[inline(always)]
fn subtile_of(layers: u64, mask: u32) -> SubTile
    requires { ArePacked layers mask }
    ensures { (s : State) → IsSubTile s → packed s ≡ (layers, mask) → result ≡ s }
{
    match SubTile::unpack(layers, mask) {
        Some(subtile) => subtile,
        None => unreachable!(),
    }
}

// One of the two masks of a word: the lower half for an even number.
#[inline(always)]
fn mask_in(masks: u64, j: usize) -> u32
    ensures { result ≡ cond (nat_eq (j % 2) 0) (masks % 2 ^ 32) (masks / 2 ^ 32) }
{
    if j % 2 == 0 {
        (masks & 0xFFFF_FFFF) as u32
    } else {
        (masks >> MASK_BITS) as u32
    }
}

// Subtile j of the tile that has these words. Condition: there is one.
#[inline(always)]
fn subtile_at(words: &[u64; 13], j: usize) -> SubTile
    requires words { AreTileWords words.now }
    requires j { j < 8 }
    ensures { (t : TileOf) → IsTile t → words.now ≡ words_of t → result ≡ sub_at t j }
{
    subtile_of(words[1 + j], mask_in(words[9 + j / 2], j))
}

/// The tile that has these words. Condition: there is one.
#[inline(always)]
pub fn tile_of(words: &[u64; 13]) -> TileState
    requires { AreTileWords words.now }
    ensures { (t : TileOf) → IsTile t → words.now ≡ words_of t → result ≡ t }
{
    let subtiles = [
        subtile_at(words, 0),
        subtile_at(words, 1),
        subtile_at(words, 2),
        subtile_at(words, 3),
        subtile_at(words, 4),
        subtile_at(words, 5),
        subtile_at(words, 6),
        subtile_at(words, 7),
    ];
    TileState::of(subtiles, words[0] as u32)
}
