//! The kinds of step that a cell takes.
use crate::rule::View;
use atomic_table::{Join, Split};
use crossbeam_utils::rule::Outcome;
use std::marker::{Brand, PhantomData};

/// What a cell is named after, picked at the call.
pub trait Naming {
    ghost use Rattle.std.specs.Prelude.{ℕ};
    ghost use Rattle.cull_base.specs.Tiles.{PieceList};

    ghost list: { PieceList };

    ghost tile: { ℕ };
}

impl Naming for Brand {
    ghost use Rattle.tile_cells.specs.Rule.{no_list};

    ghost list = { no_list };

    ghost tile = { 0 };
}

/// The first view becomes that of the tile's writer.
pub(crate) struct Name<B> {
    of: PhantomData<B>,
}

impl<B: Naming> Split<View> for Name<B> {
    ghost use Rattle.tile_cells.specs.Rule.{writer, spent};

    ghost left = { λ v. writer B.list B.tile 0 0 };

    ghost right = { λ v. spent };
}

/// The writer's words change to those after one member more.
pub(crate) struct Store;

impl Outcome<[u64; 13], View> for Store {
    ghost use Rattle.tile_cells.specs.Rule.{Stored};

    ghost then = { Stored };
}

/// A reader sees the words.
pub(crate) struct Load;

impl Outcome<[u64; 13], View> for Load {
    ghost use Rattle.tile_cells.specs.Rule.{Loaded};

    ghost then = { Loaded };
}

/// The writer sees its own words.
pub(crate) struct Check;

impl Outcome<[u64; 13], View> for Check {
    ghost use Rattle.tile_cells.specs.Rule.{Checked};

    ghost then = { Checked };
}

/// A reader, or a note, is split from the writer.
pub(crate) struct Tell;

impl Split<View> for Tell {
    ghost use Rattle.tile_cells.specs.Rule.{note_of};

    ghost left = { λ v. v };

    ghost right = { note_of };
}

/// A note joins a reader.
pub(crate) struct Learn;

impl Join<View> for Learn {
    ghost use Rattle.tile_cells.specs.Rule.{learned, spent};

    ghost both = { learned };

    ghost spent = { spent };
}

/// A view moves to a fresh pass: only one that hasn't stepped can be joined.
pub(crate) struct Move;

impl Split<View> for Move {
    ghost use Rattle.tile_cells.specs.Rule.{spent};

    ghost left = { λ v. spent };

    ghost right = { λ v. v };
}

/// A reader's view ends in the writer's.
pub(crate) struct End;

impl Join<View> for End {
    ghost use Rattle.tile_cells.specs.Rule.{ended, spent};

    ghost both = { ended };

    ghost spent = { spent };
}
