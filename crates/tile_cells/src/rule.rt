//! What the views of a tile's cell know, and the rule that the cell is under.
use crossbeam_utils::atomic::seq_cell::{Pass, RuledSeqCell};
use crossbeam_utils::rule::Protocol;
use cull_base::{ScreenTri, Size};
use std::marker::Model;

/// A list of pieces for a screen, after which a cell is named. No value of it is made.
pub struct Listed {
    size: Size,
    pieces: Vec<ScreenTri>,
}

impl Model for Listed {
    ghost use Rattle.cull_base.specs.Tiles.{PieceList};

    ghost Value = { PieceList };

    ghost view = { λ l. record { size = l.size; members = l.pieces.items } };
}

/// Whose view it is.
pub enum Role {
    /// Of a cell that isn't named yet.
    Unnamed,
    /// The tile's writer.
    Writes,
    /// A reader, or a note.
    Reads,
    /// Nobody's any more.
    Spent,
}

/// What a pass knows of a cell. No value of it is made.
pub struct View {
    /// Whose it is.
    pub role: Role,
    /// The list that the cell is named after.
    pub list: Listed,
    /// The tile that it is named after.
    pub tile: u32,
    /// How many members a writer took, or a reader has seen.
    pub number: u64,
    /// The most that a writer heard of readers that ended.
    pub heard: u64,
    /// How often a reader read the cell.
    pub loads: u64,
}

/// The rule of a tile's cell.
pub struct OneTile;

impl Protocol<[u64; 13], View> for OneTile {
    ghost use Rattle.tile_cells.specs.Rule.{CellRule, nameless};

    ghost holds = { CellRule };

    ghost first = { nameless };
}

/// A tile's thirteen words, which change together.
pub type Cell = RuledSeqCell<[u64; 13], View, OneTile, 13>;

/// What is needed for a step of a cell. It has no bytes.
pub type CellPass = Pass<[u64; 13], View>;
