//! A line that tells an object's verdict while its frame is drawn.
ghost use Rattle.std.specs.Prelude.{◌≡◌, ◌+◌, ◌*◌, [], ◌<◌, ◌≤◌, length, vec_capacity, slice_index_or, IfOk};
ghost use Rattle.cull_base.specs.Screen.{tile_columns_of};
ghost use Rattle.cull_report.specs.Live.{counts_held};
ghost use Rattle.cull_report.specs.declared.live_line.TileCount.{TileCount};
ghost use Rattle.cull_report.specs.LivePieces.{counts_before};

use cull_base::{Memory, Verdict};
use std::alloc::Global;
use std::marker::Model;
use tile_cells::Snapshot;

/// How many members of a tile's list were taken.
#[derive(Clone, Copy)]
pub struct TileCount {
    pub tile: u32,
    pub count: u32,
}

/// An object's verdict in a round of a frame, and the tiles that it was answered from, each with its count.
#[derive(Drop)]
pub struct LiveLine {
    frame: u32,
    round: u32,
    object: u32,
    verdict: Verdict,
    counts: Vec<TileCount>,
    room: u32,
}

impl Model for LiveLine {
    ghost use Rattle.std.specs.Prelude.{◌≡◌, ◌≤◌, length, vec_capacity};
    ghost use Rattle.cull_report.specs.Live.{LiveLineOf};

    ghost Value = { LiveLineOf };

    ghost view = { λ s. record {
      frame = s.frame;
      round = s.round;
      object = s.object;
      verdict = s.verdict;
      counts = s.counts.items;
      room = s.room;
    } };

    ghost invariant = { λ s. (length s.counts.items ≤ s.room) × (s.room ≤ vec_capacity s.counts) };
}

// Adds the tiles of one row that a snapshot holds, after those of the rows before it.
fn push_row(counts: &mut Vec<TileCount>, view: &Snapshot, row: u32)
    requires row { (view.now.span.first_row ≤ row) × (row < view.now.span.end_row) }
    requires before { counts.old.items ≡ counts_before view.now (row * tile_columns_of view.now.size) }
    requires room { length (counts_held view.now) ≤ vec_capacity counts.old }
    ensures counts { counts.new.items ≡ counts_before view.now ((row + 1) * tile_columns_of view.now.size) }
    ensures room { vec_capacity counts.new ≡ vec_capacity counts.old }
{
    let size = view.size();
    let span = view.span();
    // an accessor tells how many rows there may be
    let _rows = size.tile_rows();
    let start = row * size.tile_columns();
    for column in span.first_column..span.end_column {
        let tile = start + column;
        let count = view.count(tile);
        counts.push_reserved(TileCount { tile, count });
    }
}

// Adds the tiles that a snapshot holds.
fn push_held(counts: &mut Vec<TileCount>, view: &Snapshot)
    requires none { counts.old.items ≡ [] }
    requires room { length (counts_held view.now) ≤ vec_capacity counts.old }
    ensures counts { counts.new.items ≡ counts_held view.now }
    ensures room { vec_capacity counts.new ≡ vec_capacity counts.old }
{
    let span = view.span();
    // an accessor tells that there is a column
    let _columns = view.size().tile_columns();
    for row in span.first_row..span.end_row {
        push_row(counts, view, row);
    }
}

impl LiveLine {
    /// A line with no tile, and room for so many. Err where memory gave out, which is taken here and nowhere later.
    pub fn with_room(alloc: Global, tiles: u32) -> Result<LiveLine, Memory>
        ensures room { IfOk result (λ l. l.room ≡ tiles) }
        ensures none { IfOk result (λ l. l.counts ≡ []) }
    {
        let counts = Vec::with_capacity(alloc, tiles as usize).map_err(|_| Memory)?;
        Ok(LiveLine {
            frame: 0,
            round: 0,
            object: 0,
            verdict: Verdict::Visible,
            counts,
            room: tiles,
        })
    }

    /// From now on it tells this verdict and the tiles that the snapshot holds, rising, each with its count, and nothing
    /// of what it told before. Condition: these tiles are no more than there is room for.
    pub fn fill(&mut self, frame: u32, round: u32, object: u32, verdict: Verdict, view: &Snapshot)
        requires { length (counts_held view.now) ≤ self.old.room }
        ensures { self.new ≡ record {
          frame = frame;
          round = round;
          object = object;
          verdict = verdict;
          counts = counts_held view.now;
          room = self.old.room;
        } }
    {
        self.frame = frame;
        self.round = round;
        self.object = object;
        self.verdict = verdict;
        self.counts.clear();
        push_held(&mut self.counts, view);
    }

    pub fn frame(&self) -> u32
        ensures { result ≡ self.now.frame }
    {
        self.frame
    }

    /// The round of the frame, from 0.
    pub fn round(&self) -> u32
        ensures { result ≡ self.now.round }
    {
        self.round
    }

    pub fn object(&self) -> u32
        ensures { result ≡ self.now.object }
    {
        self.object
    }

    pub fn verdict(&self) -> Verdict
        ensures { result ≡ self.now.verdict }
    {
        self.verdict
    }

    /// How many tiles it tells.
    pub fn len(&self) -> u32
        ensures { result ≡ length self.now.counts }
    {
        // there are no more than there is room for
        let _room = self.room;
        self.counts.len() as u32
    }

    /// A tile and its count, in the order of the tiles. Condition: the place is below `len`.
    pub fn count_at(&self, i: u32) -> TileCount
        requires { i < length self.now.counts }
        ensures { (other : TileCount) → result ≡ slice_index_or self.now.counts i other }
    {
        self.counts[i as usize]
    }
}
