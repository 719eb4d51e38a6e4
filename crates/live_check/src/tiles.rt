//! The tiles of a frame: each stands at some members of its list, and is moved forward from line to line. None is drawn
//! anew within a frame.
ghost use Rattle.std.specs.Prelude.{◌≡◌, ℕ, ◌+◌, ◌*◌, ◌<◌, ◌≤◌, ◌&&◌, true, false, nat_eq, List, length};
ghost use Rattle.std.specs.Prelude.{Option, slice_index, slice_index_or, slice_set, IfOk};
ghost use Rattle.cull_base.specs.Piece.{Piece};
ghost use Rattle.cull_base.specs.Screen.{tile_columns_of, tile_count_of, tile_place, tile_rows_of};
ghost use Rattle.cull_base.specs.Span.{IsSpan, has_tile};
ghost use Rattle.cull_base.specs.Tiles.{tile_list};
ghost use Rattle.masked_update.specs.TileOf.{empty_tile};
ghost use Rattle.live_check.specs.Moving.{AreNotStated, AreStated, IsNotStatedOf, IsStatedOf, StatedTo, TookWhere};
ghost use Rattle.live_check.specs.Moving.{field_head, is_met_in, is_short_at};
ghost use Rattle.live_check.specs.Standing.{AreStanding, AreWhole, HaveMoved, IsIn, StaysStanding, TilesOf, count_at};
ghost use Rattle.live_check.specs.Waiting.{Fails, waiting};

use crate::unread::Unread;
use crate::words::{take_number, takes_text};
use cull_base::{Failed, FrameList, Memory, ScreenTri, Size, Source, Tile, TileSpan};
use masked_update::{PieceForm, PieceSetup, TileState};
use std::alloc::Global;
use std::marker::Model;
use text_lines::Line;

/// Of each tile of a screen its state, the place in the frame's list behind the last member that it took, and the count
/// that the line under way states.
#[derive(Drop)]
pub struct Tiles {
    size: Size,
    states: Vec<TileState>,
    behind: Vec<u32>,
    stated: Vec<u32>,
}

impl Model for Tiles {
    ghost use Rattle.live_check.specs.Standing.{AreWhole, TilesOf};

    ghost Value = { TilesOf };

    ghost view = { λ t. record {
      size = t.size;
      states = t.states.items;
      behind = t.behind.items;
      stated = t.stated.items;
    } };

    ghost invariant = { λ t. AreWhole (record {
      size = t.size;
      states = t.states.items;
      behind = t.behind.items;
      stated = t.stated.items;
    }) };
}

// The field of a tile up to its count: a space, the number of the tile and a colon.
fn field_of(tile: u32) -> Line
    ensures { result ≡ field_head tile }
{
    let mut text = Line::empty();
    text.number(u64::from(tile));
    text.push(b":");
    text
}

impl Tiles {
    /// The tiles of a screen, none of which took a member. Err: out of memory, which is taken here and nowhere later.
    pub fn with_room(alloc: Global, size: Size) -> Result<Tiles, Memory>
        ensures { IfOk result (λ t. t.size ≡ size) }
    {
        let count = size.tile_count() as usize;
        let states = vec![in alloc; TileState::empty(); count].map_err(|_| Memory)?;
        let behind = vec![in alloc; 0u32; count].map_err(|_| Memory)?;
        let stated = vec![in alloc; 0u32; count].map_err(|_| Memory)?;
        Ok(Tiles {
            size,
            states,
            behind,
            stated,
        })
    }

    /// Empties each tile, for a frame whose list this is.
    pub fn empty(&mut self, _list: &FrameList)
        requires { self.old.size ≡ _list.now.list.size }
        ensures standing { AreStanding _list.now.list self.new }
        ensures none { (t : ℕ) → t < tile_count_of self.old.size → count_at self.new t ≡ 0 }
        ensures size { self.new.size ≡ self.old.size }
        ensures whole { AreWhole self.new }
    {
        let count = self.size.tile_count();
        for tile in 0..count {
            self.clear(tile);
        }
    }

    // Empties one tile.
    fn clear(&mut self, tile: u32)
        requires { tile < tile_count_of self.old.size }
        ensures states { self.new.states ≡ slice_set self.old.states tile empty_tile }
        ensures behind { self.new.behind ≡ slice_set self.old.behind tile 0 }
        ensures stated { self.new.stated ≡ self.old.stated }
        ensures size { self.new.size ≡ self.old.size }
        ensures whole { AreWhole self.new }
    {
        self.states[tile as usize] = TileState::empty();
        self.behind[tile as usize] = 0;
    }

    /// The tiles' states, by their numbers.
    pub fn states(&self) -> &[TileState]
        ensures states { result.now ≡ self.now.states }
        ensures whole { AreWhole self.now }
    {
        self.states.as_slice()
    }

    // Takes the field of a tile, if the log goes on with one whose count isn't below the tile's own.
    fn state_tile<S: Source>(
        &mut self,
        unread: &mut Unread,
        log: &mut S,
        tile: u32,
    ) -> Result<bool, Failed>
        requires { tile < tile_count_of self.old.size }
        ensures yes { IfOk result (λ b. b ≡ true → IsStatedOf tile self.old self.new
            (waiting unread.old (S.says log.old).left) (waiting unread.new (S.says log.new).left)) }
        ensures no { IfOk result (λ b. b ≡ false → IsNotStatedOf tile self.old
            (waiting unread.old (S.says log.old).left)) }
        ensures stays { StaysStanding self.old self.new }
        ensures whole { AreWhole self.new }
        ensures fails { Fails (S.says log.old) (S.says log.new) result }
    {
        let own = self.states[tile as usize].count();
        if !takes_text(unread, log, field_of(tile).as_slice())? {
            return Ok(false);
        }
        let Some(count) = take_number(unread, log)? else {
            return Ok(false);
        };
        if count < own {
            return Ok(false);
        }
        self.stated[tile as usize] = count;
        Ok(true)
    }

    // The same of the tiles of a span in a row, behind the fields of the rows above it.
    fn state_row<S: Source>(
        &mut self,
        unread: &mut Unread,
        log: &mut S,
        span: &TileSpan,
        row: u32,
    ) -> Result<bool, Failed>
        requires span { IsSpan self.old.size span.now }
        requires row { (span.now.first_row ≤ row) × (row < span.now.end_row) }
        ensures yes { IfOk result (λ b. b ≡ true → (first : TilesOf) (before : Option (List ℕ))
            → StatedTo span.now (row * tile_columns_of first.size) first self.old before
            (waiting unread.old (S.says log.old).left)
            → StatedTo span.now ((row + 1) * tile_columns_of first.size) first self.new before
            (waiting unread.new (S.says log.new).left)) }
        ensures no { IfOk result (λ b. b ≡ false → (first : TilesOf) (before : Option (List ℕ))
            → StatedTo span.now (row * tile_columns_of first.size) first self.old before
            (waiting unread.old (S.says log.old).left) → AreNotStated span.now first before) }
        ensures stays { StaysStanding self.old self.new }
        ensures fails { Fails (S.says log.old) (S.says log.new) result }
    {
        let start = row * self.size.tile_columns();
        for column in span.first_column..span.end_column {
            if !self.state_tile(unread, log, start + column)? {
                return Ok(false);
            }
        }
        Ok(true)
    }

    /// Takes the fields of the tiles of a span, rising, if the log goes on with them and no count is below the tile's
    /// own; else a front of them may be.
    pub fn state<S: Source>(
        &mut self,
        unread: &mut Unread,
        log: &mut S,
        span: &TileSpan,
    ) -> Result<bool, Failed>
        requires { IsSpan self.old.size span.now }
        ensures yes { IfOk result (λ b. b ≡ true → AreStated span.now self.old self.new
            (waiting unread.old (S.says log.old).left) (waiting unread.new (S.says log.new).left)) }
        ensures no { IfOk result (λ b. b ≡ false → AreNotStated span.now self.old
            (waiting unread.old (S.says log.old).left)) }
        ensures stays { StaysStanding self.old self.new }
        ensures fails { Fails (S.says log.old) (S.says log.new) result }
    {
        // an accessor tells that a screen has columns
        let _columns = self.size.tile_columns();
        for row in span.first_row..span.end_row {
            if !self.state_row(unread, log, span, row)? {
                return Ok(false);
            }
        }
        Ok(true)
    }

    // Whether a tile is short of the count that is stated, and stands no further than a place of the list.
    fn is_short(&self, tile: u32, place: u32) -> bool
        requires { tile < tile_count_of self.now.size }
        ensures { result ≡ is_short_at self.now tile place }
    {
        let tile = tile as usize;
        self.states[tile].count() < self.stated[tile] && self.behind[tile] <= place
    }

    // How many tiles of a span are short and stand no further than a place.
    fn short_in(&self, span: &TileSpan, place: u32) -> u32
        requires { IsSpan self.now.size span.now }
        ensures none { result ≡ 0 → (t : ℕ) → IsIn self.now span.now t → is_short_at self.now t place ≡ false }
        ensures some { 0 < result → (t : ℕ) × IsIn self.now span.now t × (is_short_at self.now t place ≡ true) }
        ensures few { result ≤ 16384 }
    {
        // accessors tell how few they are
        let (columns, _rows) = (self.size.tile_columns(), self.size.tile_rows());
        let mut short = 0;
        for row in span.first_row..span.end_row {
            for column in span.first_column..span.end_column {
                if self.is_short(row * columns + column, place) {
                    short += 1;
                }
            }
        }
        short
    }

    // The least place at which a short tile of a span stands, or the list's length.
    fn first_place(&self, span: &TileSpan, len: u32) -> u32
        requires { IsSpan self.now.size span.now }
        ensures most { result ≤ len }
        ensures least { (t : ℕ) → IsIn self.now span.now t → count_at self.now t < slice_index self.now.stated t
            → slice_index self.now.behind t < len → result ≤ slice_index self.now.behind t }
    {
        // accessors tell how few tiles there are
        let (columns, _rows) = (self.size.tile_columns(), self.size.tile_rows());
        let mut least = len;
        for row in span.first_row..span.end_row {
            for column in span.first_column..span.end_column {
                let tile = row * columns + column;
                if self.is_short(tile, least) {
                    least = self.behind[tile as usize];
                }
            }
        }
        least
    }

    // A tile takes the piece at a place of the list if it is short, and tells whether it has the stated count then.
    fn take_at(&mut self, piece: &PieceSetup, place: Tile, index: u32) -> bool
        requires column { place.column < tile_columns_of self.old.size }
        requires row { place.row < tile_rows_of self.old.size }
        requires index { index < 131072 }
        requires few { let t = place.row * tile_columns_of self.old.size + place.column in
            is_short_at self.old t index ≡ true → count_at self.old t < 131072 }
        ensures took { TookWhere (λ t. nat_eq t (place.row * tile_columns_of self.old.size + place.column))
            piece.now index self.old self.new }
    {
        let tile = u32::from(place.row) * self.size.tile_columns() + u32::from(place.column);
        if !self.is_short(tile, index) {
            return false;
        }
        let tile = tile as usize;
        let form = PieceForm::Whole(piece, &piece.reached_on(self.size));
        self.states[tile].take_form(form, self.size, place);
        self.behind[tile] = index + 1;
        self.states[tile].count() == self.stated[tile]
    }

    // The short tiles of a part of the screen take the piece at a place of the list, which is set up once for them. How
    // many of them have the stated count then.
    fn take_in(&mut self, tri: &ScreenTri, reached: &TileSpan, index: u32) -> u32
        requires span { IsSpan self.old.size reached.now }
        requires index { index < 131072 }
        requires few { (t : ℕ) → t < tile_count_of self.old.size
            → is_short_at self.old t index ≡ true → count_at self.old t < 131072 }
        ensures took { TookWhere (λ t. has_tile reached.now (tile_place self.old.size t))
            tri.now index self.old self.new }
    {
        let piece = PieceSetup::of(tri);
        // accessors tell how few tiles there are
        let (_columns, _rows) = (self.size.tile_columns(), self.size.tile_rows());
        let mut done = 0;
        for row in reached.first_row..reached.end_row {
            for column in reached.first_column..reached.end_column {
                let place = Tile {
                    column: column as u16,
                    row: row as u16,
                };
                if self.take_at(&piece, place, index) {
                    done += 1;
                }
            }
        }
        done
    }

    // The short tiles of a span that a member's box meets take it. How many have the stated count then.
    fn take_member(&mut self, list: &FrameList, index: u32, span: &TileSpan) -> u32
        requires index { index < length list.now.list.members }
        requires span { IsSpan self.old.size span.now }
        requires standing { AreStanding list.now.list self.old }
        ensures took { (x : Piece) → slice_index_or list.now.list.members index x ≡ x
            → TookWhere (is_met_in self.old.size span.now x) x index self.old self.new }
    {
        // an accessor tells how few pieces there are
        let _len = list.len();
        let tri = list.get(index);
        let reached = TileSpan::of(&tri.boxed(), self.size).cut(span);
        if self.short_in(&reached, index) == 0 {
            return 0;
        }
        self.take_in(tri, &reached, index)
    }

    /// Moves the tiles of a span forward to the counts that are stated, in one pass over the frame's list, and says
    /// whether each got there; else one is stated past its list. Conditions: the list is that of the tiles, and no
    /// stated count is below the tile's own.
    pub fn advance(&mut self, list: &FrameList, span: &TileSpan) -> bool
        requires standing { AreStanding list.now.list self.old }
        requires span { IsSpan self.old.size span.now }
        requires rise { (t : ℕ) → IsIn self.old span.now t → count_at self.old t ≤ slice_index self.old.stated t }
        ensures moved { result ≡ true → HaveMoved span.now self.old self.new }
        ensures past { result ≡ false → (t : ℕ) × IsIn self.old span.now t
            × (length (tile_list t list.now.list) < slice_index self.old.stated t) }
        ensures standing { AreStanding list.now.list self.new }
    {
        let len = list.len();
        let from = self.first_place(span, len);
        // The number guides the pass: where it says that none is short, that is seen to.
        let mut short = self.short_in(span, len);
        for index in from..len {
            if short == 0 {
                short = self.short_in(span, len);
                if short == 0 {
                    return true;
                }
            }
            short = short.saturating_sub(self.take_member(list, index, span));
        }
        self.short_in(span, len) == 0
    }
}
