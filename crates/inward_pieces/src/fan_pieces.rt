//! What a triangle or a quad leaves on the screen.
ghost use Rattle.std.specs.Prelude.{◌≡◌, [], ◌∷◌, ◌++◌, ◌<◌, ◌≤◌, length, ◌↔◌, IsTrue, slice_index_or, option_to_list};
ghost use Rattle.inward_pieces.specs.Members.{members_in, AreFew};

use cull_base::ScreenTri;
use std::marker::Model;

/// As many as room was made for, of which the first are pieces of the list.
#[derive(Clone, Copy)]
struct Several {
    pieces: [ScreenTri; 10],
    count: u8,
}

#[derive(Clone, Copy)]
enum Members {
    Nothing,
    One(ScreenTri),
    Two(ScreenTri, ScreenTri),
    Many(Several),
}

/// The pieces of a triangle or a quad: at most ten, in order.
#[derive(Drop)]
pub struct FanPieces {
    members: Members,
}

impl Model for FanPieces {
    ghost use Rattle.std.specs.Prelude.{List};
    ghost use Rattle.cull_base.specs.Piece.{Piece};
    ghost use Rattle.inward_pieces.specs.Members.{members_in, AreFew};

    ghost Value = { List Piece };

    ghost view = { λ p. members_in p.members };

    ghost invariant = { λ p. AreFew p.members };
}

// Three pieces, with room for seven.
fn three(first: ScreenTri, second: ScreenTri, third: ScreenTri) -> Several
    ensures pieces { members_in (Members.Many result) ≡ first ∷ second ∷ third ∷ [] }
    ensures few { AreFew (Members.Many result) }
{
    let mut pieces = [first; 10];
    pieces[1] = second;
    pieces[2] = third;
    Several { pieces, count: 3 }
}

fn one_more(several: Several, piece: ScreenTri) -> Several
    requires few { AreFew (Members.Many several) }
    requires room { several.count < 10 }
    ensures pieces { members_in (Members.Many result) ≡ members_in (Members.Many several) ++ piece ∷ [] }
    ensures few { AreFew (Members.Many result) }
{
    let mut pieces = several.pieces;
    pieces[usize::from(several.count)] = piece;
    Several {
        pieces,
        count: several.count + 1,
    }
}

impl FanPieces {
    #[inline(always)]
    pub(crate) fn none() -> FanPieces
        ensures { result ≡ [] }
    {
        FanPieces {
            members: Members::Nothing,
        }
    }

    // With one more.
    #[inline(always)]
    fn and(self, piece: ScreenTri) -> FanPieces
        requires { length self < 10 }
        ensures { result ≡ self ++ piece ∷ [] }
    {
        let FanPieces { members } = self;
        FanPieces {
            members: match members {
                Members::Nothing => Members::One(piece),
                Members::One(one) => Members::Two(one, piece),
                Members::Two(one, two) => Members::Many(three(one, two, piece)),
                Members::Many(several) => Members::Many(one_more(several, piece)),
            },
        }
    }

    /// With one more, where there is one. Condition: there are at most nine.
    #[inline(always)]
    pub(crate) fn with(self, piece: Option<ScreenTri>) -> FanPieces
        requires { length self < 10 }
        ensures { result ≡ self ++ option_to_list piece }
    {
        match piece {
            Some(piece) => self.and(piece),
            None => self,
        }
    }

    /// How many pieces: 0 to 10.
    pub fn len(&self) -> u8
        ensures value { result ≡ length self.now }
        ensures most { result ≤ 10 }
    {
        match &self.members {
            Members::Nothing => 0,
            Members::One(_) => 1,
            Members::Two(_, _) => 2,
            Members::Many(several) => several.count,
        }
    }

    /// Whether there is no piece.
    pub fn is_empty(&self) -> bool
        ensures { IsTrue result ↔ (self.now ≡ []) }
    {
        self.len() == 0
    }

    /// Piece i. Condition: i is below the length.
    pub fn get(&self, i: u8) -> ScreenTri
        requires { i < length self.now }
        ensures { result ≡ slice_index_or self.now i result }
    {
        match &self.members {
            Members::One(one) => *one,
            Members::Two(one, two) => if i == 0 { *one } else { *two },
            Members::Many(several) => several.pieces[usize::from(i)],
            Members::Nothing => unreachable!(),
        }
    }
}
