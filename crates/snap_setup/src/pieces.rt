//! What a triangle leaves on the screen.
ghost use Rattle.std.specs.Prelude.{◌≡◌, List, [], ◌++◌, ◌<◌, ◌≤◌, ◌+◌, length, slice_index_or, option_to_list};

use crate::keeping::{Keeping, take};
use cull_base::{FrameList, ScreenTri};
use std::marker::Model;

#[derive(Clone, Copy)]
enum Members {
    Nothing,
    One(ScreenTri),
    Two(ScreenTri, ScreenTri),
}

/// The pieces of a triangle: at most two, in order.
#[derive(Drop)]
pub struct Pieces {
    members: Members,
}

impl Model for Pieces {
    ghost use Rattle.std.specs.Prelude.{List};
    ghost use Rattle.cull_base.specs.Piece.{Piece};
    ghost use Rattle.snap_setup.specs.Members.{members_in};

    ghost Value = { List Piece };

    ghost view = { λ p. members_in p.members };
}

impl Pieces {
    ghost use Rattle.snap_setup.specs.Keeping.{Took};

    #[inline(always)]
    pub(crate) fn none() -> Pieces
        ensures { result ≡ [] }
    {
        Pieces {
            members: Members::Nothing,
        }
    }

    #[inline(always)]
    pub(crate) fn of(first: Option<ScreenTri>, second: Option<ScreenTri>) -> Pieces
        ensures { result ≡ option_to_list first ++ option_to_list second }
    {
        let members = match (first, second) {
            (None, None) => Members::Nothing,
            (Some(one), None) | (None, Some(one)) => Members::One(one),
            (Some(one), Some(two)) => Members::Two(one, two),
        };
        Pieces { members }
    }

    /// How many pieces: 0 to 2.
    pub fn len(&self) -> u8
        ensures value { result ≡ length self.now }
        ensures most { result ≤ 2 }
    {
        match &self.members {
            Members::Nothing => 0,
            Members::One(_) => 1,
            Members::Two(_, _) => 2,
        }
    }

    /// Piece i. Condition: i is below the length.
    pub fn get(&self, i: u8) -> ScreenTri
        requires { i < length self.now }
        ensures { result ≡ slice_index_or self.now i result }
    {
        match &self.members {
            Members::One(one) => *one,
            Members::Two(one, two) => if i == 0 { *one } else { *two },
            Members::Nothing => unreachable!(),
        }
    }

    /// Appends those that are kept to a list, and gives how many there are. Condition: there is room for two.
    #[inline(always)]
    pub(crate) fn push_onto(&self, keeping: Keeping, list: &mut FrameList) -> u32
        requires { length list.old.list.members + 2 ≤ list.old.room }
        ensures value { Took keeping list.old list.new result self.now }
        ensures most { length self.now ≤ 2 }
    {
        match &self.members {
            Members::Nothing => 0,
            Members::One(one) => take(*one, keeping, list),
            Members::Two(one, two) => take(*one, keeping, list) + take(*two, keeping, list),
        }
    }
}
