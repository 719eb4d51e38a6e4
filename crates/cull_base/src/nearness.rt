//! How far nearness goes: by a scene's grade, and in pieces, subtiles and cells, which are the same for both grades.
ghost use Rattle.std.specs.Prelude.{◌≡◌, ◌≤◌};
ghost use Rattle.cull_base.specs.declared.nearness.TheConstants.{HELD_TOP};

/// The greatest nearness that pieces and subtiles hold.
pub const HELD_TOP: u32 = 16777215;

/// The top as a number. Definitions read it by name, so a changed constant would change these too.
pub fn held_top()
    ensures { HELD_TOP ≡ 16777215 }
{}

/// How finely a scene tells distances apart: its nearness goes to 65535 or to 16777215.
#[derive(Clone, Copy, Debug, PartialEq, Eq)]
pub enum Grade {
    Narrow,
    Wide,
}

impl Grade {
    ghost use Rattle.cull_base.specs.Grade.{top_of};

    /// The nearness of the near distance, by which quotients are scaled. Pieces and subtiles hold it.
    pub fn top(self) -> u32
        ensures value { result ≡ top_of self }
        ensures within { result ≤ HELD_TOP }
    {
        match self {
            Grade::Narrow => 65535,
            Grade::Wide => 16777215,
        }
    }
}
