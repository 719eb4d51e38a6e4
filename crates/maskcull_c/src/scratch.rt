//! Clip points in the caller's memory, each in the room of a position.
ghost use Rattle.std.specs.Prelude.{◌≡◌};
ghost use Rattle.maskcull_c.specs.Lenses.{held_in};

use exact_clip::Held;

/// Room for the clip point of a position. It may hold any numbers: it is written before it is read.
#[derive(Clone, Copy)]
#[repr(C)]
pub struct Scratch {
    pub held: [i64; 3],
    pub state: [u32; 2],
}

impl Scratch {
    /// A clip point, or that there is none.
    #[inline(always)]
    pub(crate) fn of(point: Option<Held>) -> Scratch
        ensures { held_in result ≡ point }
    {
        match point {
            Some(v) => Scratch {
                held: [v.x, v.y, v.w],
                state: [1, 0],
            },
            None => Scratch {
                held: [0, 0, 0],
                state: [0, 0],
            },
        }
    }

    /// What was written.
    #[inline(always)]
    pub(crate) fn point(&self) -> Option<Held>
        ensures { result ≡ held_in self.now }
    {
        if self.state[0] == 0 {
            return None;
        }
        Some(Held {
            x: self.held[0],
            y: self.held[1],
            w: self.held[2],
        })
    }
}
