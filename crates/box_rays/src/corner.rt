//! Corners in steps of some units, short enough for products in 64 bits.
ghost use Rattle.std.specs.Prelude.{ℕ, ℤ, pos, ◌*◌, ◌^◌, ◌≤◌, ◌<◌, ◌+ℤ◌, ◌*ℤ◌, ◌≤ℤ◌, ◌<ℤ◌};
ghost use Rattle.std.specs.List.{All};
ghost use Rattle.cull_base.specs.Bounds.{Bounded};
ghost use Rattle.exact_clip.specs.Clip.{Clip};
ghost use Rattle.exact_clip.specs.Held.{Holds};
ghost use Rattle.box_rays.specs.Corners.{IsReach, IsShort, IsSmall, StandsFor};

use exact_clip::Held;

/// How many bits a number of steps has at most, without its sign.
const STEP_BITS: u32 = 47;

/// A step is at least four units, by which a held coordinate may be off.
const LEAST_SHIFT: u32 = 2;

/// A clip point in steps, downwards against y. What it stands for lies at most two steps above each number.
#[derive(Clone, Copy)]
pub(crate) struct Corner {
    pub(crate) across: i64,
    pub(crate) down: i64,
    pub(crate) w: i64,
}

// How far from 0 a corner's coordinates reach.
#[inline(always)]
fn reach_of(v: &Held) -> u64
    ensures { IsReach result v.now }
{
    v.x.unsigned_abs()
        .max(v.y.unsigned_abs())
        .max(v.w.unsigned_abs())
}

/// How many times units are halved, so that all coordinates of some corners are short.
pub(crate) fn shift_of(corners: &[Held]) -> u32
    ensures least { 2 ≤ result }
    ensures most { result < 64 }
    ensures short { All (IsShort result) corners.now }
{
    let mut most: u64 = 1;
    for v in corners {
        most = most.max(reach_of(v));
    }
    most.ilog2().saturating_sub(STEP_BITS - 1).max(LEAST_SHIFT)
}

#[inline(always)]
fn steps_of(units: i64, shift: u32) -> i64
    requires shift { shift < 64 }
    requires short { Bounded (2 ^ 47 * 2 ^ shift) units }
    ensures low { (result *ℤ pos (2 ^ shift)) ≤ℤ units }
    ensures high { units <ℤ ((result +ℤ pos 1) *ℤ pos (2 ^ shift)) }
    ensures small { Bounded (2 ^ 47) result }
{
    units >> shift
}

impl Corner {
    /// A held corner in steps.
    #[inline(always)]
    pub(crate) fn of(v: &Held, shift: u32) -> Corner
        requires least { 2 ≤ shift }
        requires most { shift < 64 }
        requires short { IsShort shift v.now }
        ensures stands { (unit : ℕ) → (exact : Clip) → Holds unit v.now exact → StandsFor (unit * 2 ^ shift) result exact }
        ensures small { IsSmall result }
    {
        Corner {
            across: steps_of(v.x, shift),
            down: -2 - steps_of(v.y, shift),
            w: steps_of(v.w, shift),
        }
    }
}
