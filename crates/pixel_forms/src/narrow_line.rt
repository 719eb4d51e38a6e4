//! Lines in fewer bits, so that the values of their forms over a screen fit.
ghost use Rattle.std.specs.Prelude.{◌≡◌, ℕ, neg_ℤ, ◌+◌, ◌*◌, ◌^◌, ◌<◌, ◌≤◌, nat_abs};
ghost use Rattle.cull_base.specs.Bounds.{Bounded};

use clip_lines::Line;

/// What a part of a line keeps, without its sign.
const PART_BITS: u32 = 34;

/// A line in steps of 2^shift of another's: each part of the exact one is at most `off` steps away.
#[derive(Clone, Copy)]
pub struct NarrowLine {
    pub x: i64,
    pub y: i64,
    pub w: i64,
    pub off: u64,
    pub shift: u32,
}

#[inline(always)]
fn greatest_part(line: &Line) -> u64
    ensures x { nat_abs line.now.x ≤ result }
    ensures y { nat_abs line.now.y ≤ result }
    ensures w { nat_abs line.now.w ≤ result }
{
    line.x
        .unsigned_abs()
        .max(line.y.unsigned_abs())
        .max(line.w.unsigned_abs())
}

#[inline(always)]
fn shift_below(greatest: u64) -> u32
    ensures most { result ≤ 30 }
    ensures enough { greatest < 2 ^ (34 + result) }
{
    (64 - greatest.leading_zeros()).max(PART_BITS) - PART_BITS
}

#[inline(always)]
fn opposite(part: i64) -> i64
    requires { Bounded (2 ^ 34) part }
    ensures value { result ≡ neg_ℤ part }
    ensures bounded { Bounded (2 ^ 34) result }
{
    -part
}

impl NarrowLine {
    ghost use Rattle.std.specs.Prelude.{Bool};
    ghost use Rattle.exact_clip.specs.Clip.{Clip};
    ghost use Rattle.clip_lines.specs.Lines.{StandsFor};
    ghost use Rattle.clip_lines.specs.Parts.{of_line, IsSumOf};
    ghost use Rattle.pixel_forms.specs.Narrow.{of_narrow, IsNarrow, IsFloor};
    ghost use Rattle.pixel_forms.specs.Seen.{turned_line};

    #[inline(always)]
    fn part(units: i64, shift: u32) -> i64
        requires most { shift ≤ 30 }
        requires small { nat_abs units < 2 ^ (34 + shift) }
        ensures bounded { Bounded (2 ^ 34) result }
        ensures floor { IsFloor units (2 ^ shift) result }
    {
        units >> shift
    }

    // What the parts are off by, and what a shift drops.
    #[inline(always)]
    fn unsure(off: u64, shift: u32) -> u64
        requires off { off ≤ 3 * 2 ^ 33 }
        requires most { shift ≤ 30 }
        ensures enough { off + 2 ^ shift ≤ result * 2 ^ shift }
        ensures most { result ≤ 3 * 2 ^ 33 + 2 }
    {
        (off >> shift) + 2
    }

    /// Shifts a line until its parts are at most 2^34. Condition: it is the sum of three at most.
    #[inline(always)]
    pub(crate) fn of(line: &Line) -> NarrowLine
        requires { IsSumOf 3 line.now }
        ensures sized { IsNarrow result }
        ensures stands { (scale : ℕ) (exact : Clip) → StandsFor scale line.now.off (of_line line.now) exact
            → StandsFor (scale * 2 ^ result.shift) result.off (of_narrow result) exact }
    {
        let shift = shift_below(greatest_part(line));
        NarrowLine {
            x: NarrowLine::part(line.x, shift),
            y: NarrowLine::part(line.y, shift),
            w: NarrowLine::part(line.w, shift),
            off: NarrowLine::unsure(line.off, shift),
            shift,
        }
    }

    /// The same, or the same the other way round.
    #[inline(always)]
    pub(crate) fn turned(self, is_turned: bool) -> NarrowLine
        requires { IsNarrow self }
        ensures sized { IsNarrow result }
        ensures shift { result.shift ≡ self.shift }
        ensures stands { (scale : ℕ) (exact : Clip) → StandsFor scale self.off (of_narrow self) exact
            → StandsFor scale result.off (of_narrow result) (turned_line is_turned exact) }
    {
        if is_turned {
            NarrowLine {
                x: opposite(self.x),
                y: opposite(self.y),
                w: opposite(self.w),
                ..self
            }
        } else {
            self
        }
    }
}
