//! The lines of pixels, put together before they are written.
ghost use Rattle.std.specs.Prelude.{◌≡◌, ◌++◌, ◌+◌, ◌*◌, ◌<◌, ◌≤◌, cond, length};
ghost use Rattle.cull_base.specs.State.{has, samples_of};
ghost use Rattle.depth_image.specs.Picture.{number_line, shade_of};
ghost use Rattle.depth_image.specs.Samples.{cut_shade, sample_lines};

use cull_base::Grade;
use masked_update::SubTile;
use text_lines::Text;

/// The greatest number of a picture, in its third line.
pub(crate) const WHITE: u32 = 65535;

/// The line of a number, its newline too.
pub(crate) type NumberLine = Text<32>;

/// Rows of pixels that a sink is asked once to take: at most 4,096 lines of six bytes, and the lines before them.
pub(crate) type Rows = Text<24656>;

// A bound as a number of the picture.
#[inline(always)]
fn shade_of(grade: Grade, bound: u32) -> u32
    ensures { result ≡ shade_of grade bound }
{
    match grade {
        Grade::Narrow => bound,
        Grade::Wide => bound / 256,
    }
}

// The same, and the greatest number in place of one above it. No pixel's bound makes such a one, but a depth that holds
// at no sample might.
#[inline(always)]
fn cut_shade(grade: Grade, bound: u32) -> u32
    ensures value { result ≡ cut_shade grade bound }
    ensures few { result ≤ 65535 }
{
    shade_of(grade, bound).min(WHITE)
}

// The line of a number. Condition: it has at most five digits.
#[tactic(auto, unfolding(crate::specs::Picture::number_line))]
fn number_line(number: u32) -> NumberLine
    requires { number ≤ 65535 }
    ensures value { result ≡ number_line number }
    ensures short { length result ≤ 6 }
{
    let mut line = Text::empty();
    line.push_number(u64::from(number));
    line.end();
    line
}

// The line of a depth of a subtile.
fn depth_line(grade: Grade, depth: u32) -> NumberLine
    ensures value { result ≡ number_line (cut_shade grade depth) }
    ensures short { length result ≤ 6 }
{
    number_line(cut_shade(grade, depth))
}

// One line at a sample of the mask, and another at any other. Conditions: a subtile has the sample, and both lines have
// at most five digits.
#[inline(always)]
fn line_at<'a>(
    mask: u32,
    sample: u32,
    working: &'a NumberLine,
    reference: &'a NumberLine,
) -> &'a NumberLine
    requires sample { sample < 32 }
    requires working { length working.now ≤ 6 }
    requires reference { length reference.now ≤ 6 }
    ensures value { result.now ≡ cond (has (samples_of mask) sample) working.now reference.now }
    ensures short { length result.now ≤ 6 }
{
    if (mask >> sample) & 1 == 1 {
        working
    } else {
        reference
    }
}

/// Appends the lines of a row of samples of a subtile. The lines of its two depths are made once. Conditions: the
/// subtile has the row, and there is room for eight lines.
pub(crate) fn push_samples(text: &mut Rows, sub: &SubTile, grade: Grade, row: u32)
    requires row { row < 4 }
    requires room { length text.old + 48 ≤ 24656 }
    ensures value { text.new ≡ text.old ++ sample_lines grade sub.now (8 * row) 8 }
    ensures room { length text.new ≤ length text.old + 48 }
{
    let working = depth_line(grade, sub.working());
    let reference = depth_line(grade, sub.reference());
    let mask = sub.mask();
    for column in 0..8 {
        let line = line_at(mask, 8 * row + column, &working, &reference);
        text.push(line.as_slice());
    }
}
