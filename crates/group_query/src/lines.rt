//! The line of a frame's groups.
ghost use Rattle.std.specs.Prelude.{◌≡◌};
ghost use Rattle.group_query.specs.Text.{group_line};

use text_lines::Line;

/// How many groups a frame has, how many of them are hidden, and how many members of these count.
#[tactic(auto, unfolding(crate::specs::Text::group_line))]
pub fn group_line(frame: u32, count: usize, hidden: u32, members: u32) -> Line
    ensures { result ≡ group_line frame count hidden members }
{
    let mut line = Line::begin(b"groups");
    line.number(u64::from(frame));
    line.word(b"count");
    line.number(count as u64);
    line.word(b"hidden");
    line.number(u64::from(hidden));
    line.word(b"members");
    line.number(u64::from(members));
    line.end();
    line
}
