//! Groups of boxes that follow on one another: where the hull of a group is hidden, those of its members that count are
//! occluded. None of these is tested by itself if the group is the first of the part that a worker takes, or the group
//! before was hidden too.
#![tactic(auto)]

mod around;
mod begun;
mod group_hull;
mod grouped;
mod grouping;
mod hulls;
mod laws;
mod lines;
mod report;
mod tested;

pub use group_hull::hull;
pub use grouped::Grouped;
pub use grouping::{Group, groups};
pub use hulls::Hull;
pub use laws::{boxes_stand_in_groups, hidden_group_hides_members, hull_touches_its_members};
pub use lines::group_line;
pub use report::{
    GroupReport, group_verdicts, group_verdicts_by_workers, group_verdicts_with_lines,
};
