//! What groups and their hulls are, and why the members of a hidden group needn't be tested.
ghost use Rattle.group_query.specs.Grouping.{CutsInGroups};
ghost use Rattle.group_query.specs.Hidden.{HidesMembers};
ghost use Rattle.group_query.specs.Hulls.{HullsAreTight};

/// Members of groups are boxes, at most so many as are asked for; each box of a scene is in a group, and behind a group
/// of fewer stands no box.
pub fn boxes_stand_in_groups()
    ensures { CutsInGroups }
{}

/// Each side of a group's hull is that of the area of a member that counts, and its nearness is one of theirs. So no
/// smaller rectangle holds them all, and no lesser nearness is as near.
pub fn hull_touches_its_members()
    ensures { HullsAreTight }
{}

/// In a hidden group each member that counts is occluded: its samples are among the hull's, and its nearness is at most
/// the hull's.
pub fn hidden_group_hides_members()
    ensures { HidesMembers }
{}
