//! What the rule of a worker's deque says place by place, and what lists of tasks say bin by bin.
ghost use Rattle.steal_pool.specs.Counted.{EachBinOnce, FrontCounts, OwnerHasEach, OwnerHasNoOther};
ghost use Rattle.steal_pool.specs.Counted.{StandNowhereElse, StandOnce};

/// Each place that left a deque stands in exactly one view's list, once, with the bin that was pushed there, and no
/// other place in any. Front is the number of all places that were taken.
pub fn places_are_taken_once()
    ensures once { StandOnce }
    ensures others { StandNowhereElse }
    ensures front { FrontCounts }
{}

/// An owner that finds its deque empty, where no stealer's view is out, has each place that was pushed, once, with its
/// bin, and no other.
pub fn owner_has_every_place()
    ensures each { OwnerHasEach }
    ensures others { OwnerHasNoOther }
{}

/// Of lists that together have the tasks of a frame, as workers hand them out, exactly one has the task of each bin,
/// once.
pub fn each_bin_is_in_one_list()
    ensures { EachBinOnce }
{}
