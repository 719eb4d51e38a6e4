//! Which groups begin before a place.
ghost use Rattle.std.specs.Prelude.{◌≡◌, ◌+◌, ◌-◌, ◌<◌, length, nat_lt, slice_index_or};
ghost use Rattle.group_query.specs.Grouping.{AreApart, AreBegun, AreBegunBetween};
ghost use Rattle.group_query.specs.declared.grouping.Group.{Group};

use crate::grouping::Group;

// How many groups begin before a place lies from a least number to a greatest.
#[derive(Clone, Copy)]
struct Between {
    least: usize,
    greatest: usize,
}

// Whether the group of a number begins before a place.
fn begins_before(groups: &[Group], number: usize, place: u32) -> bool
    requires { number < length groups.now }
    ensures { (d : Group) → result ≡ nat_lt (slice_index_or groups.now number d).first place }
{
    groups[number].first < place
}

// The half in which it lies.
fn halved(groups: &[Group], place: u32, _objects: u32, between: Between) -> Between
    requires apart { AreApart _objects groups.now }
    requires begun { AreBegunBetween place groups.now between.least between.greatest }
    requires some { between.least < between.greatest }
    ensures begun { AreBegunBetween place groups.now result.least result.greatest }
    ensures smaller { result.greatest - result.least < between.greatest - between.least }
{
    let middle = between.least + (between.greatest - between.least) / 2;
    if begins_before(groups, middle, place) {
        return Between {
            least: middle + 1,
            greatest: between.greatest,
        };
    }
    Between {
        least: between.least,
        greatest: middle,
    }
}

/// How many of some groups begin before a place, by halving. Its clauses alone ask for the number of objects.
/// Condition: the groups are in order.
pub(crate) fn begun_before(groups: &[Group], place: u32, _objects: u32) -> usize
    requires { AreApart _objects groups.now }
    ensures { AreBegun place groups.now result }
{
    let (mut least, mut greatest) = (0usize, groups.len());
    while least < greatest {
        let half = halved(groups, place, _objects, Between { least, greatest });
        least = half.least;
        greatest = half.greatest;
    }
    least
}
