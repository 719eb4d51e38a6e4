//! How many objects have each verdict.
ghost use Rattle.std.specs.Prelude.{◌≡◌, count_by};
ghost use Rattle.cull_report.specs.Text.{is_visible, is_occluded, is_outside};

use cull_base::Verdict;

/// How many of some verdicts are of each kind.
#[derive(Clone, Copy)]
pub struct Counts {
    pub visible: usize,
    pub occluded: usize,
    pub outside: usize,
}

impl Counts {
    pub fn of(verdicts: &[Verdict]) -> Counts
        ensures visible { result.visible ≡ count_by is_visible verdicts.now }
        ensures occluded { result.occluded ≡ count_by is_occluded verdicts.now }
        ensures outside { result.outside ≡ count_by is_outside verdicts.now }
    {
        let (mut visible, mut occluded, mut outside) = (0, 0, 0);
        for verdict in verdicts {
            visible += usize::from(*verdict == Verdict::Visible);
            occluded += usize::from(*verdict == Verdict::Occluded);
            outside += usize::from(*verdict == Verdict::Outside);
        }
        Counts {
            visible,
            occluded,
            outside,
        }
    }
}
