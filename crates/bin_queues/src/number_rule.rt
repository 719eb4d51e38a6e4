//! What the views of the published number of batches know, the rule that it is under, and its kinds of step.
use atomic_table::Split;
use crossbeam_utils::atomic::seq_cell::{Pass, RuledSeqCell};
use crossbeam_utils::rule::{Outcome, Protocol};

/// Whose view it is.
pub enum NumberRole {
    /// The submitter's.
    Publishes,
    /// A task's.
    Listens,
}

/// What a pass knows of the published number. No value of it is made.
pub struct NumberView {
    /// Whose it is.
    pub role: NumberRole,
    /// The number that was published, or that a task heard last.
    pub number: u64,
    /// How often a task looked.
    pub looks: u64,
}

/// The rule of the published number.
pub struct Published;

impl Protocol<[u64; 1], NumberView> for Published {
    ghost use Rattle.bin_queues.specs.NumberRule.{PublishedRule, publisher};

    ghost holds = { PublishedRule };

    ghost first = { publisher 0 };
}

/// The submitter raises the number.
pub(crate) struct Raise;

impl Outcome<[u64; 1], NumberView> for Raise {
    ghost use Rattle.bin_queues.specs.NumberRule.{Raised};

    ghost then = { Raised };
}

/// A task looks at the number.
pub(crate) struct Look;

impl Outcome<[u64; 1], NumberView> for Look {
    ghost use Rattle.bin_queues.specs.NumberRule.{Heard};

    ghost then = { Heard };
}

/// A task's view is split from the submitter's.
pub(crate) struct Listen;

impl Split<NumberView> for Listen {
    ghost use Rattle.bin_queues.specs.NumberRule.{listener};

    ghost left = { λ v. v };

    ghost right = { λ v. listener 0 0 };
}

/// The number of batches that were pushed to all bins.
pub type Number = RuledSeqCell<[u64; 1], NumberView, Published, 1>;

/// What is needed for a step of the number. It has no bytes.
pub type NumberPass = Pass<[u64; 1], NumberView>;
