//! What the views of a bin's queue know, the rule that the queue is under, and the kinds of step that it takes.
use crate::number_rule::Number;
use binning::{BinPart, Cut};
use crossbeam_queue::protocol::{Join, Lesson, Outcome, Protocol, Split};
use crossbeam_queue::{Pass, RuledArrayQueue};
use cull_base::{ScreenTri, Size};
use std::marker::{Brand, Model, PhantomData};

/// What the queue of a bin is named after. No value of it is made. Of the tiles' cells only identities are named, which a
/// published number has too.
pub struct Named {
    size: Size,
    pieces: Vec<ScreenTri>,
    cut: Cut,
    batch: u32,
    bin: u32,
    cells: Vec<Number>,
}

impl Model for Named {
    ghost use Rattle.std.specs.Prelude.{map};
    ghost use Rattle.bin_queues.specs.QueueParts.{BinOfFrame, batched, bin_of_frame};

    ghost Value = { BinOfFrame };

    ghost view = { λ n.
        bin_of_frame (batched (record { size = n.size; members = n.pieces.items }) n.cut n.batch
        (map (λ c. c.table.shared.table_id) n.cells.items)) n.bin };
}

/// Whose view it is.
pub enum Role {
    /// Of a queue that isn't named yet.
    Unnamed,
    /// The submitter's.
    Submits,
    /// The bin's task's.
    Takes,
    /// A note of how many parts were pushed.
    Notes,
    /// Nobody's any more.
    Spent,
}

/// What a pass knows of a queue. No value of it is made.
pub struct View {
    /// Whose it is.
    pub role: Role,
    /// What the queue is named after.
    pub of: Named,
    /// How many parts the submitter pushed, the task popped, or a note says.
    pub number: u64,
    /// How many parts the task was told of.
    pub told: u64,
}

/// The rule of a bin's queue.
pub struct InOrder;

impl Protocol<BinPart, View> for InOrder {
    ghost use Rattle.bin_queues.specs.QueueRule.{QueueRule, nameless};

    ghost holds = { QueueRule };

    ghost first = { nameless };
}

/// What a queue is named after, picked at the call.
pub trait Naming {
    ghost use Rattle.bin_queues.specs.QueueParts.{BinOfFrame};

    ghost bin: { BinOfFrame };
}

impl Naming for Brand {
    ghost use Rattle.bin_queues.specs.QueueRule.{no_bin};

    ghost bin = { no_bin };
}

/// The first view becomes the submitter's, and the bin's task is split from it.
pub(crate) struct Name<B> {
    of: PhantomData<B>,
}

impl<B: Naming> Split<View> for Name<B> {
    ghost use Rattle.bin_queues.specs.QueueRule.{submitter, taker};

    ghost left = { λ v. submitter B.bin 0 };

    ghost right = { λ v. taker B.bin 0 0 };
}

/// The submitter appends the next part.
pub(crate) struct Push;

impl Outcome<BinPart, View> for Push {
    ghost use Rattle.bin_queues.specs.QueueRule.{Pushed};

    ghost then = { Pushed };
}

impl Lesson<BinPart, View> for Push {
    ghost use Rattle.bin_queues.specs.QueueRule.{AtMost};

    ghost fact = { AtMost };
}

/// The task takes the next part, or finds the queue empty.
pub(crate) struct Pop;

impl Outcome<BinPart, View> for Pop {
    ghost use Rattle.bin_queues.specs.QueueRule.{Popped};

    ghost then = { Popped };
}

impl Lesson<BinPart, View> for Pop {
    ghost use Rattle.bin_queues.specs.QueueRule.{Told};

    ghost fact = { Told };
}

/// A note is split from the submitter.
pub(crate) struct Tell;

impl Split<View> for Tell {
    ghost use Rattle.bin_queues.specs.QueueRule.{note};

    ghost left = { λ v. v };

    ghost right = { λ v. note v.of v.number };
}

/// A note joins the task.
pub(crate) struct Hear;

impl Join<View> for Hear {
    ghost use Rattle.bin_queues.specs.QueueRule.{told_by, spent};

    ghost both = { told_by };

    ghost spent = { spent };
}

/// The parts of a bin, in the order of their batches.
pub type Queue = RuledArrayQueue<BinPart, View, InOrder>;

/// What is needed for a step of a queue. It has no bytes.
pub type QueuePass = Pass<BinPart, View>;
