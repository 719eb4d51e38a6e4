//! What the views of a worker's deque know, the rule that the deque is under, and the kinds of step that it takes.
use binning::Cut;
use crossbeam_deque::protocol::{Join, Outcome, Protocol, Split};
use crossbeam_deque::{Pass, Stealer, Worker};
use cull_base::FrameList;
use std::alloc::Global;
use std::collections::LinkedList;
use std::marker::{Brand, Model, PhantomData};
use tile_cells::TileCells;
use tile_queues::{BinQueues, BinTask};

/// A list that is drawn in batches into the bins of a cut screen, over the cells of its tiles. No value of it is made.
pub struct Framed {
    list: FrameList,
    cut: Cut,
    size: u32,
    cells: TileCells,
}

impl Model for Framed {
    ghost use Rattle.bin_queues.specs.QueueParts.{BatchedFrame, batched};

    ghost Value = { BatchedFrame };

    ghost view = { λ f. batched f.list.list f.cut f.size f.cells };
}

/// What a deque is named after: the queues and the frame of its tasks, and how many tasks it is for. No value of it is
/// made.
pub struct Call {
    pub queues: BinQueues,
    pub frame: Framed,
    pub room: u64,
}

/// Whose view it is.
pub enum Role {
    /// Of a deque that isn't named yet.
    Unnamed,
    /// The owner's.
    Owns,
    /// A stealer's.
    Steals,
    /// Nobody's any more.
    Ended,
}

/// What a pass knows of a deque. No value of it is made.
pub struct View {
    /// Whose it is.
    pub role: Role,
    /// What the deque is named after.
    pub of: Call,
    /// The bins of the tasks that the owner pushed.
    pub pushed: LinkedList<u32>,
    /// The places that were taken, each with its bin.
    pub taken: LinkedList<(u64, u32)>,
    /// How many stealers' views no join has ended: the owner knows it.
    pub out: u64,
}

/// The rule of a worker's deque.
pub struct EachOnce;

impl Protocol<BinTask, View> for EachOnce {
    ghost use Rattle.steal_pool.specs.DequeRule.{DequeRule, nameless, ended};

    ghost holds = { DequeRule };

    ghost first = { nameless };

    ghost guest = { ended };
}

/// What a deque is named after, picked at the call.
pub trait Naming {
    ghost use Rattle.steal_pool.specs.declared.deque_rule.Call.{Call};

    ghost call: { Call };
}

impl Naming for Brand {
    ghost use Rattle.steal_pool.specs.DequeRule.{nobody};

    ghost call = { nobody };
}

/// The first view becomes the owner's.
pub(crate) struct Name<B> {
    of: PhantomData<B>,
}

impl<B: Naming> Split<View> for Name<B> {
    ghost use Rattle.std.specs.Prelude.{[]};
    ghost use Rattle.steal_pool.specs.DequeRule.{owning, ended};

    ghost left = { λ v. owning B.call [] [] 0 };

    ghost right = { λ v. ended };
}

/// A stealer's view is split from the owner's.
pub(crate) struct Lend;

impl Split<View> for Lend {
    ghost use Rattle.steal_pool.specs.DequeRule.{lending, lent};

    ghost left = { lending };

    ghost right = { lent };
}

/// A stealer's view ends in the owner's.
pub(crate) struct Return;

impl Join<View> for Return {
    ghost use Rattle.steal_pool.specs.DequeRule.{returned, ended};

    ghost both = { returned };

    ghost spent = { ended };
}

/// The owner appends a task.
pub(crate) struct Push;

impl Outcome<BinTask, View> for Push {
    ghost use Rattle.steal_pool.specs.DequeRule.{Pushed};

    ghost then = { Pushed };
}

/// The owner takes a task, or finds the deque empty.
pub(crate) struct Pop;

impl Outcome<BinTask, View> for Pop {
    ghost use Rattle.steal_pool.specs.DequeRule.{Took, LooksEmpty};

    ghost then = { Took };

    ghost empty = { LooksEmpty };
}

/// A stealer takes a task.
pub(crate) struct Theft;

impl Outcome<BinTask, View> for Theft {
    ghost use Rattle.steal_pool.specs.DequeRule.{Took, IsShort};

    ghost then = { Took };

    ghost empty = { IsShort };
}

/// A worker's deque, by which its owner pushes and pops.
pub type Owner = Worker<BinTask, Global, View, EachOnce>;

/// A worker's deque, from which others steal.
pub type Thief = Stealer<BinTask, Global, View, EachOnce>;

/// What is needed to steal. It has no bytes.
pub type DequePass = Pass<BinTask, View>;
