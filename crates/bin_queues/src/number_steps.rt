//! The steps on the published number.
ghost use Rattle.std.specs.Prelude.{◌≡◌, ◌+◌, ◌≤◌, IfOk};
ghost use Rattle.crossbeam_utils.specs.Seq.{IsSamePass, cell_view};
ghost use Rattle.bin_queues.specs.NumberRule.{publisher, listener, IsPublisher, IsListener};

use crate::number_rule::{Listen, Look, Number, NumberPass, Raise};
use std::alloc::{AllocError, Global};
use std::sync::Wait;

/// The number 0, and the submitter's pass.
pub(crate) fn opened(alloc: Global) -> Result<(Number, NumberPass), AllocError>
    ensures { IfOk result (λ c. (c.1.table_id ≡ c.0.table.shared.table_id) × (cell_view c.1 ≡ publisher 0)) }
{
    Number::ruled(alloc, [0])
}

/// A task's pass, which has heard nothing.
pub(crate) fn listen(cell: &Number, pass: &mut NumberPass) -> NumberPass
    requires own { pass.old.table_id ≡ cell.now.table.shared.table_id }
    requires publishes { IsPublisher (cell_view pass.old) }
    ensures own { IsSamePass pass.old pass.new × (cell_view pass.new ≡ cell_view pass.old) }
    ensures listens { (result.table_id ≡ pass.old.table_id) × (cell_view result ≡ listener 0 0) }
{
    cell.split_pass::<Listen>(pass)
}

/// Raises the number by one, to the next.
pub(crate) fn raise<R: Wait>(rt: &R, cell: &Number, pass: &mut NumberPass, next: u64)
    requires own { pass.old.table_id ≡ cell.now.table.shared.table_id }
    requires publishes { IsPublisher (cell_view pass.old) }
    requires next { next ≡ (cell_view pass.old).number + 1 }
    ensures own { IsSamePass pass.old pass.new }
    ensures raised { cell_view pass.new ≡ publisher next }
{
    cell.swap_as::<Raise, R>(rt, pass, [next]);
}

/// The number, seen by a task.
pub(crate) fn look<R: Wait>(rt: &R, cell: &Number, pass: &mut NumberPass) -> u64
    requires own { pass.old.table_id ≡ cell.now.table.shared.table_id }
    requires listens { IsListener (cell_view pass.old) }
    ensures own { IsSamePass pass.old pass.new }
    ensures heard { cell_view pass.new ≡ listener result ((cell_view pass.old).looks + 1) }
    ensures rises { (cell_view pass.old).number ≤ result }
{
    cell.load_as::<Look, R>(rt, pass)[0]
}
