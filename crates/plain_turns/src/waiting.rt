//! Which of the bins that wait is to be drawn next.
use crate::plain_tasks::WaitingTask;
use seats::Loan;

/// Of the bins that wait and aren't drawn whole, of so many batches, the first that drew the fewest. So all are whole at
/// about the same time, and there is work for each worker until then. Past the last bin where there is none.
pub(crate) fn next_bin(slots: &[Option<Loan<WaitingTask>>], batches: u32) -> usize {
    let (mut least, mut next) = (batches, slots.len());
    for bin in 0..slots.len() {
        if let Some(loan) = &slots[bin] {
            let drawn = loan.task.intake.batches();
            if drawn < least {
                (least, next) = (drawn, bin);
            }
        }
    }
    next
}
