//! What workers have between their turns: a share of the ledger each, and no task.
ghost use Rattle.std.specs.Prelude.{◌≡◌, ◌+◌, vec_len, IfOk, OnOk};

use std::alloc::{AllocError, Global};
use std::sync::ledger::{Ledger, Share};

/// A worker's share of the ledger between its turns, in which it has no task. A turn takes the share out, and has to give
/// its task back before it ends, on each way out.
#[derive(Drop)]
pub struct Hand<P: Ledger> {
    pub share: Share<P>,
    pub ghost one: { share.parts ≡ 1 },
    pub ghost none: { share.amount ≡ 0 },
}

/// The hands of so many workers, cut from a share.
pub(crate) fn hands_of<P: Ledger>(
    alloc: Global,
    own: &mut Share<P>,
    workers: u32,
) -> Result<Vec<Hand<P>>, AllocError>
    requires parts { own.old.parts ≡ workers + 1 }
    requires none { own.old.amount ≡ 0 }
    ensures hands { IfOk result (λ v. vec_len v ≡ workers) }
    ensures left { OnOk result (own.new.parts ≡ 1) }
    ensures none { own.new.amount ≡ 0 }
{
    let mut hands = Vec::with_capacity(alloc, workers as usize)?;
    for _i in 0..workers {
        hands.push_reserved(Hand {
            share: own.split_off(1, 0),
        });
    }
    Ok(hands)
}

/// All shares in one.
pub(crate) fn merge_all<P: Ledger>(own: &mut Share<P>, hands: Vec<Hand<P>>)
    requires { own.old.amount ≡ 0 }
    ensures parts { own.new.parts ≡ own.old.parts + vec_len hands }
    ensures none { own.new.amount ≡ 0 }
{
    for hand in hands {
        let Hand { share } = hand;
        own.merge(share);
    }
}
