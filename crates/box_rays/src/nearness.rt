//! How near an object comes.
ghost use Rattle.std.specs.Prelude.{pos, ◌+◌, ◌*◌, ◌^◌, ◌≤◌, ◌<◌, ◌*ℤ◌, ◌≤ℤ◌, ◌<ℤ◌, IfSome};
ghost use Rattle.std.specs.List.{All};

use exact_clip::Held;

/// Shares of nearness are parts of this.
const WHOLE: u32 = 0x100_0000;

/// The least distance of some corners.
pub(crate) fn nearest_of(corners: &[Held]) -> i64
    ensures { All (λ v. result ≤ℤ v.w) corners.now }
{
    let mut nearest = i64::MAX;
    for v in corners {
        nearest = nearest.min(v.w);
    }
    nearest
}

// The nearness at a distance of one unit, with a share more, rounded up.
fn nearness_of_unit(near: u32, share: u32, top: u32) -> u64
    requires share { share ≤ 2 ^ 20 }
    requires top { top < 2 ^ 24 }
    ensures value { top * (2 ^ 24 + share) * near ≤ result * 2 ^ 24 }
{
    let raised = u64::from(top) * u64::from(WHOLE + share);
    let product = u128::from(raised) * u128::from(near);
    product.div_ceil(u128::from(WHOLE)) as u64
}

/// The nearness of an object whose nearest corner has this distance, with a share more. None where it is above the top.
pub(crate) fn nearness_at(nearest: i64, near: u32, share: u32, top: u32) -> Option<u32>
    requires nearest { pos 0 <ℤ nearest }
    requires share { share ≤ 2 ^ 20 }
    requires top { top < 2 ^ 24 }
    ensures within { IfSome result (λ q. q ≤ top) }
    ensures value { IfSome result (λ q. pos (top * (2 ^ 24 + share) * near) ≤ℤ (pos (q * 2 ^ 24) *ℤ nearest)) }
{
    let nearness = nearness_of_unit(near, share, top).div_ceil(nearest as u64);
    if nearness <= u64::from(top) {
        Some(nearness as u32)
    } else {
        None
    }
}
