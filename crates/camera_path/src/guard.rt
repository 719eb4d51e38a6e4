//! The near distance and the guard: between which limits a clip vertex may lie.
ghost use Rattle.std.specs.Prelude.{◌≡◌, ◌≤◌};
ghost use Rattle.cull_base.specs.Guard.{is_beyond, is_past_guard};
ghost use Rattle.cull_base.specs.NearPlane.{is_behind};

use cull_base::ClipVertex;

/// The guard in near distances.
const GUARD: u64 = 16384;

#[inline(always)]
fn is_beyond(limit: u64, v: i64) -> bool
    ensures { result ≡ is_beyond limit v }
{
    v.unsigned_abs() > limit
}

/// Whether a clip vertex lies before the near distance.
#[inline(always)]
pub fn is_behind(v: &ClipVertex, near: u16) -> bool
    ensures { result ≡ is_behind near v.now }
{
    v.w < i64::from(near)
}

/// Whether x, y or w of a clip vertex lies more than 16384 near distances away from 0.
/// Condition: `near` is 1 to 1024.
#[inline(always)]
pub fn past_guard(v: &ClipVertex, near: u16) -> bool
    requires near_least { 1 ≤ near }
    requires near_most { near ≤ 1024 }
    ensures { result ≡ is_past_guard v.now near }
{
    let limit = GUARD * u64::from(near);
    is_beyond(limit, v.x) | is_beyond(limit, v.y) | is_beyond(limit, v.w)
}
