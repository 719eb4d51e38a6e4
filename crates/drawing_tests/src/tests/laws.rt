//! Laws on nearness, bounds and samples.
use cull_base::held_top;
use masked_update::{bounds_within, sampled_members};

#[test]
fn the_laws_on_bounds_are_called(rt: HostRuntime) {
    held_top();
    bounds_within();
    sampled_members();
}
