//! The hull of a group.
ghost use Rattle.std.specs.Prelude.{◌≡◌, ◌+◌, ◌<◌, ◌≤◌, length, None, IfSome};
ghost use Rattle.cull_report.specs.Scene.{size_of};
ghost use Rattle.group_query.specs.Hulls.{HoldsMembers, counted, hull_of, member_shapes, members_of};

use crate::grouping::Group;
use crate::hulls::{Hull, grown_by, no_members, told};
use scene_reader::Scene;

/// The hull of a group in a frame. None exactly where no member counts. Conditions: there is such a frame, and the
/// group's members are objects of the scene, as those of each of `groups` are.
pub fn hull(scene: &Scene, frame: u32, group: Group) -> Option<Hull>
    requires frame { frame < length scene.now.cameras }
    requires group { group.first + group.count ≤ length scene.now.objects }
    ensures hull { result ≡ hull_of scene.now frame group }
    ensures members { members_of result ≡ counted (size_of scene.now) (member_shapes scene.now frame group) }
    ensures none { result ≡ None → counted (size_of scene.now) (member_shapes scene.now frame group) ≡ 0 }
    ensures some { IfSome result (λ h. 0 < h.members) }
    ensures holds { IfSome result (HoldsMembers (size_of scene.now) (member_shapes scene.now frame group)) }
{
    let size = scene.size();
    let hull = grown_by(
        scene,
        frame,
        size,
        no_members(size),
        group.first,
        group.count,
    );
    told(hull)
}
