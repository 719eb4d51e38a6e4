//! The pieces of a frame that may cover a sample.
ghost use Rattle.std.specs.Prelude.{◌≡◌, length, IfOk};
ghost use Rattle.cull_base.specs.Sampled.{sampled_among};
ghost use Rattle.snap_setup.specs.Occluders.{list_of};

use crate::frame::push_whole;
use crate::keeping::Keeping;
use crate::occluders::Occluders;
use crate::vertices::shared_vertices;
use cull_base::{FrameList, Memory};
use std::alloc::Global;

/// The pieces of a frame that are kept, in submission order, and how many it has in all.
#[derive(Drop)]
pub struct KeptList {
    pub list: FrameList,
    pub listed: u32,
}

/// Of the pieces that `frame_list` gives, those in whose box, or on its edge, a pixel's middle on the screen stands,
/// and how many that gives. All memory is allocated first. Err: out of memory.
pub fn sampled_list(alloc: Global, occluders: &Occluders) -> Result<KeptList, Memory>
    ensures members { IfOk result
        (λ s. s.list.list.members ≡ sampled_among occluders.now.size (list_of occluders.now)) }
    ensures size { IfOk result (λ s. s.list.list.size ≡ occluders.now.size) }
    ensures listed { IfOk result (λ s. s.listed ≡ length (list_of occluders.now)) }
{
    let mut list = FrameList::with_room(alloc, occluders.size, 2 * occluders.tris.len() as u32)?;
    let vertices = shared_vertices(alloc, occluders)?;
    let listed = push_whole(occluders, vertices.as_slice(), Keeping::Sampled, &mut list);
    Ok(KeptList { list, listed })
}
