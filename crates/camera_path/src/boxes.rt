//! The corners of a box as a camera sees them. A box has two values on each axis, so its eight corners share products.
ghost use Rattle.std.specs.Prelude.{◌≡◌, ◌+◌, ◌<◌, ◌≤◌, ◌^◌, map};
ghost use Rattle.camera_path.specs.Clip.{coordinate_of, clip_of, corners_of, number, AreWithin};

use crate::camera::Camera;
use cull_base::ClipVertex;

impl Camera {
    // The coordinates of a box's corners by the row that begins at number r.
    #[inline(always)]
    fn box_coordinates(&self, r: usize, low: &[i32; 3], high: &[i32; 3]) -> [i64; 8]
        requires row { r + 4 ≤ 12 }
        requires camera { AreWithin (2 ^ 24) self.now.0 }
        requires low { AreWithin (2 ^ 24) low.now }
        requires high { AreWithin (2 ^ 24) high.now }
        ensures { result ≡ map (coordinate_of self.now.0 r) (corners_of low.now high.now) }
    {
        let a = self.products(r, low);
        let b = self.products(r, high);
        [
            self.added_up(r, a.x, a.y, a.z),
            self.added_up(r, b.x, a.y, a.z),
            self.added_up(r, a.x, b.y, a.z),
            self.added_up(r, b.x, b.y, a.z),
            self.added_up(r, a.x, a.y, b.z),
            self.added_up(r, b.x, a.y, b.z),
            self.added_up(r, a.x, b.y, b.z),
            self.added_up(r, b.x, b.y, b.z),
        ]
    }

    /// Where the corners of a box between its least and its greatest coordinates lie, x first, then y, then z. Condition:
    /// the camera's numbers and the box's are at most 2^24 away from 0.
    #[inline(always)]
    #[tactic(auto, unfolding(crate::specs::Clip::clip_of))]
    pub fn clip_box(&self, low: &[i32; 3], high: &[i32; 3]) -> [ClipVertex; 8]
        requires camera { AreWithin (2 ^ 24) self.now.0 }
        requires low { AreWithin (2 ^ 24) low.now }
        requires high { AreWithin (2 ^ 24) high.now }
        ensures { result ≡ map (clip_of self.now.0) (corners_of low.now high.now) }
    {
        let x = self.box_coordinates(0, low, high);
        let y = self.box_coordinates(4, low, high);
        let w = self.box_coordinates(8, low, high);
        [
            corner(&x, &y, &w, 0),
            corner(&x, &y, &w, 1),
            corner(&x, &y, &w, 2),
            corner(&x, &y, &w, 3),
            corner(&x, &y, &w, 4),
            corner(&x, &y, &w, 5),
            corner(&x, &y, &w, 6),
            corner(&x, &y, &w, 7),
        ]
    }
}

// Corner k of the eight.
#[inline(always)]
fn corner(x: &[i64; 8], y: &[i64; 8], w: &[i64; 8], k: usize) -> ClipVertex
    requires { k < 8 }
    ensures { result ≡ record { x = number x.now k; y = number y.now k; w = number w.now k } }
{
    ClipVertex {
        x: x[k],
        y: y[k],
        w: w[k],
    }
}
