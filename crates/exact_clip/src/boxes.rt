//! The corners of a box. It has two numbers on each axis, so its eight corners share products.
ghost use Rattle.std.specs.Prelude.{◌≡◌, ◌^◌, IsSome, IfSome, ◌↔◌, map};
ghost use Rattle.std.specs.List.{All, AllZip};
ghost use Rattle.float_bits.specs.Floats.{IsNumber};
ghost use Rattle.exact_clip.specs.Boxes.{corners_of};
ghost use Rattle.exact_clip.specs.Clip.{clip_of};
ghost use Rattle.exact_clip.specs.Held.{Holds};
ghost use Rattle.exact_clip.specs.Lost.{IsInReach};

use crate::held::Held;
use crate::parts::sum;
use crate::rows::Rows;

impl Rows {
    /// The clip coordinates of the eight corners between the least and the greatest floats, x first, then y, then z: bit
    /// 0 of a corner's number takes the greatest x, bit 1 the greatest y, bit 2 the greatest z. None: one of the floats
    /// is no number, or the product of two is lost.
    pub fn box_corners(&self, low: &[u32; 3], high: &[u32; 3]) -> Option<[Held; 8]>
        ensures known { IsSome result
            ↔ ((All IsNumber low.now × IsInReach self.now.exponent self.now.matrix low.now)
            × (All IsNumber high.now × IsInReach self.now.exponent self.now.matrix high.now)) }
        ensures holds { IfSome result (λ vs. AllZip (Holds (2 ^ self.now.exponent)) vs
            (map (clip_of self.now.matrix) (corners_of low.now high.now))) }
    {
        let last = self.last()?;
        let a = self.parts(low)?;
        let b = self.parts(high)?;
        Some([
            sum(&a.x, &a.y, &a.z, &last),
            sum(&b.x, &a.y, &a.z, &last),
            sum(&a.x, &b.y, &a.z, &last),
            sum(&b.x, &b.y, &a.z, &last),
            sum(&a.x, &a.y, &b.z, &last),
            sum(&b.x, &a.y, &b.z, &last),
            sum(&a.x, &b.y, &b.z, &last),
            sum(&b.x, &b.y, &b.z, &last),
        ])
    }
}
