//! The plain tiles of a bin, which nobody reads while they are drawn.
ghost use Rattle.std.specs.Prelude.{◌≡◌, ◌<◌, ◌+◌, ℕ, length};

use crate::keeper::Keeper;
use binning::Cut;
use cull_base::FrameList;
use masked_update::Canvas;

impl Keeper<()> for Canvas {
    ghost use Rattle.bin_tiles.specs.Plain.{StandsPlain, plain_passes};
    ghost use Rattle.std.specs.Prelude.{[]};

    ghost cells = { λ beside. [] };

    ghost stands = { StandsPlain };

    #[inline(always)]
    fn draw_member(&mut self, _beside: &(), list: &FrameList, _cut: &Cut, _bin: u32, index: u32) {
        Canvas::draw_member(self, list, index);
    }

    ghost passes = { plain_passes };
}
