//! The objects of a frame, tested over tiles that are drawn.
ghost use Rattle.std.specs.Prelude.{◌≡◌, ℕ, ◌<◌, true, length, slice_index_or};
ghost use Rattle.cull_base.specs.Screen.{tile_count_of};
ghost use Rattle.cull_base.specs.declared.scene_types.Object.{Object};
ghost use Rattle.cull_report.specs.Forms.{shape_of_form, HasTriangles};
ghost use Rattle.cull_report.specs.Scene.{IsMarkedRight, size_of, frame_clips, object_shape, verdict_in, verdicts_in};

use crate::answering::Answering;
use crate::form::Form;
use crate::objects::{form_verdict, object_count, object_verdict};
use crate::tally::Tally;
use cull_base::{ClipVertex, Verdict};
use masked_update::TileView;
use scene_reader::Scene;

/// The objects of a scene in one of its frames, and the view over which they are tested. Conditions: there is such a
/// frame, the clip vertices are the frame's, the view holds every tile, there is one mark per object, and each marked
/// object's verdict is occluded.
#[derive(Drop)]
pub struct Asked<'a, V: TileView> {
    pub scene: &'a Scene,
    pub frame: u32,
    pub clips: &'a [ClipVertex],
    pub view: &'a V,
    pub settled: &'a [bool],
    ghost is_frame: { frame < length scene.now.cameras },
    ghost are_clips: { clips.now ≡ frame_clips scene.now frame },
    ghost holds: { (t : ℕ) → t < tile_count_of (size_of scene.now) → V.held view.now t ≡ true },
    ghost marks: { length settled.now ≡ length scene.now.objects },
    ghost right: { IsMarkedRight (verdict_in scene.now frame (V.tile_of view.now)) scene.now.objects settled.now },
}

impl<'a, V: TileView> Asked<'a, V> {
    /// The verdict of an object. One that is marked as settled isn't tested. Condition: there is such an object.
    pub fn verdict_at(&self, object: u32) -> Verdict
        requires { object < length self.now.scene.now.objects }
        ensures { (o : Object) → result ≡ verdict_in self.now.scene.now self.now.frame (V.tile_of self.now.view.now)
            (slice_index_or self.now.scene.now.objects object o) }
    {
        if self.settled[object as usize] {
            Verdict::Occluded
        } else {
            object_verdict(self.scene, self.frame, self.clips, object, self.view)
        }
    }

    /// The same by the object's form, which isn't made again. Conditions: there is such an object, and the form is its
    /// own.
    pub fn verdict_by(&self, object: u32, form: Form) -> Verdict
        requires object { object < length self.now.scene.now.objects }
        requires triangles { HasTriangles (length self.now.scene.now.object_tris) form }
        requires own { (o : Object) → shape_of_form self.now.scene.now self.now.frame form
            ≡ object_shape self.now.scene.now self.now.frame (slice_index_or self.now.scene.now.objects object o) }
        ensures { (o : Object) → result ≡ verdict_in self.now.scene.now self.now.frame (V.tile_of self.now.view.now)
            (slice_index_or self.now.scene.now.objects object o) }
    {
        if self.settled[object as usize] {
            return Verdict::Occluded;
        }
        form_verdict(self.scene, self.frame, self.clips, form, self.view)
    }
}

impl<'a, V: TileView> Answering for Asked<'a, V> {
    ghost use Rattle.cull_report.specs.Scene.{verdicts_in};
    ghost use Rattle.cull_report.specs.Tallies.{no_tally};

    ghost all = { λ a. verdicts_in a.scene.now a.frame (V.tile_of a.view.now) };

    ghost told = { λ a place. no_tally };

    fn count(&self) -> u32 {
        object_count(self.scene)
    }

    fn answer(&self, first: u32, count: u32, verdicts: &mut Vec<Verdict>) -> Tally {
        // it tells that the objects' numbers fit
        let _objects = self.count();
        for k in 0..count {
            let verdict = self.verdict_at(first + k);
            verdicts.push_reserved(verdict);
        }
        Tally {
            hidden: 0,
            members: 0,
        }
    }
}
