//! The verdicts of a frame's objects.
ghost use Rattle.std.specs.Prelude.{◌≡◌, ℕ, ◌+◌, ◌<◌, ◌≤◌, true, length, IfOk, IfSome, slice_get, slice_index_or};
ghost use Rattle.cull_base.specs.Screen.{tile_count_of};
ghost use Rattle.cull_base.specs.Shape.{area_of, verdict_of};
ghost use Rattle.cull_base.specs.declared.scene_types.Object.{Object};
ghost use Rattle.masked_update.specs.Views.{HoldsMet, state_in};
ghost use Rattle.scene_reader.specs.Layout.{IsObject, IsScene};
ghost use Rattle.cull_report.specs.Forms.{shape_of_form, range_of, HasTriangles};
ghost use Rattle.cull_report.specs.Hiding.{HidesObject};
ghost use Rattle.cull_report.specs.Scene.{IsMarkedRight, size_of, frame_clips, object_area, object_shape};
ghost use Rattle.cull_report.specs.Scene.{verdict_in, verdicts_in};
ghost use Rattle.cull_report.specs.Settled.{SettlesObject, is_settled_shape, settled_in};

use crate::answering::all_answers;
use crate::asked::Asked;
use crate::form::{Form, form_of};
use cull_base::{ClipVertex, Memory, NO_PIXELS, Object, Rect, Tri, Verdict};
use masked_update::TileView;
use mesh_query::{mesh_area, mesh_test};
use rect_query::{rect_test, settled_test};
use scene_reader::Scene;
use std::alloc::Global;

pub(crate) fn object_count(scene: &Scene) -> u32
    ensures { result ≡ length scene.now.objects }
{
    // an accessor tells what is held of a scene: its objects are at most 65,536
    let _near = scene.near();
    scene.objects().len() as u32
}

// An object of the scene.
fn object_at(scene: &Scene, object: u32) -> &Object
    requires { object < length scene.now.objects }
    ensures place { result.now ≡ slice_index_or scene.now.objects object result.now }
    ensures valid { IsObject (length scene.now.object_tris) result.now }
    ensures scene { IsScene scene.now }
{
    // as above: each object is valid
    let _near = scene.near();
    &scene.objects()[object as usize]
}

// A range of the scene's object triangles.
fn triangles(scene: &Scene, first: u32, count: u32) -> &[Tri]
    requires { first + count ≤ length scene.now.object_tris }
    ensures { result.now ≡ range_of scene.now.object_tris first count }
{
    let first = first as usize;
    &scene.object_tris()[first..first + count as usize]
}

// The pixels of the screen that are looked at for a form. Its clauses alone ask for the frame.
fn form_area(scene: &Scene, _frame: u32, clips: &[ClipVertex], form: Form) -> Rect
    requires clips { clips.now ≡ frame_clips scene.now _frame }
    requires triangles { HasTriangles (length scene.now.object_tris) form }
    ensures { result ≡ area_of (size_of scene.now) (shape_of_form scene.now _frame form) }
{
    match form {
        Form::Outside | Form::Visible => NO_PIXELS,
        Form::Flat { rect, .. } => rect.cut(&scene.size().screen()),
        Form::Mesh { first, count } => {
            mesh_area(
                scene.size(),
                scene.near(),
                clips,
                triangles(scene, first, count),
            )
        }
    }
}

// The verdict of a form over a view that holds the tiles of its area. Its clauses alone ask for the frame.
pub(crate) fn form_verdict<V: TileView>(
    scene: &Scene,
    _frame: u32,
    clips: &[ClipVertex],
    form: Form,
    view: &V,
) -> Verdict
    requires clips { clips.now ≡ frame_clips scene.now _frame }
    requires triangles { HasTriangles (length scene.now.object_tris) form }
    requires holds { HoldsMet (V.held view.now) (size_of scene.now)
        (area_of (size_of scene.now) (shape_of_form scene.now _frame form)) }
    ensures { result ≡ verdict_of (size_of scene.now) (state_in (size_of scene.now) (V.tile_of view.now))
        (shape_of_form scene.now _frame form) }
{
    match form {
        Form::Outside => Verdict::Outside,
        Form::Visible => Verdict::Visible,
        Form::Flat { rect, q } => rect_test(view, scene.size(), rect, q),
        Form::Mesh { first, count } => {
            let tris = triangles(scene, first, count);
            mesh_test(view, scene.size(), scene.near(), clips, tris, scene.grade())
        }
    }
}

// Whether a form is settled over a view that holds the tiles of its area. Its clauses alone ask for the frame.
fn is_form_settled<V: TileView>(scene: &Scene, _frame: u32, form: Form, view: &V) -> bool
    requires holds { HoldsMet (V.held view.now) (size_of scene.now)
        (area_of (size_of scene.now) (shape_of_form scene.now _frame form)) }
    ensures { result ≡ is_settled_shape (size_of scene.now) (state_in (size_of scene.now) (V.tile_of view.now))
        (shape_of_form scene.now _frame form) }
{
    match form {
        Form::Flat { rect, q } => settled_test(view, scene.size(), rect, q),
        Form::Outside | Form::Visible => false,
        Form::Mesh { .. } => false,
    }
}

/// The form of an object in a frame. Conditions: there is such a frame, and the object is below the number of objects.
pub fn object_form(scene: &Scene, frame: u32, object: u32) -> Form
    requires frame { frame < length scene.now.cameras }
    requires object { object < length scene.now.objects }
    ensures shape { (o : Object) → shape_of_form scene.now frame result
        ≡ object_shape scene.now frame (slice_index_or scene.now.objects object o) }
    ensures triangles { HasTriangles (length scene.now.object_tris) result }
{
    form_of(scene, frame, object_at(scene, object))
}

/// The pixels of the screen that are looked at for an object in a frame; none where it is outside or visible whatever
/// the tiles hold. Conditions: there is such a frame, the clip vertices are the frame's, and the object is below the
/// number of objects.
pub fn object_area(scene: &Scene, frame: u32, clips: &[ClipVertex], object: u32) -> Rect
    requires frame { frame < length scene.now.cameras }
    requires clips { clips.now ≡ frame_clips scene.now frame }
    requires object { object < length scene.now.objects }
    ensures { IfSome (slice_get scene.now.objects object) (λ o. result ≡ object_area scene.now frame o) }
{
    let form = form_of(scene, frame, object_at(scene, object));
    form_area(scene, frame, clips, form)
}

/// The verdict of an object in a frame over a view. Conditions as for `object_area`, and the view holds the tiles that
/// the area meets. Where these have the states after lists of pieces, as after a front of each tile's own list, an
/// object that is occluded has at each of its samples a piece of its tile's list that is strictly nearer.
pub fn object_verdict<V: TileView>(
    scene: &Scene,
    frame: u32,
    clips: &[ClipVertex],
    object: u32,
    view: &V,
) -> Verdict
    requires frame { frame < length scene.now.cameras }
    requires clips { clips.now ≡ frame_clips scene.now frame }
    requires object { object < length scene.now.objects }
    requires holds { IfSome (slice_get scene.now.objects object)
        (λ o. HoldsMet (V.held view.now) (size_of scene.now) (object_area scene.now frame o)) }
    ensures verdict { IfSome (slice_get scene.now.objects object)
        (λ o. result ≡ verdict_in scene.now frame (V.tile_of view.now) o) }
    ensures hidden { IfSome (slice_get scene.now.objects object)
        (λ o. HidesObject scene.now frame (V.tile_of view.now) o result) }
{
    let form = form_of(scene, frame, object_at(scene, object));
    form_verdict(scene, frame, clips, form, view)
}

/// Whether an object's verdict in a frame is settled over a view: it has one nearness over a rectangle with a pixel in
/// the screen, and the reference of each such pixel's subtile is strictly nearer. Conditions as for `object_verdict`.
/// Where the tiles of the object's area have the states after fronts of their lists, whichever, the object is occluded
/// after the whole frame.
pub fn object_settled<V: TileView>(
    scene: &Scene,
    frame: u32,
    clips: &[ClipVertex],
    object: u32,
    view: &V,
) -> bool
    requires frame { frame < length scene.now.cameras }
    requires clips { clips.now ≡ frame_clips scene.now frame }
    requires object { object < length scene.now.objects }
    requires holds { IfSome (slice_get scene.now.objects object)
        (λ o. HoldsMet (V.held view.now) (size_of scene.now) (object_area scene.now frame o)) }
    ensures settled { IfSome (slice_get scene.now.objects object)
        (λ o. result ≡ settled_in scene.now frame (V.tile_of view.now) o) }
    ensures early { IfSome (slice_get scene.now.objects object)
        (λ o. SettlesObject scene.now frame (V.tile_of view.now) o result) }
{
    let form = form_of(scene, frame, object_at(scene, object));
    is_form_settled(scene, frame, form, view)
}

/// Each object's verdict in a frame over the view. An object that is marked as settled isn't tested. Conditions: there
/// is such a frame, the clip vertices are the frame's, the view holds every tile, there is one mark per object, and
/// each marked object's verdict is occluded.
pub fn verdicts<V: TileView>(
    alloc: Global,
    scene: &Scene,
    frame: u32,
    clips: &[ClipVertex],
    view: &V,
    settled: &[bool],
) -> Result<Vec<Verdict>, Memory>
    requires frame { frame < length scene.now.cameras }
    requires clips { clips.now ≡ frame_clips scene.now frame }
    requires holds { (t : ℕ) → t < tile_count_of (size_of scene.now) → V.held view.now t ≡ true }
    requires marks { length settled.now ≡ length scene.now.objects }
    requires right { IsMarkedRight (verdict_in scene.now frame (V.tile_of view.now)) scene.now.objects settled.now }
    ensures { IfOk result (λ v. v.items ≡ verdicts_in scene.now frame (V.tile_of view.now)) }
{
    let asked = Asked {
        scene,
        frame,
        clips,
        view,
        settled,
    };
    let (list, _tally) = all_answers(alloc, &asked)?;
    Ok(list)
}
