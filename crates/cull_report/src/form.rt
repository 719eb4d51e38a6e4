//! What is asked of the tiles for an object.
ghost use Rattle.std.specs.Prelude.{◌≡◌, ◌≤◌, ◌<◌, ◌^◌, [], ◌∷◌, map, length};
ghost use Rattle.cull_base.specs.Grade.{top_of};
ghost use Rattle.camera_path.specs.Clip.{clip_of, corners_of, AreWithin};
ghost use Rattle.rect_query.specs.Boxes.{box_shape};
ghost use Rattle.rect_query.specs.Rectangles.{rectangle_shape};
ghost use Rattle.cull_report.specs.Scene.{camera_at, object_shape};
ghost use Rattle.cull_report.specs.Forms.{shape_of_form, IsFlatForm, HasTriangles};
ghost use Rattle.scene_reader.specs.Layout.{IsObject};

use camera_path::Camera;
use cull_base::{ClipVertex, Grade, Object, Rect, Size};
use rect_query::{BoxAnswer, box_rect, rect_near};
use scene_reader::Scene;

/// What is asked of the tiles for an object in a frame. It is outside or visible whatever the tiles hold; or it has one
/// nearness over a rectangle; or it is a range of the scene's object triangles.
#[derive(Clone, Copy)]
pub enum Form {
    Outside,
    Visible,
    Flat { rect: Rect, q: u32 },
    Mesh { first: u32, count: u32 },
}

// A rectangle at distance w: visible before the near distance where it has a pixel in the screen.
fn rectangle_form(size: Size, near: u16, rect: Rect, w: i32, grade: Grade) -> Form
    requires least { 1 ≤ near }
    requires most { near ≤ 1024 }
    ensures { IsFlatForm size result (rectangle_shape (top_of grade) near size rect w) }
{
    match rect_near(w, near, grade) {
        Some(q) => Form::Flat { rect, q },
        None => if rect.meets(&size.screen()) {
            Form::Visible
        } else {
            Form::Outside
        },
    }
}

// A box, by its eight corners.
fn box_form(size: Size, near: u16, corners: &[ClipVertex; 8], grade: Grade) -> Form
    requires least { 1 ≤ near }
    requires most { near ≤ 1024 }
    ensures { IsFlatForm size result (box_shape (top_of grade) near size corners.now) }
{
    match box_rect(corners, near, size, grade) {
        BoxAnswer::Outside => Form::Outside,
        BoxAnswer::Straddles => Form::Visible,
        BoxAnswer::At { rect, q } => Form::Flat { rect, q },
    }
}

// The camera of a frame.
fn camera_of(scene: &Scene, frame: u32) -> Camera
    requires { frame < length scene.now.cameras }
    ensures value { result.0 ≡ camera_at scene.now frame }
    ensures within { AreWithin (2 ^ 24) result.0 }
{
    Camera(scene.cameras()[frame as usize])
}

/// The form of an object in a frame. Condition: there is such a frame, and the object is one of the scene's.
pub(crate) fn form_of(scene: &Scene, frame: u32, object: &Object) -> Form
    requires frame { frame < length scene.now.cameras }
    requires object { IsObject (length scene.now.object_tris) object.now }
    ensures shape { shape_of_form scene.now frame result ≡ object_shape scene.now frame object.now }
    ensures triangles { HasTriangles (length scene.now.object_tris) result }
{
    match object {
        Object::Area { rect, w } => {
            rectangle_form(scene.size(), scene.near(), *rect, *w, scene.grade())
        }
        Object::Block { low, high } => {
            let corners = camera_of(scene, frame).clip_box(low, high);
            box_form(scene.size(), scene.near(), &corners, scene.grade())
        }
        Object::Mesh { first, count } => Form::Mesh {
            first: *first,
            count: *count,
        },
    }
}
