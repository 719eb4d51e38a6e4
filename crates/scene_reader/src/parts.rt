//! What a scene is made of, before anything is tested.

use cull_base::{Batch, Grade, Object, Tri};
use std::marker::Model;

/// What a scene is made of, valid or not. The batches take the occluder triangles one after another, each as many as it
/// counts. Coordinates and camera entries are whole numbers; a camera is three rows of four, of x, y and w.
#[derive(Drop)]
pub struct SceneParts {
    pub version: u16,
    pub width: u16,
    pub height: u16,
    pub near: u16,
    pub grade: Grade,
    pub vertices: Vec<[i32; 3]>,
    pub occluders: Vec<Tri>,
    pub batches: Vec<Batch>,
    pub object_tris: Vec<Tri>,
    pub objects: Vec<Object>,
    pub cameras: Vec<[i32; 12]>,
}

impl Model for SceneParts {
    ghost use Rattle.scene_reader.specs.Layout.{Parts};

    ghost Value = { Parts };

    ghost view = { λ p. record {
      version = p.version;
      width = p.width;
      height = p.height;
      near = p.near;
      grade = p.grade;
      vertices = p.vertices.items;
      occluders = p.occluders.items;
      batches = p.batches.items;
      object_tris = p.object_tris.items;
      objects = p.objects.items;
      cameras = p.cameras.items;
    } };
}
