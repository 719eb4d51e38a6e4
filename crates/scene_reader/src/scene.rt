//! A scene: its parts, tested once, so that whoever holds one need not test them again.
ghost use Rattle.std.specs.Prelude.{◌≡◌, MatchResult, IsOk};
ghost use Rattle.scene_reader.specs.Layout.{IsScene, upgraded};

use crate::checks::parts_fault;
use crate::error::SceneError;
use crate::parts::SceneParts;
use cull_base::{Batch, Grade, Object, Size, Tri};
use std::marker::Model;

/// A valid scene.
#[derive(Drop)]
pub struct Scene {
    parts: SceneParts,
}

impl Model for Scene {
    ghost use Rattle.scene_reader.specs.Layout.{Parts, IsScene};

    ghost Value = { Parts };

    ghost view = { λ s. s.parts };

    ghost invariant = { λ s. IsScene s.parts };
}

impl Scene {
    ghost use Rattle.scene_reader.specs.Layout.{IsScene};
    ghost use Rattle.scene_reader.specs.PartsFault.{IsFaultless, IsFaulty};

    /// A scene of these parts. Err: their first fault, where a count that is too large for 32 bits is told as 4294967295.
    /// Nothing is allocated, and where there is a fault the parts are dropped.
    pub fn new(parts: SceneParts) -> Result<Scene, SceneError>
        ensures value { MatchResult result (λ s. (s ≡ parts) × IsFaultless parts) (λ e. IsFaulty parts e) }
        ensures given { IsScene parts → IsOk result }
        ensures valid { IsOk result → IsScene parts }
    {
        match parts_fault(&parts) {
            Some(fault) => Err(fault),
            None => Ok(Scene::from_valid(parts)),
        }
    }

    /// A scene of parts that are known to be valid.
    pub(crate) fn from_valid(parts: SceneParts) -> Scene
        requires { IsScene parts }
        ensures { result ≡ parts }
    {
        Scene { parts }
    }

    /// What the scene is made of.
    fn into_parts(self) -> SceneParts
        ensures value { result ≡ self }
        ensures valid { IsScene result }
    {
        self.parts
    }

    /// The screen, in pixels.
    pub fn size(&self) -> Size
        ensures { result ≡ record { width = self.now.width; height = self.now.height } }
    {
        match Size::new(self.parts.width, self.parts.height) {
            Some(size) => size,
            None => unreachable!(),
        }
    }

    /// The near distance, from 1 to 1024.
    pub fn near(&self) -> u16
        ensures value { result ≡ self.now.near }
        ensures valid { IsScene self.now }
    {
        self.parts.near
    }

    /// The version of the layout that the scene has: 1 or 2.
    pub fn version(&self) -> u16
        ensures value { result ≡ self.now.version }
        ensures valid { IsScene self.now }
    {
        self.parts.version
    }

    /// How far nearness goes. A scene of version 1 is narrow.
    pub fn grade(&self) -> Grade
        ensures { result ≡ self.now.grade }
    {
        self.parts.grade
    }

    /// x, y and z of each vertex.
    pub fn vertices(&self) -> &[[i32; 3]]
        ensures { result.now ≡ self.now.vertices }
    {
        &self.parts.vertices
    }

    /// The triangles that hide.
    pub fn occluders(&self) -> &[Tri]
        ensures { result.now ≡ self.now.occluders }
    {
        &self.parts.occluders
    }

    /// How the occluder triangles follow one another in batches, each with the winding that is dropped of it.
    pub fn batches(&self) -> &[Batch]
        ensures value { result.now ≡ self.now.batches }
        ensures valid { IsScene self.now }
    {
        &self.parts.batches
    }

    /// The triangles that meshes are made of.
    pub fn object_tris(&self) -> &[Tri]
        ensures { result.now ≡ self.now.object_tris }
    {
        &self.parts.object_tris
    }

    /// What is tested, in order.
    pub fn objects(&self) -> &[Object]
        ensures { result.now ≡ self.now.objects }
    {
        &self.parts.objects
    }

    /// The camera of each frame: twelve numbers, the rows of x, y and w.
    pub fn cameras(&self) -> &[[i32; 12]]
        ensures value { result.now ≡ self.now.cameras }
        ensures valid { IsScene self.now }
    {
        &self.parts.cameras
    }
}

/// The scene in version 2, all else as it was: a scene of version 1 gets its one batch as a table, and stays narrow.
/// Nothing is allocated.
pub fn upgrade(scene: Scene) -> Scene
    ensures value { result ≡ upgraded scene }
    ensures valid { IsScene (upgraded scene) }
{
    let mut parts = scene.into_parts();
    parts.version = 2;
    Scene::from_valid(parts)
}
