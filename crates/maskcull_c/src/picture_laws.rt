//! What is hidden in the picture, by tiles that pieces of meshes of floats were drawn onto.
ghost use Rattle.std.specs.Prelude.{◌≡◌, ℕ, ℤ, pos, ◌*ℤ◌, ◌<ℤ◌, List};
ghost use Rattle.std.specs.List.{All, Contains};
ghost use Rattle.cull_base.specs.Piece.{Piece};
ghost use Rattle.cull_base.specs.Shape.{Shape};
ghost use Rattle.cull_base.specs.Screen.{Dimensions};
ghost use Rattle.exact_clip.specs.Clip.{Clip};
ghost use Rattle.pixel_forms.specs.Rays.{Place, Face, ray_through, size_of, weight_of};
ghost use Rattle.box_rays.specs.Objects.{weighted};
ghost use Rattle.masked_update.specs.TileOf.{TileOf};
ghost use Rattle.maskcull_c.specs.Asked.{verdict_over};
ghost use Rattle.maskcull_c.specs.Floats.{IsMeshAnswerFor, IsView, MayStandFor, points_of};
ghost use Rattle.maskcull_c.specs.Given.{size_of as screen_size};
ghost use Rattle.maskcull_c.specs.Seen.{AreOfMeshes, Drawn, IsDrawn, IsFrame, IsHiddenBy, IsHiddenInPicture, IsOfFrame, count_of};
ghost use Rattle.maskcull_c.specs.Tiles.{AreAll, Hides, IsAfter, code_of};
ghost use Rattle.maskcull_c.specs.declared.given.Setup.{Setup};
ghost use Rattle.maskcull_c.specs.declared.given.Triangle.{Triangle};
ghost use Rattle.maskcull_c.specs.declared.status.TheConstants.{OCCLUDED};
ghost use Rattle.maskcull_c.specs.declared.view.View.{View};

/// Tiles of a screen that are each after a list of pieces, which were set up of meshes, are a frame of these meshes.
pub fn drawn_is_frame()
    ensures { (s : Setup) (v : View) (reach : ℕ) (meshes : List Drawn) (lists : ℕ → List Piece)
        (tiles : List TileOf)
        → IsAfter (screen_size s) 0 lists tiles → AreAll (screen_size s) tiles
        → ((m : Drawn) → Contains meshes m → IsOfFrame s v reach m) → AreOfMeshes meshes lists
        → IsFrame s v reach meshes tiles }
{}

/// An object that is called occluded by tiles of a frame is hidden in the picture: at each point of the square around
/// each pixel that it is seen in, by one triangle of the frame's meshes. Of a mesh each triangle is.
pub fn hidden_in_picture()
    ensures object { (s : Setup) (v : View) (tiles : List TileOf) (reach : ℕ) (meshes : List Drawn)
        (points : List Clip) (shape : Shape) (code : ℕ)
        → MayStandFor s v points shape → code ≡ code_of (verdict_over (screen_size s) tiles shape)
        → Hides (screen_size s) tiles shape code → IsView s v → IsFrame s v reach meshes tiles
        → code ≡ OCCLUDED → IsHiddenInPicture v reach (IsDrawn meshes) points }
    ensures mesh { (s : Setup) (v : View) (tiles : List TileOf) (reach : ℕ) (meshes : List Drawn)
        (floats : List ℕ) (triangles : List Triangle) (code : ℕ)
        → IsMeshAnswerFor s v tiles floats triangles code → IsView s v → IsFrame s v reach meshes tiles
        → code ≡ OCCLUDED
        → All (λ t. IsHiddenInPicture v reach (IsDrawn meshes) (points_of v floats t)) triangles }
{}

/// A triangle that hides some points is nearer than each point between them, which is a weighted sum of them over the
/// weights' sum: where the ray meets it, its w is less.
pub fn nearer_than_all()
    ensures { (near : ℤ) (share : ℕ) (points : List Clip) (size : Dimensions) (z : Place) (f : Face)
        (weights : List ℕ)
        → IsHiddenBy near share points (ray_through size z) f → pos 0 <ℤ (weighted weights points).w
        → (pos (count_of weights points) *ℤ ((ray_through size z).w *ℤ size_of f))
        <ℤ ((weighted weights points).w *ℤ weight_of f (ray_through size z)) }
{}
