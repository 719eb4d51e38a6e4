//! The camera that changes nothing.
ghost use Rattle.std.specs.Prelude.{◌≡◌, ℤ, List};
ghost use Rattle.camera_path.specs.Clip.{clip_of, as_clip, identity_camera};

/// Through the identity camera a vertex keeps its coordinates.
pub fn identity_keeps()
    ensures { (v : List ℤ) → clip_of identity_camera v ≡ as_clip v }
{}
