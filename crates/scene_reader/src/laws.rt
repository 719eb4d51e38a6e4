//! What holds of the definitions together.
ghost use Rattle.scene_reader.specs.Law.{OneLayout, UpgradesScenes};

/// Bytes have no first fault exactly where they are the layout of a scene, and they are then that of only one.
pub fn one_layout()
    ensures { OneLayout }
{}

/// An upgraded scene is a scene, and one of version 2 stays as it is.
pub fn upgrades_scenes()
    ensures { UpgradesScenes }
{}
