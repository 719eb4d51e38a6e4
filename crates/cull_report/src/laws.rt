//! What becomes of the texts of a scene that is upgraded.
ghost use Rattle.cull_report.specs.Upgraded.{KeepsReport, KeepsLive};

/// An upgraded scene has the report and the live text of the scene.
pub fn upgrade_keeps_texts()
    ensures report { KeepsReport }
    ensures live { KeepsLive }
{}
