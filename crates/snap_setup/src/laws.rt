//! What holds of frame lists.
ghost use Rattle.snap_setup.specs.Batches.{AreWithinTop, OneBatch};

/// Triangles that come in one batch have the pieces that they have with its winding.
pub fn one_batch()
    ensures { OneBatch }
{}

/// No piece of a frame's list is nearer than the top that its nearness is scaled by.
pub fn within_top()
    ensures { AreWithinTop }
{}
