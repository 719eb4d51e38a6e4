//! A screen into whose bins a list is drawn.
use binning::Cut;
use cull_base::FrameList;

/// A list that is drawn into the bins of a cut screen, with what lies beside the bins' tiles and the gate that is
/// asked.
#[derive(Drop)]
pub struct Screen<'a, B, G> {
    pub list: &'a FrameList,
    pub cut: &'a Cut,
    pub beside: &'a B,
    pub gate: &'a G,
}
