//! Rectangles and boxes, tested against the tiles: whether each of their samples in the screen is hidden.
#![tactic(auto)]

mod area;
mod boxes;
mod ratio;
mod reach;
mod rectangle;
mod settled;

pub use boxes::{BoxAnswer, box_rect, box_rect_for_others};
pub use rectangle::{rect_near, rect_test};
pub use settled::{references_never_fall, settled_test};
