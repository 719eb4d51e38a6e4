//! Linear forms over the screen that stand for the lines and planes of exact triangles, and the certificate of a corner by
//! them: what corners they certify make a piece that says no more than the triangles do.
#![tactic(auto)]

mod eye;
mod form;
mod forms;
mod laws;
mod narrow_line;
mod nearness_form;
mod of_corners;

pub use eye::Eye;
pub use form::Form;
pub use forms::{Forms, Half};
pub use laws::{quad_certified, triangle_certified};
pub use nearness_form::NearnessForm;
