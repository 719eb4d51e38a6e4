//! What tiles hold as a picture: the bound at each pixel of a screen, as a plain grey map.
#![tactic(auto)]

mod laws;
mod lines;
mod picture;

pub use laws::shades_fit;
pub use picture::write_picture;
