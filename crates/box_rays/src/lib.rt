//! Which pixels an object may be seen in, and how near it comes, by clip points that are held in whole numbers. A
//! rectangle is proposed by floats and then certified by whole numbers, so that nothing rests on a float.
#![tactic(auto)]

mod corner;
mod frustum;
mod half_space;
mod nearness;
mod proposal;
mod reached;

pub use reached::{Reached, is_certain};

#[cfg(test)]
mod tests;
