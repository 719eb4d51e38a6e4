//! Tests of what is asked about rectangles, boxes and meshes over drawn tiles.
#![tactic(auto)]

#[cfg(test)]
mod tests;
