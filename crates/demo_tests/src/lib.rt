//! Tests of the command for scenes of random triangles: its summary, and what its bins draw.
#![tactic(auto)]

#[cfg(test)]
mod tests;
