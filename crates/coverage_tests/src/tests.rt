mod coverage;
mod depth_bounds;
mod numbers;
