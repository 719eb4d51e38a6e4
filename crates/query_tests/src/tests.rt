mod meshes;
mod rectangles;
