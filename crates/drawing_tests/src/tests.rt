mod laws;
mod packed_subtiles;
mod sample_boxes;
mod small_pieces;
mod updates;
