//! The masked update: subtiles of two depths and a mask, tiles of eight subtiles, pieces that are set up once, and the
//! plain drawing of a frame list.
#![tactic(auto)]

mod bounds;
mod canvas;
mod coverage;
mod cut;
mod draw;
mod member;
mod packing;
mod piece_form;
mod piece_setup;
mod sample_box;
mod small_piece;
mod small_walk;
mod sub_span;
mod sub_tile;
mod tile_layers;
mod tile_state;
mod tile_view;
mod walk;
mod window;

pub use bounds::bounds_within;
pub use canvas::Canvas;
pub use cut::lower_cut;
pub use draw::draw_plain;
pub use member::next_member;
pub use piece_form::PieceForm;
pub use piece_setup::{PieceDepths, PieceSetup};
pub use sample_box::{sampled, sampled_members};
pub use small_piece::SmallPiece;
pub use sub_span::SubBox;
pub use sub_tile::SubTile;
pub use tile_state::TileState;
pub use tile_view::{PlainView, TileView};
pub use window::{drawn_window, missing_members};
