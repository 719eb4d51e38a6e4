//! The ground of the culler: the screen and its tiles, pieces and frame lists, sources and sinks of bytes.
//! The definitions that several crates cite stand in this crate's specs.
#![tactic(auto)]

pub mod arithmetic;
mod clip;
mod divisor;
pub mod eights;
mod extent;
mod frame_list;
mod memory;
mod near;
mod nearness;
mod place;
mod rect;
mod sample_box;
mod scene_types;
mod screen_tri;
mod sink;
mod size;
mod source;
mod tile_span;
mod triangle;

pub use clip::ClipVertex;
pub use divisor::Divisor;
pub use extent::Extent;
pub use frame_list::FrameList;
pub use memory::{Failed, Memory, SinkError};
pub use near::Near;
pub use nearness::{Grade, HELD_TOP, held_top};
pub use place::{Sample, Sub, Tile};
pub use rect::{NO_PIXELS, Rect};
pub use sample_box::samples_between;
pub use scene_types::{Batch, Object, Tri, Verdict};
pub use screen_tri::ScreenTri;
pub use sink::{BytesSink, Sink, SureSink, write_whole};
pub use size::Size;
pub use source::{BytesSource, Source, SureSource, fill};
pub use tile_span::TileSpan;
pub use triangle::{Side, Winding};
