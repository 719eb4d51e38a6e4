//! The frames of a scene: drawn and tested, their lines written, and notes made beside. Here stands also how a run ends
//! that isn't done, since frames may fail.
#![tactic(auto)]

mod drawing;
mod failure;
mod frame_by_frame;
mod frame_pool;
mod frames;
mod heap;
mod live_caller;
mod live_frame;
mod noting;
mod summary;
mod window;

pub use drawing::Plan;
pub use failure::{Failure, Status};
pub use frame_by_frame::report_frames;
pub use frames::{Beside, FrameLines, beside_of, drawn_pieces};
