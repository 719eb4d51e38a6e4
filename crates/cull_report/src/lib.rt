//! The verdicts of a frame, and the texts that are written of it.
#![tactic(auto)]

mod answering;
mod asked;
mod by_workers;
mod counts;
mod form;
mod frame;
mod frame_verdicts;
mod laws;
mod live_line;
mod live_text;
mod objects;
mod report;
mod run_pool;
mod runs;
mod tally;

pub use answering::Answering;
pub use asked::Asked;
pub use by_workers::{
    Answers, answers_by_workers, answers_with_lines, thread_count, verdicts_by_workers,
    verdicts_with_lines,
};
pub use counts::Counts;
pub use form::Form;
pub use frame::{clip_frame, occluders_of, pieces_of};
pub use frame_verdicts::FrameVerdicts;
pub use laws::upgrade_keeps_texts;
pub use live_line::{LiveLine, TileCount};
pub use live_text::write_live;
pub use objects::{object_area, object_form, object_settled, object_verdict, verdicts};
pub use report::{write_frame, write_header};
pub use tally::Tally;
