//! What tests of scenes in bytes share: the first scene, changes of it, and what becomes of it.
#![tactic(auto)]

mod bytes;

pub use bytes::{FIRST_SCENE, OBJECT, batch, cut, edit, refusal_of, refusal_of_more, written};
