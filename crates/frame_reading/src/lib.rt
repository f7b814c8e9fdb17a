//! The frames of the gateway's input: what a line asks for, or why it isn't taken.
//!
//! It stands on the values of `gql_value` and on the refusals of `machine_model`. The layers above have
//! two calls: [`read_json`] gives the JSON that a line is, and [`frame_of`] the frame that JSON is, or
//! the first refusal, exactly as `specs/Frames.antt` says. [`FrameError`] is the error of all calls that
//! judge a frame: a refusal, or want of memory.
#![tactic(auto)]

mod error;
mod frame;
mod json;
mod member;
mod variables;

pub use error::FrameError;
pub use frame::{Dispatch, Frame, frame_of};
pub use json::read_json;
pub use member::{member_number, member_text};
