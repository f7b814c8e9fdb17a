//! Lines of input as commands of the machine.
//!
//! It stands on the values, on `serde_json`, and on the commands and refusals of `machine_model`. Its
//! one contract for the layer above is [`commands_of_line`]: of every line of bytes it gives the
//! command, `quit`, or the first refusal in the order of the definitions (`specs/`), which are read
//! from `Frames.antt` down.
#![tactic(auto)]

mod dispatch;
mod fitting;
mod framed;
mod kind;
mod member;
mod response;
mod unread;
mod variables;

pub use framed::{Framed, commands_of_line};
pub use kind::FrameKind;
