//! Where the bytes of a message's head stand, byte by byte, so that a head that comes in many pieces
//! is looked at once: an automaton over `httparse`'s grammar, and the count of lines that have ended.
//! It stands on `http_model` for when a head is open.
//!
//! The layer above has one contract: where [`ResponseScan::is_open`] and [`RequestScan::is_open`]
//! say so, all bytes so far are the beginning of a head. Else the head is whole or can't go on, and
//! `httparse` reads it.
#![tactic(auto)]

mod lines;
mod place;
mod request;
mod request_line;
mod response;
mod step;

pub use lines::lines_ended;
pub use request::RequestScan;
pub use response::ResponseScan;

/// The bytes of a head, from the first byte of its message.
pub const HEAD_LIMIT: usize = 65_536;

/// The field lines of a head.
pub const FIELD_LIMIT: usize = 100;
