//! JSON values whose numbers are whole, and their compact text. It stands on the base types and on
//! `serde_json`, from whose values it takes over what it can tell exactly.
//!
//! The layer above has one contract: [`from_json`] gives the value that some JSON is, or the path of
//! the first number in it that isn't whole, [`write_text`] appends the text of a value or changes
//! nothing, and [`sorted_text`] gives that text with members sorted by name at every depth, which
//! [`push_sorted_members`] appends for the members of an object. Want of memory is the one failure that
//! no clause ties to a cause.
//!
//! [`outcome_of`] says what a response of an origin comes to, by its status and its body, and
//! [`outcome_of_json`] what a body comes to that is JSON already: the answer with its errors, or the
//! first fault in a fixed order.
#![tactic(auto)]

mod copying;
mod equality;
mod fronts;
mod json;
mod json_error;
mod outcome;
mod quoting;
mod refusal;
mod response;
mod sorting;
mod value;
mod writing;

pub use json::from_json;
pub use json_error::JsonError;
pub use outcome::{Fault, Outcome, fault_of_status, outcome_of, outcome_of_json};
pub use quoting::write_quoted;
pub use sorting::{push_sorted_members, sorted_text};
pub use value::{Members, Value, Values};
pub use writing::write_text;
