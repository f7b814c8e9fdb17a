//! Validation: whether a document and the choice of its operation are accepted under a schema, and else the
//! first ground to refuse them, in the order of `check_model`. It stands on the crates of the rules and on
//! `checked_operation`.
//!
//! [`check`] gives the checked operation exactly where [`first_refusal`] finds nothing.
#![tactic(auto)]

mod accepted;
mod early;
mod error;
mod late;
mod places;
mod whole;

pub use accepted::check;
pub use checked_operation::Checked;
pub use early::early_refusal;
pub use error::CheckError;
pub use late::value_refusal;
pub use places::place_refusal;
pub use whole::first_refusal;
