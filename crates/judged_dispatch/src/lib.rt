//! The judgement of a dispatch: from the text of a query, the name of an operation and values for its
//! variables to a checked operation, or to the first refusal.
//!
//! It stands on the parser, on `gql_check` and on `gql_coercion`, and gives refusals of `machine_model`.
//! The layers above have one call: [`judge`], which is `judged` of `specs/Judged.antt`.
#![tactic(auto)]

mod judged;
mod kinds;
mod service;
mod variables;

pub use judged::{Judged, judge};
pub use kinds::Kinds;
pub use service::Service;
pub use variables::table_of;
