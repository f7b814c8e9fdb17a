//! The vocabulary in which documents are judged under a schema: every definition that validation stands
//! on, after section 5 of GraphQL October 2021, and the few plain types that it speaks of. It stands on the trees of
//! `gql_model`, the schemas of `schema_model`, and what `schema_rules` and `schema_defaults` say of types and literals.
//!
//! It has no code. Its contract for the layers above is its `specs/`: one predicate for each rule over a
//! whole document, each said of a document that breaks no earlier rule, and the order in which they are tried.
#![tactic(auto)]

mod location;
mod refusal;
mod size;

pub use location::Location;
pub use refusal::Refusal;
pub use size::Size;
