//! What a checked operation means when it is executed: its coerced variables and arguments, and the
//! fields that a selection set collects (GraphQL October 2021, 6.1.2, 6.3.2 and 6.4.1). It stands on the
//! values of `gql_value`, the numbers of `gql_numbering` and the vocabulary of `check_model`.
//!
//! It has types and no functions. Its contract for the layers above is its `specs/`: total functions, said of an
//! operation of a document that no rule of validation refuses.
#![tactic(auto)]

mod given;
mod group;

pub use given::Given;
pub use group::Group;
