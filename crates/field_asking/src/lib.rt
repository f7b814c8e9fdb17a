//! What an operation asks of an object: the collected fields, each with its name, the values of its
//! arguments and its type (GraphQL October 2021, 6.3 and 6.4). It stands on the meaning of
//! `execution_model`, and on `gql_collection` and `gql_coercion`.
//!
//! Its one contract: [`Asking::fields`] gives exactly what `execution_model` defines, for the client's
//! own selection or for the operation as it is sent, and no two fields have one response key. Names and
//! types are borrowed; the arguments' values, the response keys and the numbers of sets are the field's own.
#![tactic(auto)]

mod asking;
mod field;
mod fields;
mod roots;

pub use asking::Asking;
pub use field::AskedField;
