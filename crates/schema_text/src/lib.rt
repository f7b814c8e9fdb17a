//! Which type system definitions a schema's text holds, or why it holds none. It stands on the tokens of
//! `gql_tokens`, on the trees of `gql_model` and on the parser of `gql_documents`.
//!
//! [`type_definitions`] gives the definitions in order, descriptions aside, or the line of the flaw:
//! brackets that nest more than 64 deep, then the fault of a text that is no document, then the first
//! operation or fragment. A fault at the name `extend` where a definition may begin is told apart.
#![tactic(auto)]

mod definitions;
mod depth;
mod error;
mod extensions;

pub use definitions::type_definitions;
pub use error::{Flaw, TextError};
