//! The parser of GraphQL documents (October 2021, 2 and 3). It stands on the tokens of `gql_tokens` and
//! on the trees and the grammar of `gql_model`.
//!
//! [`parse_document`] gives the document that the tokens of a text derive, and refuses exactly the
//! other texts, each with the row and the column of the first token behind the longest beginning of a
//! document. There is one function for each production of the grammar, in its order, with the
//! production above it: types in `names`, values in `literals`, selection sets in `selections`,
//! operations and fragments in `executables`, lists of names in `name_lists`, types with fields in
//! `fields`, the other type system definitions in `type_systems`. Each does what the parser of that
//! production in `specs/` does; `proofs/` show that these parsers are those of the grammar.
//!
//! The tokens of a text and how deep its brackets nest are handed on from `gql_tokens`.
#![tactic(auto)]

mod cursor;
mod documents;
mod error;
mod executables;
mod fields;
mod literals;
mod name_lists;
mod names;
mod selections;
mod type_systems;

pub use documents::{documents_are_read, parse_document};
pub use gql_model::{Definition, Document};
pub use gql_tokens::{SyntaxError, Token, Tokens, lex, nesting};
