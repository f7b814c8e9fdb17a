//! The canonical text of GraphQL documents, and that it parses back. It stands on the trees and the
//! grammar of `gql_model`, on the parser of `gql_documents` for what it reads, and on `gql_spelling` for
//! how tokens are spelled one after another.
//!
//! [`print_document`] gives the canonical text of a document: its tokens in order, with one space
//! between two words (names, integers and strings) and nothing else between tokens. Strings are written
//! by their values in one line, and what isn't in the tree isn't written. Want of memory is its one
//! failure.
//!
//! That the text is the document's own stands on [`canonical_text_is_its_document`] and
//! [`canonical_text_is_read_again`]: its tokens derive the document, and it is read as it, places aside.
//! There is one function for each production of the grammar, with the production above it, and one
//! definition in `specs/` for each.
#![tactic(auto, using(crate::proofs::Writing::written_append))]

mod appending;
mod documents;
mod executables;
mod laws;
mod literals;
mod print;
mod printer;
mod punctuators;
mod selections;
mod type_systems;
mod types;

pub use documents::print_document;
pub use laws::{canonical_text_is_its_document, canonical_text_is_read_again};
