//! What a GraphQL schema means: its types and directives by name, with their parts, and its roots. It
//! stands on the texts of `text_types` and on the trees of documents of `gql_model`.
//!
//! A [`Schema`] is plain data that contracts see as it stands. Its tables are lists of pairs in which
//! no name stands twice. Each look-up says what it finds in one clause over them, finds names in
//! logarithmic time and takes no memory.
#![tactic(auto)]

mod lookups;
mod possible;
mod schema;
mod table;

pub use schema::{
    InputValue, Interfaced, RootName, RootNames, Schema, SchemaDirective, SchemaField, SchemaType,
    TypeForm, TypeId, TypeKind,
};
pub use table::Table;
