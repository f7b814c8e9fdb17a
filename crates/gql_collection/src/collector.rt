use fragment_rules::FragmentIndex;
use gql_model::Document;
use gql_numbering::Numbering;
use gql_value::Value;
use schema_model::{Schema, Table, TypeId};

/// A document under its schema, with its own numbering and the index of its fragments, the values of
/// variables, the object type for which fields are collected, and for each selection set, by its number,
/// whether `__typename` is put at its front. No set gets it where `fronts` is empty, as for the client's
/// own selection.
#[derive(Drop)]
pub struct Collector<'a> {
    pub schema: &'a Schema,
    pub document: &'a Document,
    pub numbering: &'a Numbering,
    pub fragments: &'a FragmentIndex,
    pub variables: &'a Table<Value>,
    pub object: TypeId,
    pub fronts: &'a [bool],
}
