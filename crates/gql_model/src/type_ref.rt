use gql_tokens::Place;
use sqlite_items::Boxed;
use text_types::Text;

/// A type as it is written (GraphQL October 2021, 2.11).
#[derive(Drop)]
pub enum TypeRef {
    Named { named: Text, non_null: bool },
    List { of: Boxed<TypeRef>, non_null: bool },
}

/// A type in a document, with the place of the name in it.
#[derive(Drop)]
pub struct TypeNode {
    pub place: Place,
    pub type_ref: TypeRef,
}
