use crate::executable::{Fragment, Operation};
use crate::type_system::TypeSystem;
use text_types::Items;

/// A document (GraphQL October 2021, 2.2).
#[derive(Drop)]
pub struct Document {
    pub definitions: Items<Definition>,
}

/// A definition of a document (GraphQL October 2021, 2.2).
#[derive(Drop)]
pub enum Definition {
    Operation(Operation),
    Fragment(Fragment),
    TypeSystem(TypeSystem),
}
