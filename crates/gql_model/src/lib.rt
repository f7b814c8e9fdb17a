//! The trees of GraphQL documents, and what they mean as texts: which tokens derive which tree, and
//! where a text that is no document is at fault. It stands on the texts and lists of `text_types` and
//! on the tokens of `gql_tokens`.
//!
//! There is one type for each production of the grammar, with its parts in order and the place where
//! its first token stands. A part that may be left out is an `Option`, and a list that may be left out
//! is empty where it is.
#![tactic(auto)]

mod document;
mod executable;
mod literal;
mod name;
mod selection;
mod type_ref;
mod type_system;

pub use document::{Definition, Document};
pub use executable::{Fragment, Operation, OperationKind, VariableDefinition};
pub use literal::{Literal, LiteralValue, ObjectField};
pub use name::Name;
pub use selection::{Argument, Directive, Field, InlineFragment, Selection, SelectionSet, Spread};
pub use type_ref::{TypeNode, TypeRef};
pub use type_system::{
    DirectiveDefinition, EnumDefinition, EnumValueDefinition, FieldDefinition, InputDefinition,
    InputObjectDefinition, ObjectDefinition, RootOperation, ScalarDefinition, SchemaDefinition,
    TypeSystem, TypeSystemForm, UnionDefinition,
};
