use crate::table::Table;
use gql_model::{Literal, Name, TypeNode};
use text_types::{Items, Text};

/// The number of a type in its schema, counted from 0.
#[derive(Clone, Copy, Debug, PartialEq, Eq)]
pub struct TypeId(pub u64);

/// The types and directives that may be used, and the root types (GraphQL October 2021, 3.2 and 3.3).
/// The five built-in scalars are among the types.
#[derive(Drop)]
pub struct Schema {
    pub types: Table<SchemaType>,
    pub directives: Table<SchemaDirective>,
    pub roots: RootNames,
}

/// The root type of each kind of operations (GraphQL October 2021, 3.3.1).
#[derive(Drop)]
pub struct RootNames {
    pub query: Option<RootName>,
    pub mutation: Option<RootName>,
    pub subscription: Option<RootName>,
}

/// The name of a root type. The line is that of the name in `schema`, or in its definition where there
/// is no `schema`.
#[derive(Drop)]
pub struct RootName {
    pub line: u64,
    pub text: Text,
}

/// A type. The line is that of its name, and 0 for a built-in scalar.
#[derive(Drop)]
pub struct SchemaType {
    pub line: u64,
    pub form: TypeForm,
}

/// The six forms of named types (GraphQL October 2021, 3.4).
#[derive(Drop)]
pub enum TypeForm {
    Scalar,
    Object(Interfaced),
    Interface(Interfaced),
    /// The member types, each with the line of its name.
    Union(Table<u64>),
    /// The values, each with the line of its name.
    Enum(Table<u64>),
    Input(Table<InputValue>),
}

/// The parts of an object type (GraphQL October 2021, 3.6) or an interface (3.7). Each interface comes
/// with the line of its name behind `implements`.
#[derive(Drop)]
pub struct Interfaced {
    pub interfaces: Table<u64>,
    pub fields: Table<SchemaField>,
}

/// A field of an object type or an interface. The line is that of its name.
#[derive(Drop)]
pub struct SchemaField {
    pub line: u64,
    pub arguments: Table<InputValue>,
    pub field_type: TypeNode,
}

/// An argument, or a field of an input object type. The line is that of its name.
#[derive(Drop)]
pub struct InputValue {
    pub line: u64,
    pub input_type: TypeNode,
    pub default: Option<Literal>,
}

/// A directive (GraphQL October 2021, 3.13). The line is that of its name.
#[derive(Drop)]
pub struct SchemaDirective {
    pub line: u64,
    pub arguments: Table<InputValue>,
    pub repeatable: bool,
    pub locations: Items<Name>,
}

/// What form a type has.
#[derive(Clone, Copy, Debug, PartialEq, Eq)]
pub enum TypeKind {
    Scalar,
    Object,
    Interface,
    Union,
    Enum,
    InputObject,
}
