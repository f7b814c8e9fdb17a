use crate::executable::OperationKind;
use crate::literal::Literal;
use crate::name::Name;
use crate::selection::Directive;
use crate::type_ref::TypeNode;
use gql_tokens::Place;
use text_types::{Items, Text};

/// A type system definition with its description (GraphQL October 2021, 3.2).
#[derive(Drop)]
pub struct TypeSystem {
    pub place: Place,
    pub description: Option<Text>,
    pub form: TypeSystemForm,
}

/// What a type system definition defines (GraphQL October 2021, 3).
#[derive(Drop)]
pub enum TypeSystemForm {
    Schema(SchemaDefinition),
    Scalar(ScalarDefinition),
    Object(ObjectDefinition),
    Interface(ObjectDefinition),
    Union(UnionDefinition),
    Enum(EnumDefinition),
    Input(InputObjectDefinition),
    Directive(DirectiveDefinition),
}

/// The root operation types (GraphQL October 2021, 3.3). The place is that of the word `schema`.
#[derive(Drop)]
pub struct SchemaDefinition {
    pub place: Place,
    pub directives: Items<Directive>,
    pub roots: Items<RootOperation>,
}

/// The type of one kind of operations.
#[derive(Drop)]
pub struct RootOperation {
    pub place: Place,
    pub kind: OperationKind,
    pub named: Name,
}

/// A scalar type (GraphQL October 2021, 3.5).
#[derive(Drop)]
pub struct ScalarDefinition {
    pub name: Name,
    pub directives: Items<Directive>,
}

/// An object type (GraphQL October 2021, 3.6) or an interface (3.7), which have the same parts.
#[derive(Drop)]
pub struct ObjectDefinition {
    pub name: Name,
    pub interfaces: Items<Name>,
    pub directives: Items<Directive>,
    pub fields: Items<FieldDefinition>,
}

/// A field of an object type or an interface.
#[derive(Drop)]
pub struct FieldDefinition {
    pub description: Option<Text>,
    pub name: Name,
    pub arguments: Items<InputDefinition>,
    pub field_type: TypeNode,
    pub directives: Items<Directive>,
}

/// An argument of a field or a directive, or a field of an input object type (GraphQL October 2021,
/// 3.6.1).
#[derive(Drop)]
pub struct InputDefinition {
    pub description: Option<Text>,
    pub name: Name,
    pub input_type: TypeNode,
    pub default: Option<Literal>,
    pub directives: Items<Directive>,
}

/// A union (GraphQL October 2021, 3.8).
#[derive(Drop)]
pub struct UnionDefinition {
    pub name: Name,
    pub directives: Items<Directive>,
    pub members: Items<Name>,
}

/// An enum (GraphQL October 2021, 3.9).
#[derive(Drop)]
pub struct EnumDefinition {
    pub name: Name,
    pub directives: Items<Directive>,
    pub values: Items<EnumValueDefinition>,
}

/// A value of an enum.
#[derive(Drop)]
pub struct EnumValueDefinition {
    pub description: Option<Text>,
    pub name: Name,
    pub directives: Items<Directive>,
}

/// An input object type (GraphQL October 2021, 3.10).
#[derive(Drop)]
pub struct InputObjectDefinition {
    pub name: Name,
    pub directives: Items<Directive>,
    pub fields: Items<InputDefinition>,
}

/// A directive that may stand in documents (GraphQL October 2021, 3.13).
#[derive(Drop)]
pub struct DirectiveDefinition {
    pub name: Name,
    pub arguments: Items<InputDefinition>,
    pub repeatable: bool,
    pub locations: Items<Name>,
}
