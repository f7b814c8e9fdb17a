use crate::literal::Literal;
use crate::name::Name;
use crate::selection::{Directive, SelectionSet};
use crate::type_ref::TypeNode;
use gql_tokens::Place;
use text_types::Items;

/// The kind of an operation (GraphQL October 2021, 2.3).
#[derive(Clone, Copy, Debug, PartialEq, Eq)]
pub enum OperationKind {
    Query,
    Mutation,
    Subscription,
}

/// An operation (GraphQL October 2021, 2.3). The short form, a selection set alone, is an anonymous
/// query.
#[derive(Drop)]
pub struct Operation {
    pub place: Place,
    pub kind: OperationKind,
    pub name: Option<Name>,
    pub variables: Items<VariableDefinition>,
    pub directives: Items<Directive>,
    pub selection_set: SelectionSet,
}

/// The definition of a variable (GraphQL October 2021, 2.10).
#[derive(Drop)]
pub struct VariableDefinition {
    pub place: Place,
    pub name: Name,
    pub variable_type: TypeNode,
    pub default: Option<Literal>,
    pub directives: Items<Directive>,
}

/// The definition of a fragment (GraphQL October 2021, 2.8).
#[derive(Drop)]
pub struct Fragment {
    pub place: Place,
    pub name: Name,
    pub type_condition: Name,
    pub directives: Items<Directive>,
    pub selection_set: SelectionSet,
}
