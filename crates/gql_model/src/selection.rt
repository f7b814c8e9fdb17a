use crate::literal::Literal;
use crate::name::Name;
use gql_tokens::Place;
use text_types::Items;

/// The argument of a field or a directive (GraphQL October 2021, 2.6).
#[derive(Drop)]
pub struct Argument {
    pub name: Name,
    pub value: Literal,
}

/// A directive that stands on a part of a document (GraphQL October 2021, 2.12).
#[derive(Drop)]
pub struct Directive {
    pub place: Place,
    pub name: Name,
    pub arguments: Items<Argument>,
}

/// A selection set (GraphQL October 2021, 2.4).
#[cycle(selections)]
#[derive(Drop)]
pub struct SelectionSet {
    pub place: Place,
    pub selections: Items<Selection>,
}

/// A selection (GraphQL October 2021, 2.4): a field, a spread of a fragment, or an inline fragment.
#[cycle(selections)]
#[derive(Drop)]
pub enum Selection {
    Field(Field),
    Spread(Spread),
    Inline(InlineFragment),
}

/// A field (GraphQL October 2021, 2.5).
#[cycle(selections)]
#[derive(Drop)]
pub struct Field {
    pub alias: Option<Name>,
    pub name: Name,
    pub arguments: Items<Argument>,
    pub directives: Items<Directive>,
    pub selection_set: Option<SelectionSet>,
}

/// A fragment spread (GraphQL October 2021, 2.8).
#[derive(Drop)]
pub struct Spread {
    pub place: Place,
    pub name: Name,
    pub directives: Items<Directive>,
}

/// An inline fragment (GraphQL October 2021, 2.8.2).
#[cycle(selections)]
#[derive(Drop)]
pub struct InlineFragment {
    pub place: Place,
    pub type_condition: Option<Name>,
    pub directives: Items<Directive>,
    pub selection_set: SelectionSet,
}
