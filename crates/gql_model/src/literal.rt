use crate::name::Name;
use gql_tokens::Place;
use text_types::{Items, Text};

/// A value as it is written in a document (GraphQL October 2021, 2.9).
#[cycle(literals)]
#[derive(Drop)]
pub struct Literal {
    pub place: Place,
    pub value: LiteralValue,
}

/// What a literal is (GraphQL October 2021, 2.9).
#[cycle(literals)]
#[derive(Drop)]
pub enum LiteralValue {
    /// The variable of this name, without its `$`.
    Variable(Text),
    /// The text is kept beside the number, so that `-0` isn't `0`.
    Integer { text: Text, number: i64 },
    /// What the string or block string means.
    String(Text),
    Boolean(bool),
    Null,
    Enum(Text),
    List(Items<Literal>),
    Object(Items<ObjectField>),
}

/// A field of an object literal.
#[cycle(literals)]
#[derive(Drop)]
pub struct ObjectField {
    pub name: Name,
    pub value: Literal,
}
