use gql_schema::read_schema;
use schema_model::Schema;
use std::alloc::Global;
use std::test::Fail;
use updater_rules::{RuleError, read_rules};

pub(crate) const TYPES: &str = "type Query { me: User todos(done: Boolean): [Todo!]! }
type Mutation {
  setDone(id: ID!, done: Boolean!): Todo
  rename(id: ID!, name: String!): User
  addAll(ids: [ID!]!): [Todo!]!
  node(id: ID!): Node
  any(id: ID!): Any
  tag(id: ID!): Tag
  clear: Boolean
}
type Subscription { renamed: User }
interface Node { id: ID! }
type User implements Node { id: ID! name: String! nick: String friend(id: ID!): User }
type Todo implements Node { id: ID! text: String! done: Boolean! author: User }
type Tag { id(format: Int): ID! name: String! }
union Any = User | Todo
enum Color { RED }";

pub(crate) fn schema(alloc: Global, text: &str) -> Result<Schema, Fail> {
    Ok(read_schema(alloc, text.as_bytes()).map_err(|_| "the schema is refused")?)
}

/// Whether a text is refused with this code and this name.
pub(crate) fn is_refused(
    alloc: Global,
    schema: &Schema,
    text: &[u8],
    code: u8,
    name: &str,
) -> bool {
    match read_rules(alloc, schema, text) {
        Err(
            RuleError::Refused {
                code: told,
                name: called,
            },
        ) => told == code && called.is(name),
        _ => false,
    }
}

/// Whether a text gives rules.
pub(crate) fn is_accepted(alloc: Global, schema: &Schema, text: &str) -> bool {
    read_rules(alloc, schema, text.as_bytes()).is_ok()
}
