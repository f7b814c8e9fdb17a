//! The documents that are timed, with the schema that they are checked under and the values of their
//! variables.

use crate::stop::Stop;
use gql_schema::read_schema;
use gql_value::Value;
use schema_model::{Schema, Table};
use std::alloc::Global;
use text_types::Text;

const TYPES: &str = "type Query { me: User todo(id: ID!): Todo todos: [Todo!]! }
type User { id: ID! name: String! nick: String }
type Todo { id: ID! text: String! done: Boolean! author: User }
";

/// What a screen of the list of todos asks for.
const PAGE: &str =
    "query Page($id:ID=\"1\",$n:Boolean!){todos{...T} todo(id:$id){id author{id nick @include(if:$n)}}} fragment T on Todo{id text done author{...U}} fragment U on User{id name}";

/// A document with what it is judged under and sent with.
#[derive(Drop)]
pub(crate) struct Request {
    pub schema: Schema,
    pub text: String,
    pub variables: Table<Value>,
}

impl Request {
    /// The page, or one field under so many aliases.
    pub(crate) fn named(alloc: Global, name: &str) -> Result<Request, Stop> {
        if name == "page" {
            return Request::page(alloc);
        }
        match name.parse::<u64>() {
            Ok(count) => Request::aliases(alloc, count),
            Err(_) => Err(Stop::Name),
        }
    }

    fn page(alloc: Global) -> Result<Request, Stop> {
        let id = Value::Text(Text::from_str(alloc, "1")?);
        let variables = Table::new(alloc)
            .put(Text::from_str(alloc, "id")?, id)?
            .put(Text::from_str(alloc, "n")?, Value::Bool(true))?;
        Ok(Request {
            schema: read_schema(alloc, TYPES.as_bytes())?,
            text: String::from_str(alloc, PAGE)?,
            variables,
        })
    }

    /// One field under so many aliases, with equal arguments and a selection set each.
    fn aliases(alloc: Global, count: u64) -> Result<Request, Stop> {
        let mut text = String::from_str(alloc, "{")?;
        for number in 0..count {
            let field = format!(in alloc; "a{number}:todo(id:\"1\"){{id text author{{name}}}}\n")?;
            text.push_str(&field)?;
        }
        text.push_str("}")?;
        Ok(Request {
            schema: read_schema(alloc, TYPES.as_bytes())?,
            text,
            variables: Table::new(alloc),
        })
    }
}
